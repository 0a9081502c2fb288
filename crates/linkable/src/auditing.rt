//! The audit of a chain of sessions.
ghost use Rattle.std.specs.Prelude.{◌≡◌, ◌⊎◌, IfOk, IfErr, map};
ghost use Rattle.std.specs.Arc.{arc_value};
ghost use Rattle.commands.specs.Chains.{IsAcceptedOver, RefusesOver};
ghost use Rattle.linkable.specs.Auditing.{AreSourcesIn, IsByTheRules, TellsAccepted, TellsAudit, TellsRefused};
ghost use Rattle.linkable.specs.Projects.{IsNoProjectIn};
ghost use Rattle.linkable.specs.Stopping.{Says};
ghost use Rattle.linkable.specs.Telling.{told_of};

use crate::chains::files_in;
use crate::projects::project_in;
use crate::stopping::Stop;
use crate::told::Told;
use audit_graph::AuditFault;
use commands::{accepted_texts, chain_refusal};
use mini_java::{Audited, accepted_chains_are_the_rules, audit_chain, audit_chain_against};
use named_files::Project;
use std::alloc::{AllocError, Global};

/// What is reported of the chain of the files that these bytes are, over the sources if there are any.
#[tactic(auto, using(crate::proofs::Tells::of_chain, crate::proofs::Tells::no_sources, crate::proofs::Tells::no_chain))]
pub(crate) fn audit(alloc: Global, chain: &[u8], sources: &[u8]) -> Result<Told, AllocError>
    ensures { IfOk result (λ told. TellsAudit chain.now sources.now (told_of told)) }
{
    let project = match sources_in(alloc, sources) {
        Ok(project) => project,
        Err(Stop::Refused(line)) => return Ok(Told::refusal(alloc, line)),
        Err(Stop::OutOfMemory) => return Err(AllocError),
    };
    match files_in(alloc, chain) {
        Ok(files) => audit_files(alloc, files.as_slice(), &project),
        Err(Stop::Refused(line)) => Ok(Told::refusal(alloc, line)),
        Err(Stop::OutOfMemory) => Err(AllocError),
    }
}

// The project of the sources that these bytes are, if there are any.
fn sources_in(alloc: Global, bytes: &[u8]) -> Result<Option<Project>, Stop>
    ensures project { IfOk result (AreSourcesIn bytes.now) }
    ensures refused { IfErr result (Says (IsNoProjectIn bytes.now)) }
{
    if bytes.is_empty() {
        return Ok(None);
    }
    match project_in(alloc, bytes) {
        Ok(project) => Ok(Some(project)),
        Err(stop) => Err(stop),
    }
}

// What is reported of the chain of these files, over the project if there is one.
fn audit_files(
    alloc: Global,
    files: &[&[u8]],
    project: &Option<Project>,
) -> Result<Told, AllocError>
    ensures { IfOk result (λ told.
        TellsAccepted (map (λ f. f.now) files.now) project.now (told_of told)
        ⊎ TellsRefused (map (λ f. f.now) files.now) project.now (told_of told)) }
{
    match audit_over(alloc, files, project) {
        Ok(audited) => Ok(Told::on_chain(accepted_texts(alloc, &audited)?)),
        Err(fault) => Ok(Told::chain_refusal(alloc, chain_refusal(alloc, fault)?)),
    }
}

// What the chain of these files ends with, over the project if there is one.
fn audit_over(
    alloc: Global,
    files: &[&[u8]],
    project: &Option<Project>,
) -> Result<Audited, AuditFault>
    ensures accepted { IfOk result (λ a. IsAcceptedOver project.now (map (λ f. f.now) files.now)
        a.profile (arc_value a.answer) a.sessions a.runs) }
    ensures headline { IfOk result (λ a.
        IsByTheRules (map (λ f. f.now) files.now) a.profile (arc_value a.answer)) }
    ensures refused { IfErr result (RefusesOver project.now (map (λ f. f.now) files.now)) }
{
    accepted_chains_are_the_rules();
    match project {
        Some(project) => audit_chain_against(alloc, files, project),
        None => audit_chain(alloc, files),
    }
}

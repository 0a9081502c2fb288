//! The check of a project from its files alone.
ghost use Rattle.std.specs.Prelude.{IfOk, IfErr};
ghost use Rattle.linkable.specs.Scratching.{TellsAnswer, TellsScratch, TellsUnpacked};
ghost use Rattle.linkable.specs.Telling.{told_of};

use crate::projects::project_in;
use crate::stopping::Stop;
use crate::terms::profile_of;
use crate::told::Told;
use commands::scratch_texts;
use named_files::Project;
use profiles::Profile;
use std::alloc::{AllocError, Global};

/// What is reported of the files that these bytes are.
#[tactic(auto, using(crate::proofs::Tells::by_profile, crate::proofs::Tells::by_none))]
pub(crate) fn scratch(
    alloc: Global,
    bytes: &[u8],
    profile: u32,
    messages: bool,
) -> Result<Told, AllocError>
    ensures { IfOk result (λ told. TellsScratch bytes.now profile messages (told_of told)) }
{
    match profile_of(alloc, profile) {
        Ok(known) => scratch_by(alloc, bytes, known, messages),
        Err(Stop::Refused(line)) => Ok(Told::refusal(alloc, line)),
        Err(Stop::OutOfMemory) => Err(AllocError),
    }
}

// What is reported of the files that these bytes are, by the rules of this profile.
#[tactic(auto, using(crate::proofs::Tells::of_project, crate::proofs::Tells::of_none))]
fn scratch_by(
    alloc: Global,
    bytes: &[u8],
    profile: Profile,
    messages: bool,
) -> Result<Told, AllocError>
    ensures { IfOk result (λ told. TellsUnpacked bytes.now profile messages (told_of told)) }
{
    match project_in(alloc, bytes) {
        Ok(project) => scratch_project(alloc, &project, profile, messages),
        Err(Stop::Refused(line)) => Ok(Told::refusal(alloc, line)),
        Err(Stop::OutOfMemory) => Err(AllocError),
    }
}

// What is reported of a project.
fn scratch_project(
    alloc: Global,
    project: &Project,
    profile: Profile,
    messages: bool,
) -> Result<Told, AllocError>
    ensures { IfOk result (λ told. TellsAnswer project.now profile messages (told_of told)) }
{
    let _files = project.files();
    let texts = scratch_texts(alloc, profile, project, messages)?;
    Ok(Told::on_answer(texts))
}

//! The audit of a chain against a project.
ghost use Rattle.std.specs.Prelude.{◌≡◌, List, None, map, IfOk, IfErr};
ghost use Rattle.std.specs.Arc.{arc_value};
ghost use Rattle.item_ids.specs.declared.key.Key.TheVariants.{Answer};
ghost use Rattle.sessions.specs.Sessions.{SessionValue};
ghost use Rattle.audit_replay.specs.Audits.{AreApart, AreRight, AuditRefusesAgainst, HaveFiles, IsAccepted, IsLastProfile};
ghost use Rattle.audit_replay.specs.Logs.{RunsExecuted, RunsNoOther};

use crate::chain::{Audited, audit_files};
use audit_graph::AuditFault;
use named_files::Project;
use recorder::Runner;
use std::alloc::Global;

/// Audits a chain as `audit` does, and says whether the last session's files are those of the project.
pub fn audit_against<R: Runner>(
    alloc: Global,
    runner: &mut R,
    chain: &[&[u8]],
    project: &Project,
) -> Result<Audited, AuditFault>
    // What was checked.
    ensures accepted { IfOk result (λ a.
        IsAccepted R.queries (map (λ f. f.now) chain.now) (R.log runner.old)
        (R.log runner.new) a.profile project.now (arc_value a.answer) a.sessions a.runs) }
    // What follows of the sessions whose files these are: the profile is that of the last one,
    ensures profile { IfOk result (λ a. (sessions : List SessionValue)
        → HaveFiles sessions (map (λ f. f.now) chain.now)
        → IsLastProfile sessions a.profile) }
    // and if no two different results in them share a fingerprint, each is right over the one before,
    ensures right { IfOk result (λ _. (sessions : List SessionValue)
        → HaveFiles sessions (map (λ f. f.now) chain.now) → AreApart sessions
        → AreRight R.queries None sessions) }
    // and the answer is what the project means by the profile.
    ensures means { IfOk result (λ a. (sessions : List SessionValue)
        → HaveFiles sessions (map (λ f. f.now) chain.now) → AreApart sessions
        → arc_value a.answer ≡ R.queries.mean a.profile project.now Answer) }
    ensures refused { IfErr result (AuditRefusesAgainst R.queries
        (map (λ f. f.now) chain.now) (R.log runner.old) (R.log runner.new) project.now) }
    ensures log { IfOk result (λ a. RunsExecuted (map (λ f. f.now) chain.now)
        (R.log runner.old) (R.log runner.new) a.runs) }
    ensures log_refused { IfErr result (λ _. RunsNoOther (map (λ f. f.now) chain.now)
        (R.log runner.old) (R.log runner.new)) }
{
    match audit_files(alloc, runner, chain) {
        Ok(auditor) => auditor.end_against(project),
        Err(fault) => Err(fault),
    }
}

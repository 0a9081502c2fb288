//! One session over the one before.
ghost use Rattle.std.specs.Prelude.{◌≡◌, IfOk};
ghost use Rattle.std.specs.Option.{option_copied};
ghost use Rattle.sessions.specs.Sessions.{IsTakenFrom, entry_at};
ghost use Rattle.audit_graph.specs.Plans.{executed_in};
ghost use Rattle.audit_graph.specs.Sources.{HasSources};
ghost use Rattle.audit_replay.specs.Logs.{LogGives, executed_keys};
ghost use Rattle.audit_replay.specs.Passes.{SessionGives, StepGives};

use crate::replay::plan::run_plan;
use audit_graph::{AuditFault, Past, Plan, check_step};
use recorder::Runner;
use sessions::Session;
use std::alloc::Global;

/// Audits session `k` over the one before: its step, then its executed records, which are replayed. Answers how many
/// there are.
pub(crate) fn audit_session<R: Runner>(
    alloc: Global,
    runner: &mut R,
    prev: Option<&Session>,
    k: usize,
    session: &Session,
) -> Result<usize, AuditFault>
    ensures gives { IsTakenFrom (option_copied prev.entry) session.now
        → SessionGives R.queries (option_copied prev.entry) k session.now result }
    ensures sources { IfOk result
        (λ _. (session.now.number ≡ k) × HasSources (entry_at session.now)) }
    ensures log { LogGives (executed_keys session.now) (R.log runner.old) (R.log runner.new)
        result }
{
    let plan = match check_over::<R>(alloc, prev, k, session) {
        Ok(plan) => plan,
        Err(fault) => return Err(fault),
    };
    match run_plan(alloc, runner, k, session, plan.indices()) {
        Ok(()) => Ok(plan.indices().len()),
        Err(fault) => Err(fault),
    }
}

/// Checks session `k` over the one before, and answers which of its records are to be replayed.
fn check_over<R: Runner>(
    alloc: Global,
    prev: Option<&Session>,
    k: usize,
    session: &Session,
) -> Result<Plan, AuditFault>
    ensures gives { StepGives R.queries.by_profile (option_copied prev.entry) k session.now result }
    ensures sources { IfOk result
        (λ _. (session.now.number ≡ k) × HasSources (entry_at session.now)) }
    ensures plan { IfOk result (λ plan. plan ≡ executed_in session.now) }
{
    match prev {
        Some(prev) => match Past::of(alloc, prev) {
            Ok(past) => check_step::<R>(alloc, Some(&past), k, session),
            Err(_) => Err(AuditFault::OutOfMemory),
        },
        None => check_step::<R>(alloc, None, k, session),
    }
}

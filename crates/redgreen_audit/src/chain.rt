//! The audit of chains.
ghost use Rattle.std.specs.Prelude.{◌≡◌, List, [], map, OnOk, IfErr};
ghost use Rattle.std.specs.List.{AllByRecursion};
ghost use Rattle.redgreen_rules.specs.Programs.{Key, Prog};
ghost use Rattle.redgreen_rules.specs.Runs.{Run, IsRunOf, AreMade};
ghost use Rattle.redgreen_rules.specs.Sessions.{Passes, ArePassed, IsFresh, Agree, inputs_of, last_of, runs_of, runs_in};
ghost use Rattle.redgreen_sessions.specs.Views.{entries_of, session_of};
ghost use Rattle.redgreen_audit.specs.Answering.{AreAllInside};
ghost use Rattle.redgreen_audit.specs.Refusals.{StepFails, RefusedWithin, AuditRefuses};

use crate::checking::{Wrong, check};
use crate::client::{Client, Stop};
use crate::fault::Fault;
use crate::rerun::{Unlike, rerun_all};
use redgreen_sessions::{Record, Session};
use std::alloc::Global;

/// Audits a chain of sessions, whoever wrote it; before the first one there is the empty session. Only the runs of the
/// records marked as executed are made. If the chain is accepted, and each run that the client made is one of some program
/// for its key, then the last session has what fresh runs of these programs give over the session's inputs, and nothing
/// else.
pub fn audit<C: Client>(alloc: Global, client: &mut C, chain: &[Session]) -> Result<(), Fault>
    // Each session passes over the previous one.
    ensures passed { OnOk result (ArePassed [] (map session_of chain.now)) }
    // Just these runs were made, in this order.
    ensures made { OnOk result (AreMade C.makes client.old (runs_in (map session_of chain.now))
        client.new) }
    // So if each of these runs is one of some program for its key, each value of the last session is what a fresh run
    // gives over any inputs that agree with that session, and a fresh run gives no other.
    ensures fresh { OnOk result ((prog_of : Key → Prog)
        → AllByRecursion (IsRunOf prog_of) (runs_in (map session_of chain.now))
        → IsFresh prog_of (last_of (map session_of chain.now))) }
    // There are such inputs.
    ensures inputs { OnOk result (Agree (inputs_of (last_of (map session_of chain.now)))
        (last_of (map session_of chain.now))) }
    // Why it is refused: the first record with a fault, and it has that fault.
    ensures refused { IfErr result (AuditRefuses C.makes client.old client.new chain.now) }
{
    if chain.is_empty() {
        return Err(Fault::NoSession);
    }
    audit_all(alloc, client, chain)
}

/// Audits the sessions one after the other.
fn audit_all<C: Client>(alloc: Global, client: &mut C, chain: &[Session]) -> Result<(), Fault>
    ensures passed { OnOk result (ArePassed [] (map session_of chain.now)) }
    ensures made { OnOk result (AreMade C.makes client.old (runs_in (map session_of chain.now))
        client.new) }
    ensures refused { IfErr result (RefusedWithin C.makes client.old client.new chain.now) }
{
    let mut past: &[Record] = &[];
    for (k, session) in chain.iter().enumerate() {
        match step(alloc, client, past, k, session) {
            Ok(()) => {}
            Err(fault) => return Err(fault),
        }
        past = session.records.as_slice();
    }
    Ok(())
}

/// Audits one session over the previous one.
fn step<C: Client>(
    alloc: Global,
    client: &mut C,
    past: &[Record],
    k: usize,
    session: &Session,
) -> Result<(), Fault>
    ensures passes { OnOk result (Passes (entries_of past.now) [] (session_of session.now)) }
    ensures inside { OnOk result (AreAllInside session.now.records.items) }
    ensures made { OnOk result (AreMade C.makes client.old (runs_of (session_of session.now))
        client.new) }
    ensures refused { IfErr result (StepFails C.makes client.old client.new past.now k
        session.now.records.items) }
{
    match check(alloc, past, session.records.as_slice()) {
        Ok(()) => match rerun_all(alloc, client, session.records.as_slice()) {
            Ok(()) => Ok(()),
            Err((n, Unlike::Faulty(record_fault))) => Err(Fault::Wrong(k, n, record_fault)),
            Err((_, Unlike::Stops(Stop::OutOfMemory))) => Err(Fault::OutOfMemory),
            Err((_, Unlike::Stops(_))) => Err(Fault::Client),
        },
        Err(Wrong::Record(n, record_fault)) => Err(Fault::Wrong(k, n, record_fault)),
        Err(Wrong::OutOfMemory) => Err(Fault::OutOfMemory),
    }
}

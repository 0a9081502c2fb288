//! Laws of audits.
ghost use Rattle.std.specs.Prelude.{ℕ, List, []};
ghost use Rattle.redgreen_rules.specs.Programs.{Key, Prog};
ghost use Rattle.redgreen_sessions.specs.declared.record.Session.{Session};
ghost use Rattle.redgreen_audit.specs.declared.fault.Fault.TheVariants.{Wrong};
ghost use Rattle.redgreen_audit.specs.declared.fault.RecordFault.{RecordFault};
ghost use Rattle.redgreen_rules.specs.Sessions.{Passes, runs_of};
ghost use Rattle.redgreen_sessions.specs.declared.record.Record.{Record};
ghost use Rattle.redgreen_sessions.specs.Views.{entries_of};
ghost use Rattle.redgreen_audit.specs.Answering.{AreAllInside};
ghost use Rattle.redgreen_audit.specs.Checks.{HaveNew};
ghost use Rattle.redgreen_audit.specs.Refusals.{AuditRefuses};
ghost use Rattle.redgreen_audit.specs.Right.{RunsAlike, IsRightSession, IsRightChain, ArePlaced, AreWholeRuns};

use crate::client::Client;

/// A right chain has no fault: if each run that the client makes is that of its programs, the audit refuses such a chain
/// only because memory runs out or because the client breaks off.
pub fn right_chains_are_accepted<C: Client>()
    ensures { (prog_of : Key → Prog) (s t : C) (chain : List Session) (k n : ℕ) (record_fault : RecordFault)
        → RunsAlike prog_of C.makes → IsRightChain prog_of chain
        → AuditRefuses C.makes s t chain (Wrong k n record_fault) → ⊥ }
{}

/// A session that passes over a passed one, by runs of the programs, is right if its reads are places of earlier records
/// and each record with its old value names its place in the previous session. So an audit accepts what a build writes.
pub fn built_sessions_are_right()
    ensures { (prog_of : Key → Prog) (past now : List Record) → HaveNew [] past → AreAllInside past
        → Passes (entries_of past) [] (entries_of now) → ArePlaced past now
        → AreWholeRuns prog_of (runs_of (entries_of now)) → IsRightSession prog_of past now }
{}

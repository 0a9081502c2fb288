//! How an executed record differs from its run.
ghost use Rattle.std.specs.Prelude.{◌≡◌};
ghost use Rattle.audit_replay.specs.Reruns.{mismatch_fault};

use audit_graph::AuditFault;

/// How an executed record differs from its run, the first of these.
#[derive(Clone, Copy)]
pub enum Mismatch {
    /// The read at this place is of another key than the edge there, or there is no such edge.
    OtherRead(usize),
    /// Some edges aren't read.
    UnreadEdges,
    /// The result is different.
    OtherResult,
    /// Memory ran out.
    OutOfMemory,
}

/// The fault of session `k` whose executed record `n` differs from its run.
pub(crate) fn fault_of_run(k: usize, n: usize, why: Mismatch) -> AuditFault
    ensures { result ≡ mismatch_fault k n why }
{
    match why {
        Mismatch::OtherRead(i) => AuditFault::OtherRead(k, n, i),
        Mismatch::UnreadEdges => AuditFault::UnreadEdges(k, n),
        Mismatch::OtherResult => AuditFault::OtherResult(k, n),
        Mismatch::OutOfMemory => AuditFault::OutOfMemory,
    }
}

//! The file of a session, from a feed.
ghost use Rattle.std.specs.Prelude.{◌≡◌, ℕ, List, IfOk, IfErr};
ghost use Rattle.std.specs.Option.{option_copied};
ghost use Rattle.sessions.specs.Sessions.{IsSession, IsTakenFrom};
ghost use Rattle.sessions.specs.Spelling.{file_of};
ghost use Rattle.devices.specs.Devices.{CountsFailures};
ghost use Rattle.session_file.specs.Feeding.{Given};
ghost use Rattle.audit_replay.specs.Sums.{CountsTake, EndsFeed, ReadFails, file_fault};

use audit_graph::AuditFault;
use devices::{DeviceFault, Feed};
use session_file::{FileFault, read_from_after};
use sessions::Session;
use std::alloc::Global;

/// The session over the previous one whose file the feed holds, as file `k` of its chain. Nothing may follow the file.
pub(crate) fn read_file<F: Feed>(
    alloc: Global,
    past: Option<&Session>,
    k: usize,
    feed: &mut F,
) -> Result<Session, AuditFault>
    ensures session { IfOk result IsSession }
    ensures taken { IfOk result (IsTakenFrom (option_copied past.entry)) }
    ensures given { IfOk result (λ s. Given (F.holds feed.old) (F.holds feed.new) (file_of s)) }
    ensures whole { IfOk result (λ s. (bytes : List ℕ) → F.holds feed.old bytes
        → bytes ≡ file_of s) }
    ensures refused { IfErr result (λ fault. (bytes : List ℕ) → F.holds feed.old bytes
        → ReadFails (option_copied past.entry) k bytes fault) }
    ensures counted { CountsTake result (F.failed feed.old) (F.failed feed.new) }
{
    match read_from_after(alloc, past, feed) {
        Ok(session) => match is_at_end(feed) {
            Ok(true) => Ok(session),
            Ok(false) => Err(AuditFault::File(k, FileFault::Trailing)),
            Err(_) => Err(AuditFault::File(k, FileFault::Device)),
        },
        Err(fault) => Err(fault_of_file(k, fault)),
    }
}

/// The fault of file `k`.
fn fault_of_file(k: usize, fault: FileFault) -> AuditFault
    ensures { result ≡ file_fault k fault }
{
    match fault {
        FileFault::OutOfMemory => AuditFault::OutOfMemory,
        fault => AuditFault::File(k, fault),
    }
}

/// Whether the feed gives no more bytes.
fn is_at_end<F: Feed>(feed: &mut F) -> Result<bool, DeviceFault>
    ensures ends { EndsFeed (F.holds feed.old) (F.holds feed.new) result }
    ensures counted { CountsFailures result (F.failed feed.old) (F.failed feed.new) }
{
    let mut room = [0; 1];
    match feed.take(&mut room) {
        Ok(count) => Ok(count == 0),
        Err(fault) => Err(fault),
    }
}

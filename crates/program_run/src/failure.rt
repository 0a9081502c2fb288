//! Why a run ends before it has an answer.
ghost use Rattle.std.specs.Prelude.{◌≡◌};
ghost use Rattle.program_run.specs.Unread.{cache_failure};
ghost use Rattle.program_run.specs.declared.failure.Failure.TheVariants as failure;

use audit_graph::AuditFault;
use command_line::WordsFault;
use mini_java::DriveFault;
use mj_rules::ProjectFault;
use session_cache::CacheReadFault;
use session_file::FileFault;
use std::alloc::{AllocError, AllocFailed};

/// The first failure of a run.
#[derive(Drop)]
pub enum Failure {
    /// The command line is refused, or asks for help.
    Words(WordsFault),
    /// This file or folder can't be read.
    CannotRead(String),
    /// Behind these notes: this file or folder can't be written.
    CannotWrite(String, String),
    /// Standard error takes no line on a file that was taken.
    Untold,
    /// The session has no record of the key that these words name.
    NoRecord(String),
    /// There is no such code.
    UnknownCode(String),
    /// The files are no project.
    Project(ProjectFault),
    /// The files are no accepted chain of sessions.
    Chain(AuditFault),
    /// The file is that of no session.
    SessionFile(FileFault),
    /// Memory ran out.
    OutOfMemory,
}

impl From<WordsFault> for Failure {
    ghost from_gives = { λ fault e. e ≡ failure.Words fault };

    fn from(fault: WordsFault) -> Failure {
        Failure::Words(fault)
    }
}

impl From<ProjectFault> for Failure {
    ghost from_gives = { λ fault e. e ≡ failure.Project fault };

    fn from(fault: ProjectFault) -> Failure {
        Failure::Project(fault)
    }
}

impl From<AuditFault> for Failure {
    ghost from_gives = { λ fault e. e ≡ failure.Chain fault };

    fn from(fault: AuditFault) -> Failure {
        Failure::Chain(fault)
    }
}

impl From<FileFault> for Failure {
    ghost from_gives = { λ fault e. e ≡ failure.SessionFile fault };

    fn from(fault: FileFault) -> Failure {
        Failure::SessionFile(fault)
    }
}

impl From<CacheReadFault> for Failure {
    ghost from_gives = { λ fault e. e ≡ cache_failure fault };

    fn from(fault: CacheReadFault) -> Failure {
        match fault {
            CacheReadFault::CannotRead(path) => Failure::CannotRead(path),
            CacheReadFault::OutOfMemory => Failure::OutOfMemory,
        }
    }
}

/// A check has workers, and room for its session: it lacks nothing but memory.
impl From<DriveFault> for Failure {
    ghost from_gives = { λ _ e. e ≡ failure.OutOfMemory };

    fn from(_fault: DriveFault) -> Failure {
        Failure::OutOfMemory
    }
}

impl From<AllocError> for Failure {
    ghost from_gives = { λ _ e. e ≡ failure.OutOfMemory };

    fn from(_error: AllocError) -> Failure {
        Failure::OutOfMemory
    }
}

impl<T: Drop> From<AllocFailed<T>> for Failure {
    ghost from_gives = { λ _ e. e ≡ failure.OutOfMemory };

    fn from(_error: AllocFailed<T>) -> Failure {
        Failure::OutOfMemory
    }
}

//! What calls answer.

use fingerprint::Sealed;
use std::sync::Arc;
use thiserror::Error;

/// The answer to a worker that asks for a key.
#[derive(Drop)]
pub enum Asked {
    /// The key is now claimed by this worker.
    Yours,
    /// The key is done with this result.
    Done(Arc<Sealed>),
    /// A worker has claimed or runs the key.
    Busy,
    /// A worker failed.
    Stopped,
}

/// Why a call is refused. `usize` values are places in the key's list of previous edges, or in an outcome's list of
/// reads.
#[derive(Clone, Copy, Debug, PartialEq, Eq, Error)]
pub enum TableFault {
    /// The worker hasn't claimed the key, or doesn't run it.
    #[error("9.1 NotYours")]
    NotYours,
    /// The key's rank isn't below the ranks of all that the worker has claimed or runs.
    #[error("9.2 OutOfRank")]
    OutOfRank,
    /// This previous edge isn't done, and those before it are unchanged.
    #[error("9.3 EdgeOpen({0})")]
    EdgeOpen(usize),
    /// This previous edge is changed, and those before it are unchanged.
    #[error("9.4 EdgeChanged({0})")]
    EdgeChanged(usize),
    /// The previous session doesn't have the key.
    #[error("9.5 NotInPast")]
    NotInPast,
    /// All previous edges are unchanged.
    #[error("9.6 NothingChanged")]
    NothingChanged,
    /// The key of this read isn't done with the result that was read, while those of the reads before it are.
    #[error("9.7 StaleRead({0})")]
    StaleRead(usize),
    /// A worker failed.
    #[error("9.8 Failed")]
    Failed,
    /// The previous session has the key, but another profile, and the key goes by the profile.
    #[error("9.13 AcrossProfiles")]
    AcrossProfiles,
    /// The outcome is of another profile.
    #[error("9.14 OtherProfile")]
    OtherProfile,
    /// Memory ran out.
    #[error("out of memory")]
    OutOfMemory,
}

/// Why a table isn't opened.
#[derive(Clone, Copy, Debug, PartialEq, Eq, Error)]
pub enum OpenFault {
    /// The previous session has the number 9,999, so none can follow it.
    #[error("9.11 ChainFull")]
    ChainFull,
    /// Memory ran out.
    #[error("out of memory")]
    OutOfMemory,
}

/// Why a table isn't closed.
#[derive(Clone, Copy, Debug, PartialEq, Eq, Error)]
pub enum CloseFault {
    /// A worker failed.
    #[error("9.8 Failed")]
    Failed,
    /// A key is claimed or running.
    #[error("9.10 StillRunning")]
    StillRunning,
    /// Answer isn't done.
    #[error("9.9 NoAnswer")]
    NoAnswer,
    /// Memory ran out.
    #[error("out of memory")]
    OutOfMemory,
}

/// Why an event can't be replayed.
#[derive(Clone, Copy)]
pub(crate) enum StepFault {
    /// It is no step.
    NoStep,
    /// Memory ran out.
    OutOfMemory,
}

/// Why events can't be replayed.
#[derive(Clone, Copy, Debug, PartialEq, Eq, Error)]
pub enum ReplayFault {
    /// The previous session has the number 9,999, so none can follow it.
    #[error("9.11 ChainFull")]
    ChainFull,
    /// This event is the first that is no step.
    #[error("9.12 Illegal({0})")]
    Illegal(usize),
    /// Memory ran out.
    #[error("out of memory")]
    OutOfMemory,
}

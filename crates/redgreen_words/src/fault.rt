//! Why a message isn't read or written.
ghost use Rattle.std.specs.Prelude.{◌≡◌};
ghost use Rattle.redgreen_words.specs.declared.fault.ReadFault.TheVariants as reads;
ghost use Rattle.redgreen_words.specs.declared.fault.WriteFault.TheVariants as writes;

use std::alloc::{AllocError, AllocFailed};
use thiserror::Error;

/// Why a line begins no message. Its items are what is between its spaces, and the word is item 0.
#[derive(Clone, Copy, Debug, PartialEq, Eq, Error)]
pub enum LineFault {
    /// Its first item is no word that this side says.
    #[error("the line begins with no word of this side")]
    UnknownWord,
    /// This item isn't a number below 2^64 in decimal, without a sign or a leading zero.
    #[error("item {0} of the line is no number")]
    NotANumber(usize),
    /// This many numbers come after the word, and no message of the word has so many.
    #[error("no message of this word has {0} numbers")]
    WrongCount(usize),
}

/// Why no message was read. Nothing is known then of what the feed still holds.
#[derive(Clone, Copy, Debug, PartialEq, Eq, Error)]
pub enum ReadFault {
    /// There are no more bytes.
    #[error("there are no more messages")]
    Ended,
    /// The bytes end within a line.
    #[error("the bytes end within a line")]
    CutLine,
    /// The line is too long.
    #[error("a line has 1048576 bytes or more")]
    LongLine,
    /// The line begins no message.
    #[error("{0}")]
    Line(LineFault),
    /// The bytes end within the byte string of this index.
    #[error("the bytes end within byte string {0}")]
    CutString(usize),
    /// The device failed.
    #[error("the device failed")]
    Device,
    /// Memory ran out.
    #[error("out of memory")]
    OutOfMemory,
}

impl From<AllocError> for ReadFault {
    ghost from_gives = { λ _ e. e ≡ reads.OutOfMemory };

    fn from(_error: AllocError) -> ReadFault {
        ReadFault::OutOfMemory
    }
}

impl<T: Drop> From<AllocFailed<T>> for ReadFault {
    ghost from_gives = { λ _ e. e ≡ reads.OutOfMemory };

    fn from(_error: AllocFailed<T>) -> ReadFault {
        ReadFault::OutOfMemory
    }
}

/// Why a message wasn't written, or not whole.
#[derive(Clone, Copy, Debug, PartialEq, Eq, Error)]
pub enum WriteFault {
    /// Its line would be too long. Nothing was written.
    #[error("the line would have 1048576 bytes or more")]
    LongLine,
    /// The device failed. A beginning of the message was written.
    #[error("the device failed")]
    Device,
    /// Memory ran out. Nothing was written.
    #[error("out of memory")]
    OutOfMemory,
}

impl From<AllocError> for WriteFault {
    ghost from_gives = { λ _ e. e ≡ writes.OutOfMemory };

    fn from(_error: AllocError) -> WriteFault {
        WriteFault::OutOfMemory
    }
}

impl<T: Drop> From<AllocFailed<T>> for WriteFault {
    ghost from_gives = { λ _ e. e ≡ writes.OutOfMemory };

    fn from(_error: AllocFailed<T>) -> WriteFault {
        WriteFault::OutOfMemory
    }
}

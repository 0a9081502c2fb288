//! Why tokens are no file.
ghost use Rattle.std.specs.Prelude.{◌≡◌, ◌↔◌, ◌+◌, ◌<◌, ◌^◌, ℕ};

use std::alloc::{AllocError, AllocFailed};
use thiserror::Error;

/// Why tokens are no file.
#[derive(Clone, Copy, Debug, PartialEq, Eq, Error)]
pub enum ParseFault {
    /// The least number k such that no file begins with tokens 0 to k; the number of tokens if a file begins with
    /// all of them.
    #[error("no file begins with the tokens up to token {0}")]
    NotAFile(usize),
    /// A phrase has a level over 500.
    #[error("a phrase has a level over 500")]
    TooDeep,
    /// An allocation was refused.
    #[error("out of memory")]
    OutOfMemory,
}

impl ParseFault {
    /// The same error, whose place was counted from a later token.
    pub fn behind(self, start: usize) -> Self
        ensures memory { (result ≡ ParseFault.OutOfMemory) ↔ (self ≡ ParseFault.OutOfMemory) }
        ensures deep { (result ≡ ParseFault.TooDeep) ↔ (self ≡ ParseFault.TooDeep) }
        ensures moved { (at : ℕ) → self ≡ ParseFault.NotAFile at → at + start < 2 ^ 64
            → result ≡ ParseFault.NotAFile (at + start) }
    {
        match self {
            ParseFault::NotAFile(at) => ParseFault::NotAFile(at.saturating_add(start)),
            other => other,
        }
    }
}

impl From<AllocError> for ParseFault {
    ghost use Rattle.mj_expressions.specs.declared.fault.ParseFault.TheVariants.{OutOfMemory};

    ghost from_gives = { λ _ e. e ≡ OutOfMemory };

    fn from(_: AllocError) -> Self {
        ParseFault::OutOfMemory
    }
}

impl<T: Drop> From<AllocFailed<T>> for ParseFault {
    ghost use Rattle.mj_expressions.specs.declared.fault.ParseFault.TheVariants.{OutOfMemory};

    ghost from_gives = { λ _ e. e ≡ OutOfMemory };

    fn from(_: AllocFailed<T>) -> Self {
        ParseFault::OutOfMemory
    }
}

//! Why bytes are no files.
ghost use Rattle.std.specs.Prelude.{◌≡◌, IfOk, string_bytes};
ghost use Rattle.packed_files.specs.FlawWords.{flaw_line, flaw_words};
ghost use Rattle.packed_files.specs.declared.flaws.UnpackFault.TheVariants.{OutOfMemory};

use std::alloc::{AllocError, AllocFailed, Global};

/// What of a file is cut off, or isn't allowed.
#[derive(Clone, Copy, Debug, PartialEq, Eq)]
pub enum Flaw {
    /// Fewer than eight bytes are left for the length of its name.
    NameLength,
    /// Fewer bytes are left than its name has.
    Name,
    /// Its name isn't UTF-8.
    NotText,
    /// Fewer than eight bytes are left for its length.
    Length,
    /// Fewer bytes are left than it has.
    Bytes,
}

impl Flaw {
    /// What is said of it, behind the number of the file.
    pub fn words(self) -> &'static str
        ensures { result.now ≡ flaw_words self }
    {
        match self {
            Flaw::NameLength => "the length of its name is cut off",
            Flaw::Name => "its name is cut off",
            Flaw::NotText => "its name isn't UTF-8",
            Flaw::Length => "its length is cut off",
            Flaw::Bytes => "its bytes are cut off",
        }
    }
}

/// Why no files were unpacked.
#[derive(Clone, Copy, Debug, PartialEq, Eq)]
pub enum UnpackFault {
    /// The file with this number, counted from 0, is the first one that has a flaw.
    Flawed(usize, Flaw),
    /// Memory ran out.
    OutOfMemory,
}

impl From<AllocError> for UnpackFault {
    ghost from_gives = { λ _ e. e ≡ OutOfMemory };

    fn from(_error: AllocError) -> UnpackFault {
        UnpackFault::OutOfMemory
    }
}

impl<T: Drop> From<AllocFailed<T>> for UnpackFault {
    ghost from_gives = { λ _ e. e ≡ OutOfMemory };

    fn from(_error: AllocFailed<T>) -> UnpackFault {
        UnpackFault::OutOfMemory
    }
}

/// The line on the flaw of the file with this number.
pub fn flaw_text(alloc: Global, number: usize, flaw: Flaw) -> Result<String, AllocError>
    ensures { IfOk result (λ text. string_bytes text ≡ flaw_line number flaw) }
{
    let words = flaw.words();
    format!(in alloc; "refused: file {number}: {words}\n")
}

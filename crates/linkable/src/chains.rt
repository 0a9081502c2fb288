//! The files of a chain of sessions.
ghost use Rattle.std.specs.Prelude.{◌≡◌, IfOk, IfErr, map, string_bytes};
ghost use Rattle.packed_files.specs.Runs.{packed_runs};
ghost use Rattle.linkable.specs.Chains.{AreNoChain, file_line};
ghost use Rattle.linkable.specs.Stopping.{Says};

use crate::stopping::Stop;
use packed_files::{UnpackFault, unpack_runs};
use std::alloc::{AllocError, Global};

/// The files that these bytes are, each behind its length.
pub(crate) fn files_in<'a>(alloc: Global, bytes: &'a [u8]) -> Result<Vec<&'a [u8]>, Stop>
    ensures packed { IfOk result (λ files.
        packed_runs (map (λ f. f.now) files.items) ≡ bytes.now) }
    ensures refused { IfErr result (Says (AreNoChain bytes.now)) }
{
    match unpack_runs(alloc, bytes) {
        Ok(files) => Ok(files),
        Err(UnpackFault::Flawed(number, flaw)) => {
            Err(Stop::Refused(file_text(alloc, number, flaw.words())?))
        }
        Err(UnpackFault::OutOfMemory) => Err(Stop::OutOfMemory),
    }
}

/// What is said of the file of this number, counted from 0.
pub(crate) fn file_text(alloc: Global, number: usize, words: &str) -> Result<String, AllocError>
    ensures { IfOk result (λ text. string_bytes text ≡ file_line number words.now) }
{
    format!(in alloc; "refused: session file {number}: {words}\n")
}

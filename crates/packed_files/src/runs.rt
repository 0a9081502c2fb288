//! Unpacking runs of bytes that have no names.
ghost use Rattle.std.specs.Prelude.{◌≡◌, ◌≢◌, List, ℕ, IfOk, IfErr, MatchResult, length, map};
ghost use Rattle.std.specs.List.{AllByRecursion};
ghost use Rattle.packed_files.specs.Runs.{IsRunRefusedAt, IsShort, RefusesRuns, UnpacksRun, packed_runs};
ghost use Rattle.packed_files.specs.declared.flaws.UnpackFault.TheVariants.{OutOfMemory};

use crate::flaws::{Flaw, UnpackFault};
use crate::unpacking::split_run;
use std::alloc::Global;

/// The runs that these bytes are, packed one behind the other, each behind its length. They aren't copied.
pub fn unpack_runs<'a>(alloc: Global, bytes: &'a [u8]) -> Result<Vec<&'a [u8]>, UnpackFault>
    ensures packed { IfOk result (λ runs. packed_runs (map (λ r. r.now) runs.items) ≡ bytes.now) }
    ensures flawed { IfErr result (λ fault. fault ≢ OutOfMemory → RefusesRuns bytes.now fault) }
    // What was packed is unpacked.
    ensures again { (runs : List (List ℕ)) → AllByRecursion IsShort runs
        → packed_runs runs ≡ bytes.now
        → MatchResult result (λ made. map (λ r. r.now) made.items ≡ runs)
        (λ fault. fault ≡ OutOfMemory) }
{
    let mut runs = Vec::new(alloc);
    let mut rest = bytes;
    while !rest.is_empty() {
        rest = unpack_run(rest, &mut runs)?;
    }
    Ok(runs)
}

// Adds the first run of these bytes, and gives what is left behind it.
fn unpack_run<'a>(bytes: &'a [u8], runs: &mut Vec<&'a [u8]>) -> Result<&'a [u8], UnpackFault>
    ensures added { IfOk result (λ rest. UnpacksRun bytes.now rest.now
        (map (λ r. r.now) runs.old.items) (map (λ r. r.now) runs.new.items)) }
    ensures refused { IfErr result (IsRunRefusedAt bytes.now (length runs.old.items)) }
{
    let number = runs.len();
    match split_run(bytes, Flaw::Length, Flaw::Bytes) {
        Ok((text, rest)) => {
            runs.push(text)?;
            Ok(rest)
        }
        Err(flaw) => Err(UnpackFault::Flawed(number, flaw)),
    }
}

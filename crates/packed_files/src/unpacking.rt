//! Unpacking files.
ghost use Rattle.std.specs.Prelude.{◌≡◌, ◌≢◌, List, Ok, Err, IfOk, IfErr, MatchResult, length};
ghost use Rattle.std.specs.List.{AllByRecursion};
ghost use Rattle.named_files.specs.Projects.{SourceFile, sources_view};
ghost use Rattle.packed_files.specs.Packing.{IsPackable, packed};
ghost use Rattle.packed_files.specs.Unpacking.{Refuses, UnpacksOne, IsRefusedAt, file_at, run_at, source_file};
ghost use Rattle.packed_files.specs.declared.flaws.UnpackFault.TheVariants.{OutOfMemory};

use crate::flaws::{Flaw, UnpackFault};
use byte_readers::as_text;
use byteorder::{BigEndian, ByteOrder};
use std::alloc::Global;

/// The files that these bytes are, packed one behind the other.
pub fn unpack(alloc: Global, bytes: &[u8]) -> Result<Vec<(String, Vec<u8>)>, UnpackFault>
    ensures packed { IfOk result (λ files. packed (sources_view files.items) ≡ bytes.now) }
    // Each has a name that is a text.
    ensures packable { IfOk result (λ files. AllByRecursion IsPackable (sources_view files.items)) }
    ensures flawed { IfErr result (λ fault. fault ≢ OutOfMemory → Refuses bytes.now fault) }
    // What was packed is unpacked.
    ensures again { (files : List SourceFile) → AllByRecursion IsPackable files
        → packed files ≡ bytes.now
        → MatchResult result (λ made. sources_view made.items ≡ files)
        (λ fault. fault ≡ OutOfMemory) }
{
    let mut files = Vec::new(alloc);
    let mut rest = bytes;
    while !rest.is_empty() {
        rest = unpack_one(alloc, rest, &mut files)?;
    }
    Ok(files)
}

// Adds the first file of these bytes, and gives what is left behind it.
fn unpack_one<'a>(
    alloc: Global,
    bytes: &'a [u8],
    files: &mut Vec<(String, Vec<u8>)>,
) -> Result<&'a [u8], UnpackFault>
    ensures added { IfOk result (λ rest. UnpacksOne bytes.now rest.now
        (sources_view files.old.items) (sources_view files.new.items)) }
    ensures refused { IfErr result (IsRefusedAt bytes.now (length files.old.items)) }
{
    let number = files.len();
    match split_file(bytes) {
        Ok((name, text, rest)) => {
            files.push((
                String::from_str(alloc, name)?,
                Vec::from_slice(alloc, text)?,
            ))?;
            Ok(rest)
        }
        Err(flaw) => Err(UnpackFault::Flawed(number, flaw)),
    }
}

// The name and the bytes of the first file of these bytes, and what is left behind it.
#[tactic(auto, unfolding(crate::specs::Unpacking::file_at))]
fn split_file(bytes: &[u8]) -> Result<(&str, &[u8], &[u8]), Flaw>
    ensures { MatchResult result
        (λ cut. file_at bytes.now ≡ Ok (source_file cut.0.now cut.1.now, cut.2.now))
        (λ flaw. file_at bytes.now ≡ Err flaw) }
{
    let (name, behind) = split_run(bytes, Flaw::NameLength, Flaw::Name)?;
    let Some(name) = as_text(name) else {
        return Err(Flaw::NotText);
    };
    let (text, rest) = split_run(behind, Flaw::Length, Flaw::Bytes)?;
    Ok((name, text, rest))
}

// The bytes behind their length, and what is left behind them; else the flaw if the length is cut off, or the bytes.
#[tactic(auto, unfolding(crate::specs::Unpacking::run_at, byte_readers::specs::Reading::eight_at), using(byte_readers::proofs::Numbers::eight_of))]
pub(crate) fn split_run(bytes: &[u8], length_cut: Flaw, cut: Flaw) -> Result<(&[u8], &[u8]), Flaw>
    ensures { MatchResult result
        (λ run. run_at length_cut cut bytes.now ≡ Ok (run.0.now, run.1.now))
        (λ flaw. run_at length_cut cut bytes.now ≡ Err flaw) }
{
    if bytes.len() < 8 {
        return Err(length_cut);
    }
    let count = BigEndian::read_u64(bytes);
    let rest = &bytes[8..];
    if (rest.len() as u64) < count {
        return Err(cut);
    }
    Ok(rest.split_at(count as usize))
}

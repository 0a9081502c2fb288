//! The files that the arguments name.
ghost use Rattle.std.specs.Prelude.{◌≡◌, ◌≢◌, IfOk, IfErr, map, string_bytes};
ghost use Rattle.std.specs.IoError.{error_kind};
ghost use Rattle.session_cache.specs.Opened.{AreRead, IsRead};
ghost use Rattle.program_run.specs.Unread.{AreUnread, IsUnreadFile};
ghost use Rattle.program_run.specs.declared.failure.Failure.TheVariants as failures;

use crate::failure::Failure;
use session_cache::read_whole;
use std::io;
use std::io::ErrorKind;
use std::rt::Files;

/// The files with their bytes, in the order given.
#[tactic(auto, using(crate::proofs::Sources::read_more))]
pub(crate) fn read_files<R: Files + AllocGlobal>(
    rt: &R,
    names: Vec<String>,
) -> Result<Vec<(String, Vec<u8>)>, Failure>
    ensures named { IfOk result (λ files.
        map (λ file. string_bytes file.0) files.items ≡ map string_bytes names.items) }
    ensures read { IfOk result (λ files.
        AreRead R.File.Read.remaining (map (λ file. file.1.items) files.items)) }
    ensures failed { IfErr result (AreUnread (map string_bytes names.items)) }
{
    let mut files = Vec::new(rt.alloc());
    for name in names {
        files.push(read_file(rt, name)?)?;
    }
    Ok(files)
}

/// The file of this name with its bytes.
pub(crate) fn read_file<R: Files + AllocGlobal>(
    rt: &R,
    name: String,
) -> Result<(String, Vec<u8>), Failure>
    ensures named { IfOk result (λ file. string_bytes file.0 ≡ string_bytes name) }
    ensures read { IfOk result (λ file. IsRead R.File.Read.remaining file.1.items) }
    ensures failed { IfErr result (IsUnreadFile (string_bytes name)) }
{
    match read_whole(rt, name.as_str()) {
        Ok(bytes) => Ok((name, bytes)),
        Err(error) => Err(failure_to_read(&error, name)),
    }
}

/// The failure of a run that can't open or read the file of this name.
pub(crate) fn failure_to_read(error: &io::Error, name: String) -> Failure
    ensures memory { error_kind error.now ≡ ErrorKind.OutOfMemory
        → result ≡ failures.OutOfMemory }
    ensures other { error_kind error.now ≢ ErrorKind.OutOfMemory
        → result ≡ failures.CannotRead name }
{
    if error.kind() == ErrorKind::OutOfMemory {
        return Failure::OutOfMemory;
    }
    Failure::CannotRead(name)
}

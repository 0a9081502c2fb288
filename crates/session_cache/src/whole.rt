//! Reading whole files.
ghost use Rattle.std.specs.Prelude.{IfOk};
ghost use Rattle.session_cache.specs.Opened.{IsAllOf, IsRead};

use std::alloc::Global;
use std::io::Read;
use std::rt::Files;
use std::{fs, io};

/// All bytes of the file of this path.
pub fn read_whole<R: Files + AllocGlobal>(rt: &R, path: &str) -> io::Result<Vec<u8>>
    ensures { IfOk result (λ bytes. IsRead R.File.Read.remaining bytes.items) }
{
    match fs::File::open(rt, path) {
        Ok(file) => read_opened(rt.alloc(), file),
        Err(error) => Err(error),
    }
}

/// All bytes that an opened file holds.
fn read_opened<F: Read + Drop>(alloc: Global, file: F) -> io::Result<Vec<u8>>
    ensures { IfOk result (λ bytes. IsAllOf F.remaining file bytes.items) }
{
    let mut file = file;
    let mut bytes = Vec::new(alloc);
    match file.read_to_end(&mut bytes) {
        Ok(_) => Ok(bytes),
        Err(error) => Err(error),
    }
}

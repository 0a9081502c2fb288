//! Does one thing again and again, for the scripts of `bench/`: its arguments are what is done, how often, and a file with
//! the canonical bytes of a tree or with those of a session's file. It ends with status 2 if arguments or bytes are no good.
#![tactic(auto)]

use devices::MemorySink;
use fingerprint::seal;
use item_ids::Kind;
use result_bytes::{Value, decode, encode};
use session_file::write;
use sessions::Session;
use std::alloc::Global;
use std::io::ErrorKind;
use std::process::ExitCode;
use std::rt::{Env, Files};
use std::{env, fs, io};

fn main(rt: HostRuntime) -> ExitCode {
    match repeat(&rt) {
        Ok(()) => ExitCode::from(0),
        Err(_) => ExitCode::from(2),
    }
}

fn invalid() -> io::Error {
    io::Error::from(ErrorKind::InvalidInput)
}

fn repeat(rt: &HostRuntime) -> io::Result<()> {
    let mut words = Vec::new(rt.alloc());
    for word in env::args(rt)? {
        words.push(word)?;
    }
    let [_, step, count, file] = words.as_slice() else {
        return Err(invalid());
    };
    let Ok(count) = count.parse::<u32>() else {
        return Err(invalid());
    };
    repeat_step(rt, step.as_str(), count, file.as_str())
}

/// Does a step with a file's bytes so many times.
fn repeat_step<R: Files + AllocGlobal>(
    rt: &R,
    step: &str,
    count: u32,
    file: &str,
) -> io::Result<()> {
    let bytes = fs::read(rt, file)?;
    for _ in 0..count {
        once(rt.alloc(), step, bytes.as_slice())?;
    }
    Ok(())
}

fn once(alloc: Global, step: &str, bytes: &[u8]) -> io::Result<()> {
    match step {
        "read-session" => {
            read_session(alloc, bytes)?;
            Ok(())
        }
        "write-session" => write_session(alloc, &read_session(alloc, bytes)?),
        _ => tree_once(alloc, step, bytes),
    }
}

fn read_session(alloc: Global, bytes: &[u8]) -> io::Result<Session> {
    match session_file::read(alloc, bytes) {
        Ok(session) => Ok(session),
        Err(_) => Err(invalid()),
    }
}

/// The session's file is written into memory.
fn write_session(alloc: Global, session: &Session) -> io::Result<()> {
    let mut sink = MemorySink::new(alloc);
    match write(session, &mut sink) {
        Ok(()) => Ok(()),
        Err(_) => Err(invalid()),
    }
}

/// The bytes are read; then their value is spelled or sealed if the step says so.
fn tree_once(alloc: Global, step: &str, bytes: &[u8]) -> io::Result<()> {
    let value = read(alloc, bytes)?;
    match step {
        "decode" => Ok(()),
        "encode" => {
            encode(alloc, &value)?;
            Ok(())
        }
        "seal" => {
            seal(alloc, value)?;
            Ok(())
        }
        _ => Err(invalid()),
    }
}

fn read(alloc: Global, bytes: &[u8]) -> io::Result<Value> {
    match decode(alloc, Kind::Tree, bytes) {
        Ok(value) => Ok(value),
        Err(_) => Err(invalid()),
    }
}

//! The program `mjrg`.
#![tactic(auto)]

use program_run::{no_words, run};
use std::process::ExitCode;
use std::rt::Env;
use std::{env, io};

fn main(rt: HostRuntime) -> ExitCode {
    let mut out = rt.stdout();
    let mut err = rt.stderr();
    let status = match command_words(&rt) {
        Ok(list) => run(&rt, &rt, list, &mut out, &mut err),
        Err(error) => no_words(&error, &mut err).number(),
    };
    ExitCode::from(status)
}

// The arguments of the command line. They are pushed one by one, since `collect` goes on if its first allocation is
// refused.
fn command_words<R: Env + AllocGlobal>(rt: &R) -> io::Result<Vec<String>> {
    let mut list = Vec::new(rt.alloc());
    for word in env::args(rt)? {
        list.push(word)?;
    }
    Ok(list)
}

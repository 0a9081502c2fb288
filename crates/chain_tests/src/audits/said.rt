//! What an audit says of files.

use crate::audits::files::{Turned, file_behind, file_of_first};
use answer_fixtures::{KeyParts, is_key, sealed_of};
use audit_graph::AuditFault;
use audit_replay::{Audited, audit};
use item_ids::{Key, Kind};
use run_fixtures::SampleRunner;
use sessions::Terms;
use std::alloc::Global;

/// What an audit says: how many sessions there are and records were run, or its refusal.
#[derive(Clone, Copy, PartialEq, Eq)]
pub(crate) enum Said {
    Accepted(usize, u128),
    Refused(AuditFault),
    Unfit,
}

/// What is said of no file.
pub(crate) fn said_of_none(alloc: Global) -> Said {
    said_of(alloc, &[])
}

/// What is said of the file of the first session of a chain.
pub(crate) fn said_of_one(alloc: Global, first: &Turned) -> Said {
    match file_of_first(alloc, first) {
        Ok(file) => said_of(alloc, &[file.bytes()]),
        Err(_) => Said::Unfit,
    }
}

/// What is said of the files of two sessions, the second behind the first.
pub(crate) fn said_of_two(alloc: Global, first: &Turned, second: &Turned) -> Said {
    said_of_two_as(alloc, Terms::first(), first, second)
}

/// The same, if the second has these terms.
pub(crate) fn said_of_two_as(alloc: Global, terms: Terms, first: &Turned, second: &Turned) -> Said {
    match file_behind(alloc, terms, first, second) {
        Ok(file) => said_with(alloc, first, file.bytes()),
        Err(_) => Said::Unfit,
    }
}

/// What is said of the file of a second session alone.
pub(crate) fn said_of_second(alloc: Global, first: &Turned, second: &Turned) -> Said {
    match file_behind(alloc, Terms::first(), first, second) {
        Ok(file) => said_of(alloc, &[file.bytes()]),
        Err(_) => Said::Unfit,
    }
}

fn said_with(alloc: Global, first: &Turned, second: &[u8]) -> Said {
    match file_of_first(alloc, first) {
        Ok(file) => said_of(alloc, &[file.bytes(), second]),
        Err(_) => Said::Unfit,
    }
}

fn said_of(alloc: Global, files: &[&[u8]]) -> Said {
    let mut runner = SampleRunner::new(alloc);
    told(audit(alloc, &mut runner, files))
}

/// What an audit says.
pub(crate) fn told(audited: Result<Audited, AuditFault>) -> Said {
    match audited {
        Ok(audited) => accepted(audited),
        Err(fault) => Said::Refused(fault),
    }
}

fn accepted(audited: Audited) -> Said {
    Said::Accepted(audited.sessions, audited.runs)
}

/// Whether the file of the first session of a chain is accepted with this answer, and just these keys were run.
pub(crate) fn is_accepted_with(
    alloc: Global,
    first: &Turned,
    digits: &str,
    runs: &[KeyParts<'static>],
) -> bool {
    match file_of_first(alloc, first) {
        Ok(file) => is_file_accepted(alloc, file.bytes(), digits, runs),
        Err(_) => false,
    }
}

fn is_file_accepted(alloc: Global, file: &[u8], digits: &str, runs: &[KeyParts<'static>]) -> bool {
    let mut runner = SampleRunner::new(alloc);
    let is_told = is_answer(alloc, audit(alloc, &mut runner, &[file]), digits);
    is_told && are_keys(runner.log(), runs)
}

fn is_answer(alloc: Global, audited: Result<Audited, AuditFault>, digits: &str) -> bool {
    match audited {
        Ok(audited) => has_answer(alloc, &audited, digits),
        Err(_) => false,
    }
}

fn has_answer(alloc: Global, audited: &Audited, digits: &str) -> bool {
    match sealed_of(alloc, Kind::Answer, digits) {
        Ok(want) => audited.answer.same_result(&want),
        Err(_) => false,
    }
}

fn are_keys(keys: &[Key], want: &[KeyParts<'static>]) -> bool {
    if keys.len() != want.len() {
        return false;
    }
    for (i, key) in keys.iter().enumerate() {
        if !is_key(key, want[i]) {
            return false;
        }
    }
    true
}

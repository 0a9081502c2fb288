//! Chains of sessions by what changed: their files, and the keys that an audit of them runs.
ghost use Rattle.std.specs.Prelude.{◌≡◌, [], ◌∷◌, ◌++◌, map, Some, IfOk, IfSome, OnOk};
ghost use Rattle.sessions.specs.Sessions.{SessionValue, session_in};
ghost use Rattle.sessions.specs.Spelling.{file_of};
ghost use Rattle.audit_fixtures.specs.Chains.{runs_told, AreFilesOf};

use answer_fixtures::{Unfit, is_key};
use devices::MemorySink;
use item_ids::Key;
use session_fixtures::{Kept, file_of_session};
use sessions::Session;
use std::alloc::{AllocError, AllocFailed, Global};
use std::sync::Arc;
use table_fixtures::{Change, past_behind};

/// How many records are executed in all sessions. None if that is past the numbers that there are.
pub(crate) fn runs_of(chain: &[Change]) -> Option<usize>
    ensures { IfSome result (λ n. n ≡ runs_told chain.now) }
{
    let mut runs = 0usize;
    for change in chain {
        runs = runs.checked_add(change.executed.len())?;
    }
    Some(runs)
}

/// The record that is executed at this place of all.
fn run_at(chain: &[Change], at: usize) -> Option<&Kept> {
    let mut left = at;
    for change in chain {
        match change.executed.get(left) {
            Some(index) => return change.records.get(*index),
            None => left = left.saturating_sub(change.executed.len()),
        }
    }
    None
}

/// Whether the key is that of the record that is executed at this place of all.
fn is_run(chain: &[Change], at: usize, key: &Key) -> bool {
    match run_at(chain, at) {
        Some(kept) => is_key(key, kept.key),
        None => false,
    }
}

/// Whether the log of a runner is a beginning of all executed records' keys.
pub(crate) fn begins(chain: &[Change], log: &[Key]) -> bool {
    for (at, key) in log.iter().enumerate() {
        if !is_run(chain, at, key) {
            return false;
        }
    }
    true
}

/// Whether the log of a runner has a beginning of all executed records' keys, and behind it all of them, which are so many.
pub(crate) fn ends(chain: &[Change], log: &[Key], runs: usize) -> bool {
    match log.len().checked_sub(runs) {
        Some(before) => begins(chain, &log[..before]) && begins(chain, &log[before..]),
        None => false,
    }
}

fn push(files: &mut Vec<MemorySink>, file: MemorySink) -> Result<(), AllocError>
    ensures { OnOk result (files.new.items ≡ files.old.items ++ file ∷ []) }
{
    Ok(files.push(file)?)
}

/// Adds the file of the session.
fn add(
    alloc: Global,
    files: &mut Vec<MemorySink>,
    session: &Option<Arc<Session>>,
) -> Result<(), Unfit>
    ensures { OnOk result ((s : SessionValue) × (session_in session.now ≡ Some s)
        × (map (λ f. f.bytes.items) files.new.items
        ≡ map (λ f. f.bytes.items) files.old.items ++ file_of s ∷ [])) }
{
    match session {
        Some(session) => Ok(push(files, file_of_session(alloc, session)?)?),
        None => Err(Unfit),
    }
}

/// The files of the sessions.
pub(crate) fn files_of(alloc: Global, chain: &[Change]) -> Result<Vec<MemorySink>, Unfit>
    ensures { IfOk result (λ files. AreFilesOf chain.now (map (λ f. f.bytes.items) files.items)) }
{
    let mut files = Vec::new(alloc);
    let mut last = None;
    for change in chain {
        last = past_behind(alloc, &last, change)?;
        add(alloc, &mut files, &last)?;
    }
    Ok(files)
}

/// The bytes of the files.
pub(crate) fn slices(alloc: Global, files: &[MemorySink]) -> Result<Vec<&[u8]>, Unfit>
    ensures { IfOk result (λ all. map (λ f. f.now) all.items ≡ map (λ f. f.bytes.items) files.now) }
{
    let mut all = Vec::new(alloc);
    for file in files {
        add_slice(&mut all, file.bytes())?;
    }
    Ok(all)
}

fn add_slice<'a>(all: &mut Vec<&'a [u8]>, file: &'a [u8]) -> Result<(), AllocError>
    ensures { OnOk result (all.new.items ≡ all.old.items ++ file.entry ∷ []) }
{
    Ok(all.push(file)?)
}

//! Results of a file in memory, opened by several threads ahead of its reading.
ghost use Rattle.std.specs.Prelude.{◌≤◌, length};

use crate::reading::files::terms_of_start;
use crate::reading::places::{Place, next_place};
use crate::reading::results::open;
use fingerprint::Sealed;
use sessions::Form;
use std::alloc::{AllocError, Global};
use std::sync::Arc;
use std::thread::{Threads, map_indices};

/// How many bytes stand before the records.
const HEAD: usize = 50;

/// The results of the file's records, in order, opened by so many threads. One that isn't right, or isn't there, is missing,
/// and all are behind the first bytes that are no record's. Nobody has to trust them: who reads the file compares them with
/// what it says.
pub(crate) fn opened_by<T: Threads + Sync>(
    threads: &T,
    alloc: Global,
    bytes: &[u8],
    workers: usize,
) -> Result<Vec<Option<Arc<Sealed>>>, AllocError> {
    let mut all = Vec::new(alloc);
    if let Some((form, records)) = records_of(bytes) {
        let part = |i: usize| opened_in_part(alloc, form, records, i, workers);
        for part in map_indices(threads, alloc, workers, &part)? {
            let mut opened = part?;
            all.append(&mut opened)?;
        }
    }
    Ok(all)
}

/// The form of a file, and what follows its head; nothing if it begins as no file does.
fn records_of(bytes: &[u8]) -> Option<(Form, &[u8])> {
    let terms = terms_of_start(bytes.first_chunk::<6>()?)?;
    let (_, records) = bytes.split_at_checked(HEAD)?;
    Some((terms.form, records))
}

/// The results of those records that begin in one of so many parts of the bytes.
fn opened_in_part(
    alloc: Global,
    form: Form,
    records: &[u8],
    part: usize,
    parts: usize,
) -> Result<Vec<Option<Arc<Sealed>>>, AllocError> {
    let size = records.len() / parts.max(1) + 1;
    let from = part.saturating_mul(size);
    let to = from.saturating_add(size).min(records.len());
    opened_between(alloc, form, records, from, to)
}

/// The results of those records that begin between two places in the bytes.
fn opened_between(
    alloc: Global,
    form: Form,
    records: &[u8],
    from: usize,
    to: usize,
) -> Result<Vec<Option<Arc<Sealed>>>, AllocError>
    requires { to ≤ length records.now }
{
    let mut opened = Vec::new(alloc);
    let mut at = 0;
    while at < to {
        let Some((place, rest)) = next_place(form, &records[at..]) else {
            return Ok(opened);
        };
        if at >= from {
            opened.push(opened_at(alloc, place))?;
        }
        at = records.len() - rest.len();
    }
    Ok(opened)
}

/// The result at a place, if it is right and there is memory.
fn opened_at(alloc: Global, place: Option<Place<'_>>) -> Option<Arc<Sealed>> {
    let Place { kind, print, text } = place?;
    let text = text.to_vec(alloc).ok()?;
    open(alloc, kind, print, text).ok()?
}

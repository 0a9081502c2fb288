//! Auditors over feeds that fail, and over files that are too long.
ghost use Rattle.std.specs.Prelude.{◌≡◌, ◌++◌, ◌∷◌, [], List, map, IfOk, IfSome};
ghost use Rattle.query_rules.specs.Queries.{queries};
ghost use Rattle.audit_replay.specs.Audits.{IsRefusedBehind};
ghost use Rattle.audit_fixtures.specs.Chains.{IsRefusedLonger};

use crate::auditors::{plain, stays, taken};
use crate::chain::{files_of, slices};
use answer_fixtures::Unfit;
use audit_graph::AuditFault;
use devices::Feed;
use item_ids::Key;
use providers::MiniJava;
use session_file::FileFault;
use session_fixtures::{Failing, FailingFeed, Manner};
use std::alloc::{AllocError, Global};
use table_fixtures::Change;

/// What came of a file whose feed fails at one of its calls.
#[derive(Clone, Copy, PartialEq, Eq)]
enum Came {
    /// It was refused as it has to be.
    Refused,
    /// It was taken, since there was no such call.
    Taken,
    /// Something else.
    Other,
}

/// Takes the file that follows these from a feed that behaves like this.
fn taken_behind(alloc: Global, files: &[&[u8]], file: &[u8], manner: Manner) -> Came {
    let mut runner = MiniJava::new(alloc);
    let Ok(mut auditor) = taken(alloc, files, &mut runner, usize::MAX) else {
        return Came::Other;
    };
    let runs = runner.log().len();
    let mut feed = FailingFeed::new(file, manner);
    let fault = AuditFault::File(files.len(), FileFault::Device);
    match auditor.take(alloc, &mut runner, &mut feed) {
        Ok(()) if feed.failures() == 0 => Came::Taken,
        Err(found) if found == fault && feed.failures() == 1 && runner.log().len() == runs => {
            if stays(alloc, auditor, &mut runner, &mut feed, file, fault) {
                Came::Refused
            } else {
                Came::Other
            }
        }
        _ => Came::Other,
    }
}

/// Whether the file that follows these is refused at each call of its feed that fails.
fn fails_behind(alloc: Global, files: &[&[u8]], file: &[u8], piece: usize, goes_on: bool) -> bool {
    for call in 0..file.len() {
        let manner = Manner {
            piece,
            failing: Some(Failing { call, goes_on }),
        };
        match taken_behind(alloc, files, file, manner) {
            Came::Refused => {}
            Came::Taken => return 0 < call,
            Came::Other => return false,
        }
    }
    false
}

/// Whether an auditor refuses each file of the chain's sessions at each call of its feed that fails, once or from then on, and stays refused.
/// The feed gives so many bytes in a call at most.
pub fn fails_at_each_call(alloc: Global, chain: &[Change], piece: usize) -> Result<bool, Unfit> {
    let files = files_of(alloc, chain)?;
    let list = slices(alloc, files.as_slice())?;
    let list = list.as_slice();
    for (at, file) in list.iter().enumerate() {
        if !fails_in_both_ways(alloc, &list[..at], file, piece) {
            return Ok(false);
        }
    }
    Ok(true)
}

fn fails_in_both_ways(alloc: Global, before: &[&[u8]], file: &[u8], piece: usize) -> bool {
    fails_behind(alloc, before, file, piece, false)
        && fails_behind(alloc, before, file, piece, true)
}

/// The file and a byte 0 behind it.
fn longer(alloc: Global, file: &[u8]) -> Result<Vec<u8>, AllocError>
    ensures { IfOk result (λ bytes. bytes.items ≡ file.now ++ 0 ∷ []) }
{
    let mut bytes = file.to_vec(alloc)?;
    bytes.push(0)?;
    Ok(bytes)
}

/// Why these bytes are refused behind these files. The auditor stays refused, and none of the records is run.
fn fault_behind(alloc: Global, files: &[&[u8]], bytes: &[u8]) -> Option<AuditFault>
    ensures { IfSome result (λ fault. (log : List Key)
        × IsRefusedBehind queries (map (λ f. f.now) files.now ++ bytes.now ∷ []) [] log fault) }
{
    let mut runner = MiniJava::new(alloc);
    let Ok(mut auditor) = taken(alloc, files, &mut runner, usize::MAX) else {
        return None;
    };
    let runs = runner.log().len();
    let mut feed = plain(bytes);
    let Err(fault) = auditor.take(alloc, &mut runner, &mut feed) else {
        return None;
    };
    if feed.failures() != 0 || runner.log().len() != runs {
        return None;
    }
    if stays(alloc, auditor, &mut runner, &mut feed, bytes, fault) {
        Some(fault)
    } else {
        None
    }
}

/// Why an auditor refuses the file at this place of the chain if a byte 0 follows it. It stays refused, and runs none of
/// the file's records. None if it doesn't refuse so.
pub fn fault_of_longer(
    alloc: Global,
    chain: &[Change],
    at: usize,
) -> Result<Option<AuditFault>, Unfit>
    ensures { IfOk result (λ found. IfSome found (IsRefusedLonger chain.now at)) }
{
    let files = files_of(alloc, chain)?;
    let list = slices(alloc, files.as_slice())?;
    let list = list.as_slice();
    if list.len() <= at {
        return Err(Unfit);
    }
    let bytes = longer(alloc, list[at])?;
    Ok(fault_behind(alloc, &list[..at], &bytes))
}

//! Results of records.
ghost use Rattle.std.specs.Prelude.{◌≡◌, Some, IfOk, IfSome, IsTrue, option_map};
ghost use Rattle.std.specs.Arc.{arc_value};
ghost use Rattle.std.specs.Option.{option_copied};
ghost use Rattle.result_bytes.specs.Values.{decoding};
ghost use Rattle.session_file.specs.Reading.{past_with_print, result_at, taken_at, value_with_print};
ghost use Rattle.session_file.specs.Feeding.{CountsFeedFault, Feeds};

use crate::fault::FileFault;
use crate::reading::body_hash::BodyHash;
use crate::reading::feed_fault::FeedFault;
use crate::reading::parts::{bytes, eight, thirty_two};
use devices::Feed;
use fingerprint::{Print, Sealed, SealedFault, open_sealed};
use item_ids::Kind;
use result_bytes::Refusal;
use std::alloc::{AllocError, Global};
use std::sync::Arc;

/// Reads the fingerprint of the result of the record at an index. The result is the one that the previous session has of
/// its key.
pub(crate) fn take_result<F: Feed>(
    feed: &mut F,
    hash: &mut BodyHash,
    had: Option<&Arc<Sealed>>,
    index: usize,
) -> Result<Arc<Sealed>, FeedFault>
    ensures value { Feeds (F.holds feed.old) (F.holds feed.new) hash.old hash.new (λ x. arc_value x)
        result (taken_at index (option_map arc_value (option_copied had.entry))) }
    ensures counted { CountsFeedFault result (F.failed feed.old) (F.failed feed.new) }
{
    let print = thirty_two(feed, hash)?;
    match with_print(had, &print) {
        Ok(Some(sealed)) => Ok(sealed),
        Ok(None) => Err(FeedFault::Breach(FileFault::NoPastResult(index))),
        Err(_) => Err(FeedFault::Memory),
    }
}

/// One more owner of a result, if it has this fingerprint.
fn with_print(
    had: Option<&Arc<Sealed>>,
    print: &[u8; 32],
) -> Result<Option<Arc<Sealed>>, AllocError>
    ensures { IfOk result (λ found. option_map (λ sealed. arc_value sealed) found
        ≡ past_with_print print.now (option_map arc_value (option_copied had.entry))) }
{
    match had {
        Some(had) => {
            if had.print().0 == *print {
                Ok(Some(Arc::try_clone(had)?))
            } else {
                Ok(None)
            }
        }
        None => Ok(None),
    }
}

/// Results that a record's may be.
#[derive(Clone, Copy)]
pub(crate) struct Known<'a> {
    /// The one that the previous session has of the key.
    pub(crate) past: Option<&'a Arc<Sealed>>,
    /// The one that another thread opened.
    pub(crate) opened: Option<&'a Arc<Sealed>>,
}

/// Reads the result of the record at an index, which is of a kind. If a known one is the same, that is shared.
pub(crate) fn read_result<F: Feed>(
    alloc: Global,
    feed: &mut F,
    hash: &mut BodyHash,
    known: Known<'_>,
    index: usize,
    kind: Kind,
) -> Result<Arc<Sealed>, FeedFault>
    ensures value { Feeds (F.holds feed.old) (F.holds feed.new) hash.old hash.new (λ x. arc_value x)
        result (result_at index kind) }
    ensures counted { CountsFeedFault result (F.failed feed.old) (F.failed feed.new) }
{
    let print = thirty_two(feed, hash)?;
    let count = eight(feed, hash)?;
    let text = bytes(alloc, feed, hash, count)?;
    match share_or_open(alloc, known, kind, print, text) {
        Ok(Some(sealed)) => Ok(sealed),
        Ok(None) => Err(FeedFault::Breach(FileFault::Result(index))),
        Err(_) => Err(FeedFault::Memory),
    }
}

/// The value of a kind that the text spells, if it has the fingerprint.
fn share_or_open(
    alloc: Global,
    known: Known<'_>,
    kind: Kind,
    print: [u8; 32],
    text: Vec<u8>,
) -> Result<Option<Arc<Sealed>>, AllocError>
    ensures { IfOk result (λ found. option_map (λ sealed. arc_value sealed) found
        ≡ value_with_print print (decoding kind text.items)) }
{
    if let Some(same) = shared(known.past, kind, &print, &text)? {
        return Ok(Some(same));
    }
    if let Some(same) = shared(known.opened, kind, &print, &text)? {
        return Ok(Some(same));
    }
    open(alloc, kind, print, text)
}

/// One more owner of a result, if the text spells it.
fn shared(
    sealed: Option<&Arc<Sealed>>,
    kind: Kind,
    print: &[u8; 32],
    text: &[u8],
) -> Result<Option<Arc<Sealed>>, AllocError>
    ensures { IfOk result (λ found. IfSome found (λ sealed.
        value_with_print print.now (decoding kind text.now) ≡ Some (arc_value sealed))) }
{
    match sealed {
        Some(sealed) if is_spelled(sealed, kind, print, text) => Ok(Some(Arc::try_clone(sealed)?)),
        _ => Ok(None),
    }
}

/// Whether the text spells this result of a kind, and the fingerprint is its own.
fn is_spelled(sealed: &Sealed, kind: Kind, print: &[u8; 32], text: &[u8]) -> bool
    ensures { IsTrue result
        → value_with_print print.now (decoding kind text.now) ≡ Some sealed.now }
{
    if sealed.value().kind() != kind {
        return false;
    }
    if sealed.print().0 != *print {
        return false;
    }
    sealed.bytes() == text
}

/// The value of a kind that the text spells, if it has the fingerprint.
pub(crate) fn open(
    alloc: Global,
    kind: Kind,
    print: [u8; 32],
    text: Vec<u8>,
) -> Result<Option<Arc<Sealed>>, AllocError>
    ensures { IfOk result (λ found. option_map (λ sealed. arc_value sealed) found
        ≡ value_with_print print (decoding kind text.items)) }
{
    match open_sealed(alloc, kind, text, Print(print)) {
        Ok(sealed) => Ok(Some(Arc::new(alloc, sealed)?)),
        Err(SealedFault::Refused(Refusal::OutOfMemory)) => Err(AllocError),
        Err(_) => Ok(None),
    }
}

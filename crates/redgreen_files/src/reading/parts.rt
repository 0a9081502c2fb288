//! Parts of a file that have a length.
ghost use Rattle.std.specs.Prelude.{◌≡◌, ◌≤◌, length};
ghost use Rattle.byte_readers.specs.Reading.{byte_at};
ghost use Rattle.redgreen_files.specs.Reading.{number_at, slice_at, or_truncated};
ghost use Rattle.redgreen_files.specs.Feeding.{Appends, CountsFeedFault, Feeds};

use crate::reading::feed_fault::FeedFault;
use crate::reading::feeding::pull;
use byteorder::{BigEndian, ByteOrder};
use devices::{Feed, HashingSink};
use std::alloc::Global;

/// A number of eight bytes.
pub(crate) fn number<F: Feed>(feed: &mut F, hash: &mut HashingSink) -> Result<u64, FeedFault>
    ensures value { Feeds (F.holds feed.old) (F.holds feed.new) hash.old hash.new (λ x. x) result
        number_at }
    ensures counted { CountsFeedFault result (F.failed feed.old) (F.failed feed.new) }
{
    let mut room = [0; 8];
    pull(feed, hash, &mut room)?;
    Ok(BigEndian::read_u64(&room))
}

/// One byte.
pub(crate) fn byte<F: Feed>(feed: &mut F, hash: &mut HashingSink) -> Result<u8, FeedFault>
    ensures value { Feeds (F.holds feed.old) (F.holds feed.new) hash.old hash.new (λ x. x) result
        (λ bytes. or_truncated (byte_at bytes)) }
    ensures counted { CountsFeedFault result (F.failed feed.old) (F.failed feed.new) }
{
    let mut room = [0; 1];
    pull(feed, hash, &mut room)?;
    Ok(room[0])
}

/// The bytes of a digest.
pub(crate) fn digest<F: Feed>(feed: &mut F, hash: &mut HashingSink) -> Result<[u8; 32], FeedFault>
    ensures value { Feeds (F.holds feed.old) (F.holds feed.new) hash.old hash.new (λ x. x) result
        (slice_at 32) }
    ensures counted { CountsFeedFault result (F.failed feed.old) (F.failed feed.new) }
{
    let mut room = [0; 32];
    pull(feed, hash, &mut room)?;
    Ok(room)
}

/// The greatest number of bytes that are taken at a time.
const PIECE: usize = 4096;

/// So many bytes. Memory is only taken for bytes that were there.
pub(crate) fn bytes<F: Feed>(
    alloc: Global,
    feed: &mut F,
    hash: &mut HashingSink,
    count: u64,
) -> Result<Vec<u8>, FeedFault>
    ensures value { Feeds (F.holds feed.old) (F.holds feed.new) hash.old hash.new (λ x. x.items) result
        (slice_at count) }
    ensures counted { CountsFeedFault result (F.failed feed.old) (F.failed feed.new) }
{
    let mut text = Vec::new(alloc);
    let mut left = count;
    while left > 0 {
        let step = left.min(PIECE as u64);
        piece(feed, hash, &mut text, step as usize)?;
        left -= step;
    }
    text.shrink_to_fit();
    Ok(text)
}

/// Takes so many bytes, and appends them to the text.
fn piece<F: Feed>(
    feed: &mut F,
    hash: &mut HashingSink,
    text: &mut Vec<u8>,
    count: usize,
) -> Result<(), FeedFault>
    requires { count ≤ 4096 }
    ensures value { Appends (F.holds feed.old) (F.holds feed.new) hash.old hash.new text.old.items
        text.new.items count result }
    ensures counted { CountsFeedFault result (F.failed feed.old) (F.failed feed.new) }
{
    let mut room = [0; PIECE];
    pull(feed, hash, &mut room[..count])?;
    text.extend_from_slice(&room[..count])?;
    Ok(())
}

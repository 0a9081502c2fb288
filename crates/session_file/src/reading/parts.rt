//! Parts of a file that have a length.
ghost use Rattle.std.specs.Prelude.{◌≡◌, ◌≤◌, length, take, IfOk};
ghost use Rattle.byte_readers.specs.Reading.{byte_at, two_at, four_at, eight_at};
ghost use Rattle.session_file.specs.Reading.{slice_at, short_text_at, or_truncated};
ghost use Rattle.ordered_names.specs.Names.{most_name_bytes};
ghost use Rattle.session_file.specs.Feeding.{Appends, CountsFeedFault, Feeds};

use crate::reading::body_hash::BodyHash;
use crate::reading::feed_fault::FeedFault;
use crate::reading::feeding::pull;
use byteorder::{BigEndian, ByteOrder};
use devices::Feed;
use std::alloc::Global;

/// A number of eight bytes.
pub(crate) fn eight<F: Feed>(feed: &mut F, hash: &mut BodyHash) -> Result<u64, FeedFault>
    ensures value { Feeds (F.holds feed.old) (F.holds feed.new) hash.old hash.new (λ x. x) result
        (λ bytes. or_truncated (eight_at bytes)) }
    ensures counted { CountsFeedFault result (F.failed feed.old) (F.failed feed.new) }
{
    let mut room = [0; 8];
    pull(feed, hash, &mut room)?;
    Ok(BigEndian::read_u64(&room))
}

/// A number of four bytes.
pub(crate) fn four<F: Feed>(feed: &mut F, hash: &mut BodyHash) -> Result<u32, FeedFault>
    ensures value { Feeds (F.holds feed.old) (F.holds feed.new) hash.old hash.new (λ x. x) result
        (λ bytes. or_truncated (four_at bytes)) }
    ensures counted { CountsFeedFault result (F.failed feed.old) (F.failed feed.new) }
{
    let mut room = [0; 4];
    pull(feed, hash, &mut room)?;
    Ok(BigEndian::read_u32(&room))
}

/// A number of two bytes.
pub(crate) fn two<F: Feed>(feed: &mut F, hash: &mut BodyHash) -> Result<u16, FeedFault>
    ensures value { Feeds (F.holds feed.old) (F.holds feed.new) hash.old hash.new (λ x. x) result
        (λ bytes. or_truncated (two_at bytes)) }
    ensures counted { CountsFeedFault result (F.failed feed.old) (F.failed feed.new) }
{
    let mut room = [0; 2];
    pull(feed, hash, &mut room)?;
    Ok(BigEndian::read_u16(&room))
}

/// One byte.
pub(crate) fn byte<F: Feed>(feed: &mut F, hash: &mut BodyHash) -> Result<u8, FeedFault>
    ensures value { Feeds (F.holds feed.old) (F.holds feed.new) hash.old hash.new (λ x. x) result
        (λ bytes. or_truncated (byte_at bytes)) }
    ensures counted { CountsFeedFault result (F.failed feed.old) (F.failed feed.new) }
{
    let mut room = [0; 1];
    pull(feed, hash, &mut room)?;
    Ok(room[0])
}

/// The bytes of a digest.
pub(crate) fn thirty_two<F: Feed>(feed: &mut F, hash: &mut BodyHash) -> Result<[u8; 32], FeedFault>
    ensures value { Feeds (F.holds feed.old) (F.holds feed.new) hash.old hash.new (λ x. x) result
        (slice_at 32) }
    ensures counted { CountsFeedFault result (F.failed feed.old) (F.failed feed.new) }
{
    let mut room = [0; 32];
    pull(feed, hash, &mut room)?;
    Ok(room)
}

/// One byte of length, and so many bytes, which are moved to the front of the room. Answers how many there are.
pub(crate) fn text<F: Feed>(
    feed: &mut F,
    hash: &mut BodyHash,
    room: &mut [u8; 255],
) -> Result<usize, FeedFault>
    ensures value { Feeds (F.holds feed.old) (F.holds feed.new) hash.old hash.new
        (λ count. take count room.new) result short_text_at }
    ensures short { IfOk result (λ count. count ≤ most_name_bytes) }
    ensures counted { CountsFeedFault result (F.failed feed.old) (F.failed feed.new) }
{
    let count = byte(feed, hash)? as usize;
    pull(feed, hash, &mut room[..count])?;
    Ok(count)
}

/// The greatest number of bytes that are taken at a time.
const PIECE: usize = 1024;

/// Reads this many bytes. Memory is only taken for bytes that were there.
pub(crate) fn bytes<F: Feed>(
    alloc: Global,
    feed: &mut F,
    hash: &mut BodyHash,
    count: u64,
) -> Result<Vec<u8>, FeedFault>
    ensures value { Feeds (F.holds feed.old) (F.holds feed.new) hash.old hash.new (λ x. x.items) result
        (slice_at count) }
    ensures counted { CountsFeedFault result (F.failed feed.old) (F.failed feed.new) }
{
    let mut text = Vec::new(alloc);
    let mut left = count;
    while left > 0 {
        let step = left.min(PIECE as u64);
        piece(feed, hash, &mut text, step as usize)?;
        left -= step;
    }
    text.shrink_to_fit();
    Ok(text)
}

/// Takes so many bytes, and appends them to the text.
fn piece<F: Feed>(
    feed: &mut F,
    hash: &mut BodyHash,
    text: &mut Vec<u8>,
    count: usize,
) -> Result<(), FeedFault>
    requires { count ≤ 1024 }
    ensures value { Appends (F.holds feed.old) (F.holds feed.new) hash.old hash.new text.old.items
        text.new.items count result }
    ensures counted { CountsFeedFault result (F.failed feed.old) (F.failed feed.new) }
{
    let mut room = [0; PIECE];
    pull(feed, hash, &mut room[..count])?;
    text.extend_from_slice(&room[..count])?;
    Ok(())
}

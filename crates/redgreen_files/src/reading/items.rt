//! Keys, values, and the places of reads.
ghost use Rattle.std.specs.Prelude.{◌≡◌, false, []};
ghost use Rattle.redgreen_files.specs.Reading.{is_key_length, key_at, many_from, number_part, reads_at, text_at};
ghost use Rattle.redgreen_files.specs.Feeding.{CountsFeedFault, Feeds, is_device};

use crate::fault::FileFault;
use crate::reading::feed_fault::FeedFault;
use crate::reading::parts::{bytes, number};
use devices::{Feed, HashingSink};
use redgreen_sessions::Bytes;
use std::alloc::Global;

/// Whether a key may have so many bytes.
#[tactic(auto, unfolding(crate::specs::Reading::is_key_length))]
fn is_key_length(count: u64) -> bool
    ensures { result ≡ is_key_length count }
{
    1 <= count && count <= 65_536
}

/// A key, or else a fault if no key has its length.
pub(crate) fn read_key<F: Feed>(
    alloc: Global,
    feed: &mut F,
    hash: &mut HashingSink,
    fault: FileFault,
) -> Result<Bytes, FeedFault>
    requires { is_device fault ≡ false }
    ensures value { Feeds (F.holds feed.old) (F.holds feed.new) hash.old hash.new (λ x. x) result
        (key_at fault) }
    ensures counted { CountsFeedFault result (F.failed feed.old) (F.failed feed.new) }
{
    let count = number(feed, hash)?;
    let admitted = is_key_length(count);
    if !admitted {
        return Err(FeedFault::Breach(fault));
    }
    let key = bytes(alloc, feed, hash, count)?;
    Ok(Bytes::from_vec(key))
}

/// A value.
pub(crate) fn read_text<F: Feed>(
    alloc: Global,
    feed: &mut F,
    hash: &mut HashingSink,
) -> Result<Bytes, FeedFault>
    ensures value { Feeds (F.holds feed.old) (F.holds feed.new) hash.old hash.new (λ x. x) result
        text_at }
    ensures counted { CountsFeedFault result (F.failed feed.old) (F.failed feed.new) }
{
    let count = number(feed, hash)?;
    let value = bytes(alloc, feed, hash, count)?;
    Ok(Bytes::from_vec(value))
}

/// The places of the records that a record read.
pub(crate) fn read_reads<F: Feed>(
    alloc: Global,
    feed: &mut F,
    hash: &mut HashingSink,
) -> Result<Vec<usize>, FeedFault>
    ensures value { Feeds (F.holds feed.old) (F.holds feed.new) hash.old hash.new (λ x. x.items)
        result reads_at }
    ensures counted { CountsFeedFault result (F.failed feed.old) (F.failed feed.new) }
{
    let count = number(feed, hash)?;
    read_places(alloc, feed, hash, count)
}

/// So many places. Memory is only taken for places that were there.
fn read_places<F: Feed>(
    alloc: Global,
    feed: &mut F,
    hash: &mut HashingSink,
    count: u64,
) -> Result<Vec<usize>, FeedFault>
    ensures value { Feeds (F.holds feed.old) (F.holds feed.new) hash.old hash.new (λ x. x.items)
        result (many_from number_part [] count) }
    ensures counted { CountsFeedFault result (F.failed feed.old) (F.failed feed.new) }
{
    let mut places = Vec::new(alloc);
    for _ in 0..count {
        let place = number(feed, hash)?;
        places.push(place as usize)?;
    }
    places.shrink_to_fit();
    Ok(places)
}

//! Records and roots.
ghost use Rattle.std.specs.Prelude.{◌≡◌, [], map};
ghost use Rattle.redgreen_files.specs.Spelling.{value_of};
ghost use Rattle.redgreen_files.specs.Reading.{many_from, record_at, records_at, root_at, roots_at};
ghost use Rattle.redgreen_files.specs.Feeding.{CountsFeedFault, Feeds};

use crate::fault::FileFault;
use crate::reading::feed_fault::FeedFault;
use crate::reading::items::{read_key, read_reads, read_text};
use crate::reading::marks::read_mark;
use crate::reading::parts::number;
use devices::{Feed, HashingSink};
use redgreen_sessions::{Bytes, Record};
use std::alloc::Global;

/// The roots of a session.
pub(crate) fn read_roots<F: Feed>(
    alloc: Global,
    feed: &mut F,
    hash: &mut HashingSink,
) -> Result<Vec<Bytes>, FeedFault>
    ensures value { Feeds (F.holds feed.old) (F.holds feed.new) hash.old hash.new (λ x. x.items)
        result roots_at }
    ensures counted { CountsFeedFault result (F.failed feed.old) (F.failed feed.new) }
{
    let count = number(feed, hash)?;
    if count == 0 {
        return Err(FeedFault::Breach(FileFault::NoRoot));
    }
    read_keys(alloc, feed, hash, count)
}

/// So many roots. Memory is only taken for roots that were there.
fn read_keys<F: Feed>(
    alloc: Global,
    feed: &mut F,
    hash: &mut HashingSink,
    count: u64,
) -> Result<Vec<Bytes>, FeedFault>
    ensures value { Feeds (F.holds feed.old) (F.holds feed.new) hash.old hash.new (λ x. x.items)
        result (many_from root_at [] count) }
    ensures counted { CountsFeedFault result (F.failed feed.old) (F.failed feed.new) }
{
    let mut keys = Vec::new(alloc);
    for _ in 0..count {
        let key = read_root(alloc, feed, hash, keys.len())?;
        keys.push(key)?;
    }
    Ok(keys)
}

/// The root with this index.
#[tactic(auto, unfolding(crate::specs::Reading::root_at))]
fn read_root<F: Feed>(
    alloc: Global,
    feed: &mut F,
    hash: &mut HashingSink,
    i: usize,
) -> Result<Bytes, FeedFault>
    ensures value { Feeds (F.holds feed.old) (F.holds feed.new) hash.old hash.new (λ x. x) result
        (root_at i) }
    ensures counted { CountsFeedFault result (F.failed feed.old) (F.failed feed.new) }
{
    read_key(alloc, feed, hash, FileFault::RootLength(i))
}

/// The records of a session.
pub(crate) fn read_records<F: Feed>(
    alloc: Global,
    feed: &mut F,
    hash: &mut HashingSink,
) -> Result<Vec<Record>, FeedFault>
    ensures value { Feeds (F.holds feed.old) (F.holds feed.new) hash.old hash.new
        (λ x. map value_of x.items) result records_at }
    ensures counted { CountsFeedFault result (F.failed feed.old) (F.failed feed.new) }
{
    let count = number(feed, hash)?;
    read_each(alloc, feed, hash, count)
}

/// So many records. Memory is only taken for records that were there.
fn read_each<F: Feed>(
    alloc: Global,
    feed: &mut F,
    hash: &mut HashingSink,
    count: u64,
) -> Result<Vec<Record>, FeedFault>
    ensures value { Feeds (F.holds feed.old) (F.holds feed.new) hash.old hash.new
        (λ x. map value_of x.items) result (many_from record_at [] count) }
    ensures counted { CountsFeedFault result (F.failed feed.old) (F.failed feed.new) }
{
    let mut records = Vec::new(alloc);
    for _ in 0..count {
        let next = read_record(alloc, feed, hash, records.len())?;
        records.push(next)?;
    }
    Ok(records)
}

/// The record with this index.
fn read_record<F: Feed>(
    alloc: Global,
    feed: &mut F,
    hash: &mut HashingSink,
    i: usize,
) -> Result<Record, FeedFault>
    ensures value { Feeds (F.holds feed.old) (F.holds feed.new) hash.old hash.new value_of result
        (record_at i) }
    ensures counted { CountsFeedFault result (F.failed feed.old) (F.failed feed.new) }
{
    let key = read_key(alloc, feed, hash, FileFault::KeyLength(i))?;
    let mark = read_mark(feed, hash, i)?;
    let reads = read_reads(alloc, feed, hash)?;
    let value = read_text(alloc, feed, hash)?;
    Ok(Record {
        key,
        mark,
        reads,
        value,
    })
}

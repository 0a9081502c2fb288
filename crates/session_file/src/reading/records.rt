//! Records from a file.
ghost use Rattle.std.specs.Prelude.{◌≡◌, false, [], length, IfErr, OnOk};
ghost use Rattle.std.specs.Arc.{arc_value};
ghost use Rattle.std.specs.List.{AllByRecursion};
ghost use Rattle.std.specs.Option.{option_copied};
ghost use Rattle.session_file.specs.Reading.{is_behind, check_place, placed_item_at, record_at, records_from, rest_at, told_at};
ghost use Rattle.session_file.specs.Feeding.{CountsFeedFault, Feeds, is_device};
ghost use Rattle.session_file.specs.Records.{AppendsRecord};

use crate::fault::FileFault;
use crate::reading::body_hash::BodyHash;
use crate::reading::edges::read_edges;
use crate::reading::feed_fault::FeedFault;
use crate::reading::items::{Item, read_item};
use crate::reading::origin::Origin;
use crate::reading::results::{Known, read_result, take_result};
use devices::Feed;
use fingerprint::Sealed;
use item_ids::Key;
use sessions::{Record, SeenEdges, is_marked};
use std::alloc::Global;
use std::sync::Arc;

/// What follows a key and its mark.
#[derive(Drop)]
struct Rest {
    edges: Vec<usize>,
    sealed: Arc<Sealed>,
}

/// Reads this many records. Memory is only taken for records that were there.
pub(crate) fn read_records<F: Feed>(
    alloc: Global,
    feed: &mut F,
    hash: &mut BodyHash,
    origin: &mut Origin<'_>,
    count: u64,
) -> Result<Vec<Record>, FeedFault>
    ensures value { Feeds (F.holds feed.old) (F.holds feed.new) hash.old hash.new (λ x. x.items)
        result (records_from origin.old [] count) }
    ensures counted { CountsFeedFault result (F.failed feed.old) (F.failed feed.new) }
{
    let mut seen = SeenEdges::new(alloc);
    let mut records = Vec::new(alloc);
    for _ in 0..count {
        next_record(alloc, feed, hash, origin, &mut seen, &mut records)?;
    }
    Ok(records)
}

/// Reads the record behind those in front, and puts it there.
fn next_record<F: Feed>(
    alloc: Global,
    feed: &mut F,
    hash: &mut BodyHash,
    origin: &mut Origin<'_>,
    seen: &mut SeenEdges,
    records: &mut Vec<Record>,
) -> Result<(), FeedFault>
    requires length { length seen.old ≡ length records.old.items }
    requires unseen { AllByRecursion (λ b. b ≡ false) seen.old }
    ensures value { AppendsRecord (F.holds feed.old) (F.holds feed.new) hash.old hash.new origin.old
        records.old.items records.new.items result }
    ensures same { origin.new ≡ origin.old }
    ensures counted { CountsFeedFault result (F.failed feed.old) (F.failed feed.new) }
    ensures length { OnOk result (length seen.new ≡ length records.new.items) }
    ensures unseen { OnOk result (AllByRecursion (λ b. b ≡ false) seen.new) }
{
    let next = read_record(alloc, feed, hash, origin, seen, records)?;
    records.push(next)?;
    seen.next()?;
    Ok(())
}

/// Reads the record behind those in front.
fn read_record<F: Feed>(
    alloc: Global,
    feed: &mut F,
    hash: &mut BodyHash,
    origin: &mut Origin<'_>,
    seen: &mut SeenEdges,
    front: &[Record],
) -> Result<Record, FeedFault>
    requires length { length seen.old ≡ length front.now }
    requires unseen { AllByRecursion (λ b. b ≡ false) seen.old }
    ensures value { Feeds (F.holds feed.old) (F.holds feed.new) hash.old hash.new (λ x. x) result
        (record_at origin.old front.now) }
    ensures same { origin.new ≡ origin.old }
    ensures counted { CountsFeedFault result (F.failed feed.old) (F.failed feed.new) }
    ensures length { length seen.new ≡ length seen.old }
{
    let item = read_placed(alloc, feed, hash, front)?;
    let rest = read_rest(alloc, feed, hash, origin, seen, front, &item)?;
    Ok(Record::new(item.key, item.mark, rest.edges, rest.sealed))
}

/// Reads a key and its mark, if these may follow the records in front.
fn read_placed<F: Feed>(
    alloc: Global,
    feed: &mut F,
    hash: &mut BodyHash,
    front: &[Record],
) -> Result<Item, FeedFault>
    ensures value { Feeds (F.holds feed.old) (F.holds feed.new) hash.old hash.new (λ x. x) result
        (placed_item_at front.now) }
    ensures counted { CountsFeedFault result (F.failed feed.old) (F.failed feed.new) }
{
    let item = read_item(alloc, feed, hash, front.len())?;
    match check_place(front, &item) {
        Ok(()) => Ok(item),
        Err(fault) => Err(FeedFault::Breach(fault)),
    }
}

/// The key is greater than the one before, and its mark is Input exactly if it is an input.
#[tactic(auto, unfolding(crate::specs::Reading::check_place))]
fn check_place(front: &[Record], item: &Item) -> Result<(), FileFault>
    ensures value { result ≡ check_place front.now item.now }
    ensures breach { IfErr result (λ fault. is_device fault ≡ false) }
{
    if !is_behind(front.last(), &item.key) {
        return Err(FileFault::KeyOrder(front.len()));
    }
    if !is_marked(item.mark, item.key.kind()) {
        return Err(FileFault::InputKind(front.len()));
    }
    Ok(())
}

/// Whether a key is greater than that of the last record, if there is one.
fn is_behind(last: Option<&Record>, key: &Key) -> bool
    ensures { result ≡ is_behind (option_copied last.entry) key.now }
{
    match last {
        None => true,
        Some(last) => last.key().cmp(key).is_lt(),
    }
}

/// Reads what follows a key and its mark.
fn read_rest<F: Feed>(
    alloc: Global,
    feed: &mut F,
    hash: &mut BodyHash,
    origin: &mut Origin<'_>,
    seen: &mut SeenEdges,
    front: &[Record],
    item: &Item,
) -> Result<Rest, FeedFault>
    requires length { length seen.old ≡ length front.now }
    requires unseen { AllByRecursion (λ b. b ≡ false) seen.old }
    ensures value { Feeds (F.holds feed.old) (F.holds feed.new) hash.old hash.new
        (λ x. record { edges = x.edges.items; value = arc_value x.sealed }) result
        (rest_at origin.old front.now item.now) }
    ensures same { origin.new ≡ origin.old }
    ensures counted { CountsFeedFault result (F.failed feed.old) (F.failed feed.new) }
    ensures length { length seen.new ≡ length seen.old }
{
    let edges = read_edges(alloc, feed, hash, seen, front, &item.key)?;
    let sealed = read_told(alloc, feed, hash, origin, front.len(), item)?;
    Ok(Rest { edges, sealed })
}

/// Reads what the record at an index ends with.
fn read_told<F: Feed>(
    alloc: Global,
    feed: &mut F,
    hash: &mut BodyHash,
    origin: &mut Origin<'_>,
    index: usize,
    item: &Item,
) -> Result<Arc<Sealed>, FeedFault>
    ensures value { Feeds (F.holds feed.old) (F.holds feed.new) hash.old hash.new (λ x. arc_value x)
        result (told_at origin.old index item.now) }
    ensures same { origin.new ≡ origin.old }
    ensures counted { CountsFeedFault result (F.failed feed.old) (F.failed feed.new) }
{
    let past = origin.result_of(&item.key);
    if origin.ends_with_print(item.mark) {
        take_result(feed, hash, past, index)
    } else {
        let known = Known {
            past,
            opened: origin.opened_at(index),
        };
        read_result(alloc, feed, hash, known, index, item.key.kind())
    }
}

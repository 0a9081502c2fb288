//! Edges of records.
ghost use Rattle.std.specs.Prelude.{◌≡◌, false, List, ℕ, [], length};
ghost use Rattle.std.specs.List.{AllByRecursion};
ghost use Rattle.session_file.specs.Reading.{edge_list_at, edges_from};
ghost use Rattle.session_file.specs.Feeding.{CountsFeedFault, Feeds};

use crate::fault::FileFault;
use crate::reading::body_hash::BodyHash;
use crate::reading::feed_fault::FeedFault;
use crate::reading::parts::eight;
use devices::Feed;
use item_ids::Key;
use sessions::{Record, SeenEdges};
use std::alloc::Global;

/// Reads the edges of a key behind the records in front.
pub(crate) fn read_edges<F: Feed>(
    alloc: Global,
    feed: &mut F,
    hash: &mut BodyHash,
    seen: &mut SeenEdges,
    front: &[Record],
    key: &Key,
) -> Result<Vec<usize>, FeedFault>
    requires length { length seen.old ≡ length front.now }
    requires unseen { AllByRecursion (λ b. b ≡ false) seen.old }
    ensures value { Feeds (F.holds feed.old) (F.holds feed.new) hash.old hash.new (λ x. x.items)
        result (edge_list_at front.now key.now) }
    ensures counted { CountsFeedFault result (F.failed feed.old) (F.failed feed.new) }
    ensures length { length seen.new ≡ length seen.old }
{
    let count = eight(feed, hash)?;
    read_items(alloc, feed, hash, seen, front, key, count)
}

/// Reads this many edges. Memory is only taken for edges that were there.
fn read_items<F: Feed>(
    alloc: Global,
    feed: &mut F,
    hash: &mut BodyHash,
    seen: &mut SeenEdges,
    front: &[Record],
    key: &Key,
    count: u64,
) -> Result<Vec<usize>, FeedFault>
    requires length { length seen.old ≡ length front.now }
    requires unseen { AllByRecursion (λ b. b ≡ false) seen.old }
    ensures value { Feeds (F.holds feed.old) (F.holds feed.new) hash.old hash.new (λ x. x.items)
        result (edges_from front.now key.now [] count) }
    ensures counted { CountsFeedFault result (F.failed feed.old) (F.failed feed.new) }
    ensures length { length seen.new ≡ length seen.old }
{
    let mut edges = Vec::new(alloc);
    for _ in 0..count {
        let edge = eight(feed, hash)? as usize;
        let admitted = seen.admit(front, key, edge);
        if !admitted {
            return Err(FeedFault::Breach(FileFault::BadEdge(front.len(), edges.len())));
        }
        edges.push(edge)?;
    }
    edges.shrink_to_fit();
    Ok(edges)
}

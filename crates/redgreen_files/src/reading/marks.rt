//! Marks.
ghost use Rattle.std.specs.Prelude.{◌≡◌, false};
ghost use Rattle.redgreen_files.specs.Reading.{mark_at, mark_with, place_after, place_at};
ghost use Rattle.redgreen_files.specs.Feeding.{CountsFeedFault, Feeds, is_device};

use crate::fault::FileFault;
use crate::reading::feed_fault::FeedFault;
use crate::reading::parts::{byte, number};
use devices::{Feed, HashingSink};
use redgreen_sessions::Mark;

/// The mark of the record with this index.
pub(crate) fn read_mark<F: Feed>(
    feed: &mut F,
    hash: &mut HashingSink,
    i: usize,
) -> Result<Mark, FeedFault>
    ensures value { Feeds (F.holds feed.old) (F.holds feed.new) hash.old hash.new (λ x. x) result
        (mark_at i) }
    ensures counted { CountsFeedFault result (F.failed feed.old) (F.failed feed.new) }
{
    let kind = byte(feed, hash)?;
    let previous = read_place(feed, hash, FileFault::UnknownMark(i))?;
    match mark_with(kind, previous) {
        Some(mark) => Ok(mark),
        None => Err(FeedFault::Breach(FileFault::UnknownMark(i))),
    }
}

/// The mark of a kind, with the place that it names of the previous session.
#[tactic(auto, unfolding(crate::specs::Reading::mark_with))]
fn mark_with(kind: u8, previous: Option<usize>) -> Option<Mark>
    ensures { result ≡ mark_with kind previous }
{
    match (kind, previous) {
        (0, _) => Some(Mark::Input(previous)),
        (1, _) => Some(Mark::Executed(previous)),
        (2, Some(place)) => Some(Mark::Green(place)),
        _ => None,
    }
}

/// A place, if there is one, or else a fault.
fn read_place<F: Feed>(
    feed: &mut F,
    hash: &mut HashingSink,
    fault: FileFault,
) -> Result<Option<usize>, FeedFault>
    requires { is_device fault ≡ false }
    ensures value { Feeds (F.holds feed.old) (F.holds feed.new) hash.old hash.new (λ x. x) result
        (place_at fault) }
    ensures counted { CountsFeedFault result (F.failed feed.old) (F.failed feed.new) }
{
    let flag = byte(feed, hash)?;
    read_after(feed, hash, fault, flag)
}

/// The place after the byte that says whether there is one.
fn read_after<F: Feed>(
    feed: &mut F,
    hash: &mut HashingSink,
    fault: FileFault,
    flag: u8,
) -> Result<Option<usize>, FeedFault>
    requires { is_device fault ≡ false }
    ensures value { Feeds (F.holds feed.old) (F.holds feed.new) hash.old hash.new (λ x. x) result
        (place_after fault flag) }
    ensures counted { CountsFeedFault result (F.failed feed.old) (F.failed feed.new) }
{
    if flag == 0 {
        return Ok(None);
    }
    if flag > 1 {
        return Err(FeedFault::Breach(fault));
    }
    let place = number(feed, hash)?;
    Ok(Some(place as usize))
}

//! Taking pieces of a file from a feed, and hashing them.
ghost use Rattle.redgreen_files.specs.Feeding.{CountsFeedFault, Fills, Pulls};

use crate::fault::FileFault;
use crate::reading::feed_fault::FeedFault;
use devices::{Feed, HashingSink};

/// Fills the room with what the feed holds. It is a breach if that is less.
pub(crate) fn fill<F: Feed>(feed: &mut F, room: &mut [u8]) -> Result<(), FeedFault>
    ensures filled { Fills (F.holds feed.old) (F.holds feed.new) room.old room.new result }
    ensures counted { CountsFeedFault result (F.failed feed.old) (F.failed feed.new) }
{
    let mut at = 0;
    while at < room.len() {
        match feed.take(&mut room[at..]) {
            Ok(0) => return Err(FeedFault::Breach(FileFault::Truncated)),
            Ok(count) => at += count,
            Err(_) => return Err(FeedFault::Device),
        }
    }
    Ok(())
}

/// Fills the room with what the feed holds, and hashes it.
pub(crate) fn pull<F: Feed>(
    feed: &mut F,
    hash: &mut HashingSink,
    room: &mut [u8],
) -> Result<(), FeedFault>
    ensures pulled { Pulls (F.holds feed.old) (F.holds feed.new) hash.old hash.new room.old room.new
        result }
    ensures counted { CountsFeedFault result (F.failed feed.old) (F.failed feed.new) }
{
    fill(feed, room)?;
    hash.add(room);
    Ok(())
}

//! Keys and marks of records.
ghost use Rattle.std.specs.Prelude.{◌≡◌, ◌≤◌, length, IfOk};
ghost use Rattle.ordered_names.specs.Names.{most_name_bytes};
ghost use Rattle.item_ids.specs.Kinds.{kind_with};
ghost use Rattle.session_file.specs.Keys.{key_of_kind, key_with, mark_with};
ghost use Rattle.session_file.specs.Reading.{item_at, item_with};
ghost use Rattle.session_file.specs.Feeding.{CountsFeedFault, Feeds};

use crate::fault::FileFault;
use crate::reading::body_hash::BodyHash;
use crate::reading::feed_fault::FeedFault;
use crate::reading::parts::{byte, text};
use byte_readers::as_text;
use devices::Feed;
use item_ids::{Key, Kind};
use ordered_names::Name;
use sessions::Mark;
use std::alloc::{AllocError, Global};
use std::marker::Model;

/// A key, and how it became done.
#[derive(Drop)]
pub(crate) struct Item {
    pub(crate) key: Key,
    pub(crate) mark: Mark,
}

impl Model for Item {
    ghost use Rattle.session_file.specs.Reading.{ItemValue};

    ghost Value = { ItemValue };

    ghost view = { λ s. record { key = s.key; mark = s.mark } };
}

/// Reads the key and the mark of the record at an index.
pub(crate) fn read_item<F: Feed>(
    alloc: Global,
    feed: &mut F,
    hash: &mut BodyHash,
    index: usize,
) -> Result<Item, FeedFault>
    ensures value { Feeds (F.holds feed.old) (F.holds feed.new) hash.old hash.new (λ x. x) result
        (item_at index) }
    ensures counted { CountsFeedFault result (F.failed feed.old) (F.failed feed.new) }
{
    let mut class_room = [0; 255];
    let mut member_room = [0; 255];
    let kind = byte(feed, hash)?;
    let class_len = text(feed, hash, &mut class_room)?;
    let member_len = text(feed, hash, &mut member_room)?;
    let mark = byte(feed, hash)?;
    let (class, member) = (&class_room[..class_len], &member_room[..member_len]);
    match item_of(alloc, kind, class, member, mark) {
        Ok(Some(item)) => Ok(item),
        Ok(None) => Err(FeedFault::Breach(FileFault::BadKey(index))),
        Err(_) => Err(FeedFault::Memory),
    }
}

/// The key and the mark for what stands for them.
fn item_of(
    alloc: Global,
    kind: u8,
    class: &[u8],
    member: &[u8],
    mark: u8,
) -> Result<Option<Item>, AllocError>
    requires class { length class.now ≤ most_name_bytes }
    requires member { length member.now ≤ most_name_bytes }
    ensures { IfOk result (λ item. item
        ≡ item_with (key_with kind class.now member.now) (mark_with mark)) }
{
    let Some(key) = key_of(alloc, kind, class, member)? else {
        return Ok(None);
    };
    match mark_of(mark) {
        Some(mark) => Ok(Some(Item { key, mark })),
        None => Ok(None),
    }
}

/// The mark of this number.
fn mark_of(number: u8) -> Option<Mark>
    ensures { result ≡ mark_with number }
{
    Mark::from_number(number)
}

/// The kind of this number.
fn kind_of_number(number: u8) -> Option<Kind>
    ensures { result ≡ kind_with number }
{
    Kind::from_number(number)
}

/// The key of the kind of this number, with the names that there are.
#[tactic(auto, unfolding(crate::specs::Keys::key_with))]
fn key_of(alloc: Global, kind: u8, class: &[u8], member: &[u8]) -> Result<Option<Key>, AllocError>
    requires class { length class.now ≤ most_name_bytes }
    requires member { length member.now ≤ most_name_bytes }
    ensures { IfOk result (λ key. key ≡ key_with kind class.now member.now) }
{
    let Some(kind) = kind_of_number(kind) else {
        return Ok(None);
    };
    let (Some(class), Some(member)) = (as_text(class), as_text(member)) else {
        return Ok(None);
    };
    key_named(alloc, kind, class, member)
}

/// The key of a kind with these names, of which one that is missing has no bytes.
fn key_named(
    alloc: Global,
    kind: Kind,
    class: &str,
    member: &str,
) -> Result<Option<Key>, AllocError>
    requires class { length class.now ≤ most_name_bytes }
    requires member { length member.now ≤ most_name_bytes }
    ensures { IfOk result (λ key. key ≡ key_of_kind kind class.now member.now) }
{
    let class = Name::try_new(alloc, class)?;
    let member = Name::try_new(alloc, member)?;
    Ok(Key::new(kind, class, member))
}

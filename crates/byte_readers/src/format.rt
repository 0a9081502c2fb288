//! How items are written as bytes.
ghost use Rattle.std.specs.Prelude.{◌≡◌, ◌++◌, List, ℕ, OnOk, Bool};
ghost use Rattle.byte_readers.specs.Reading.{Decodes, Decoder};
ghost use Rattle.byte_readers.specs.Views.{View, ReadsAsSeen};
ghost use Rattle.byte_readers.specs.Lawful.{Lawful};

use crate::breach::ReadError;
use std::alloc::{AllocError, Global};

/// A format of items, each of which has one spelling in bytes.
pub trait Format {
    /// What is spelled.
    type Item: Drop;

    ghost Seen: { Type 0 };

    ghost view: { View Self.Item Seen };

    ghost is_storable: { Self.Item → Type 0 };

    ghost has_spelling: { Seen → Type 0 };

    ghost spelling: { Seen → List ℕ };

    ghost reading: { Decoder Seen };

    /// A storable item has a spelling.
    fn check(item: &Self::Item)
        requires { is_storable item.now }
        ensures { has_spelling (view.one item.now) };

    /// Writes an item behind what is written.
    fn write(out: &mut Vec<u8>, item: &Self::Item) -> Result<(), AllocError>
        ensures { OnOk result (out.new.items ≡ out.old.items ++ spelling (view.one item.now)) };

    /// Reads an item from the front of the bytes, and answers the bytes behind it too.
    fn read(alloc: Global, bytes: &[u8]) -> Result<(Self::Item, &[u8]), ReadError>
        ensures { Decodes view.one result (reading bytes.now) };

    ghost lawful: { Lawful reading spelling has_spelling };
}

/// A format of items in an order, which are read as they are seen.
pub trait Ordered: Format {
    ghost precedes: { Self.Item → Self.Item → Bool };

    ghost item_reading: { Decoder Self.Item };

    /// Whether an item comes before another one.
    fn precedes(item: &Self::Item, other: &Self::Item) -> bool
        ensures { result ≡ precedes item.now other.now };

    ghost tells: { ReadsAsSeen Self.Format.view.one Self.Format.reading item_reading };
}

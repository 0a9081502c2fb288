//! Lists of items: their number, and the items.
ghost use Rattle.std.specs.Prelude.{◌≡◌, ◌++◌, ◌<◌, ◌^◌, List, [], length, OnOk};
ghost use Rattle.std.specs.List.{AllByRecursion};
ghost use Rattle.byte_readers.specs.Spelling.{list};
ghost use Rattle.byte_readers.specs.Reading.{Decodes, list_at, list_from, any};
ghost use Rattle.byte_readers.specs.Orders.{is_after};

use crate::breach::ReadError;
use crate::fields::{not_canonical, put_eight, read_eight};
use crate::format::{Format, Ordered};
use std::alloc::{AllocError, Global};

/// The number of items has a spelling, and so has each storable item.
pub fn check_list<F: Format>(items: &[F::Item])
    requires { AllByRecursion F.is_storable items.now }
    ensures few { length items.now < 2 ^ 64 }
    ensures each { AllByRecursion F.has_spelling (F.view.all items.now) }
{
    let _few = items.len();
    for item in items {
        F::check(item);
    }
}

/// Writes the number of items, and the items.
pub fn put_list<F: Format>(out: &mut Vec<u8>, items: &[F::Item]) -> Result<(), AllocError>
    ensures { OnOk result (out.new.items
        ≡ out.old.items ++ list F.spelling (F.view.all items.now)) }
{
    put_eight(out, items.len())?;
    for item in items {
        F::write(out, item)?;
    }
    Ok(())
}

/// Reads a list.
#[tactic(auto, unfolding(crate::specs::Reading::list_at))]
pub fn read_list<F: Format>(alloc: Global, bytes: &[u8]) -> Result<(Vec<F::Item>, &[u8]), ReadError>
    ensures { Decodes (λ x. F.view.all x.items) result (list_at F.reading any bytes.now) }
{
    let (count, rest) = read_eight(bytes)?;
    read_items::<F>(alloc, count, rest)
}

fn read_items<F: Format>(
    alloc: Global,
    count: u64,
    bytes: &[u8],
) -> Result<(Vec<F::Item>, &[u8]), ReadError>
    ensures { Decodes (λ x. F.view.all x.items) result
        (list_from F.reading any [] count bytes.now) }
{
    let mut items = Vec::new(alloc);
    let mut rest = bytes;
    for _ in 0..count {
        let (item, after) = F::read(alloc, rest)?;
        items.push(item)?;
        rest = after;
    }
    items.shrink_to_fit();
    Ok((items, rest))
}

/// Reads a list in ascending order.
#[tactic(auto, unfolding(crate::specs::Reading::list_at))]
pub fn read_ascending<F: Ordered>(
    alloc: Global,
    bytes: &[u8],
) -> Result<(Vec<F::Item>, &[u8]), ReadError>
    ensures { Decodes (λ x. x.items) result
        (list_at F.item_reading (is_after F.precedes) bytes.now) }
{
    let (count, rest) = read_eight(bytes)?;
    read_ascending_items::<F>(alloc, count, rest)
}

fn read_ascending_items<F: Ordered>(
    alloc: Global,
    count: u64,
    bytes: &[u8],
) -> Result<(Vec<F::Item>, &[u8]), ReadError>
    ensures { Decodes (λ x. x.items) result
        (list_from F.item_reading (is_after F.precedes) [] count bytes.now) }
{
    let mut items = Vec::new(alloc);
    let mut rest = bytes;
    for _ in 0..count {
        let (item, after) = F::read(alloc, rest)?;
        let admitted = is_after::<F>(&items, &item);
        if !admitted {
            return Err(not_canonical(rest));
        }
        items.push(item)?;
        rest = after;
    }
    items.shrink_to_fit();
    Ok((items, rest))
}

/// Whether the item comes after the last of the items.
fn is_after<F: Ordered>(items: &[F::Item], item: &F::Item) -> bool
    ensures { result ≡ is_after F.precedes items.now item.now }
{
    match items.last() {
        None => true,
        Some(last) => F::precedes(last, item),
    }
}

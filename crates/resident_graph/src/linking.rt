//! Which places read a place.
ghost use Rattle.std.specs.Prelude.{◌≡◌, ◌≢◌, ◌↔◌, ℕ, ◌<◌, [], not, ◌==◌, filter, IsTrue, OnOk, OnErr, Contains, length};
ghost use Rattle.resident_graph.specs.Lists.{list_in, Widens, WidensBut, AreLinked};

use std::alloc::{AllocError, Global};
use std::mem;

/// Adds a reader to a place.
fn push_reader(readers: &mut Vec<Vec<usize>>, edge: usize, at: usize) -> Result<(), AllocError>
    ensures len { length readers.new.items ≡ length readers.old.items }
    ensures wider { Widens readers.old.items readers.new.items }
    ensures ok { OnOk result (edge < length readers.old.items
        → Contains (list_in readers.new.items edge) at) }
{
    if edge >= readers.len() {
        return Ok(());
    }
    readers[edge].push(at)?;
    Ok(())
}

/// Adds a reader to each of these places.
pub(crate) fn link(
    readers: &mut Vec<Vec<usize>>,
    edges: &[usize],
    at: usize,
) -> Result<(), AllocError>
    ensures len { length readers.new.items ≡ length readers.old.items }
    ensures wider { Widens readers.old.items readers.new.items }
    ensures ok { OnOk result ((e : ℕ) → Contains edges.now e → e < length readers.old.items
        → Contains (list_in readers.new.items e) at) }
{
    for edge in edges {
        push_reader(readers, *edge, at)?;
    }
    Ok(())
}

/// Leaves one place out.
fn without(places: &mut Vec<usize>, at: usize)
    ensures { places.new.items ≡ filter (λ i. not (i == at)) places.old.items }
{
    places.retain(|it| *it != at);
}

/// Takes a reader from a place.
fn remove_reader(readers: &mut Vec<Vec<usize>>, edge: usize, at: usize)
    ensures len { length readers.new.items ≡ length readers.old.items }
    ensures others { WidensBut at readers.old.items readers.new.items }
{
    if edge < readers.len() {
        without(&mut readers[edge], at);
    }
}

/// Takes a reader from each of these places.
fn unlink(readers: &mut Vec<Vec<usize>>, edges: &[usize], at: usize)
    ensures len { length readers.new.items ≡ length readers.old.items }
    ensures others { WidensBut at readers.old.items readers.new.items }
{
    for edge in edges {
        remove_reader(readers, *edge, at);
    }
}

/// Whether these are the same places, in the same order.
fn are_same(places: &[usize], others: &[usize]) -> bool
    ensures { IsTrue result ↔ (places.now ≡ others.now) }
{
    places == others
}

/// Gives a place other edges. Those that it had before don't have it among their readers any more, and those that it has
/// now have it there. If memory runs out it has no edges.
pub(crate) fn relink(
    alloc: Global,
    edges: &mut Vec<Vec<usize>>,
    readers: &mut Vec<Vec<usize>>,
    at: usize,
    new: Vec<usize>,
) -> Result<(), AllocError>
    requires within { at < length edges.old.items }
    requires linked { AreLinked edges.old.items readers.old.items at }
    ensures edges { length edges.new.items ≡ length edges.old.items }
    ensures others { (i : ℕ) → i ≢ at → list_in edges.new.items i ≡ list_in edges.old.items i }
    ensures len { length readers.new.items ≡ length readers.old.items }
    ensures readers { WidensBut at readers.old.items readers.new.items }
    ensures ok { OnOk result ((list_in edges.new.items at ≡ new.items)
        × AreLinked edges.new.items readers.new.items at) }
    ensures err { OnErr result (list_in edges.new.items at ≡ []) }
{
    if are_same(edges[at].as_slice(), new.as_slice()) {
        return Ok(());
    }
    let old = mem::replace(&mut edges[at], Vec::new(alloc));
    unlink(readers, old.as_slice(), at);
    link(readers, new.as_slice(), at)?;
    edges[at] = new;
    Ok(())
}

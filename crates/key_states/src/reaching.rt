//! The keys that a closing table keeps: those that the inputs and Answer lead to.
ghost use Rattle.std.specs.Prelude.{◌≡◌, ◌<◌, [], ◌∷◌, false, map, length, IfOk, OnOk};
ghost use Rattle.std.specs.List.{AllByRecursion};
ghost use Rattle.item_ids.specs.declared.key.Key.TheVariants.{Answer};
ghost use Rattle.graph_rules.specs.Steps.{IsDone};
ghost use Rattle.graph_rules.specs.Sound.{IsInOrder};
ghost use Rattle.key_states.specs.Nodes.{status_at, state_of_nodes, AreDoneInputs};
ghost use Rattle.key_states.specs.Reached.{key_in, AreRoots, AreReached, AreFound, AddsKeys};

use crate::edge_keys::EdgeKeys;
use crate::node_map::NodeMap;
use crate::nodes::entry_of;
use fingerprint::Sealed;
use indexmap::IndexSet;
use item_ids::Key;
use project_inputs::Inputs;
use sessions::Mark;
use std::alloc::{AllocError, Global};
use std::sync::Arc;

/// How a key that was found is done. Its edges are places among all keys that were found.
#[derive(Drop)]
pub struct Found<'a> {
    pub sealed: &'a Arc<Sealed>,
    pub mark: Mark,
    pub edges: Vec<usize>,
}

/// Just the keys that the inputs and Answer lead to, in the order in which they were found, and how each is done.
pub fn reach<'a>(
    alloc: Global,
    inputs: &'a Inputs,
    nodes: &'a NodeMap,
    none: &'a EdgeKeys,
) -> Result<(IndexSet<Key>, Vec<Found<'a>>), AllocError>
    requires none { none.now ≡ [] }
    requires inputs { AreDoneInputs inputs.now nodes.now }
    requires order { IsInOrder (state_of_nodes inputs.now nodes.now false) }
    requires answer { IsDone (status_at inputs.now nodes.now Answer) }
    ensures reached { IfOk result (λ both. AreReached inputs.now
        (state_of_nodes inputs.now nodes.now false) both.0.keys) }
    ensures found { IfOk result (λ both. AreFound (state_of_nodes inputs.now nodes.now false)
        both.0.keys both.1.items) }
    ensures count { IfOk result (λ both. length both.1.items ≡ length both.0.keys) }
{
    let mut keys = first_keys(alloc, inputs, nodes.len())?;
    let mut found = Vec::new(alloc);
    spread(alloc, inputs, nodes, none, &mut keys, &mut found)?;
    Ok((keys, found))
}

/// Adds all that the keys of the inputs, and Answer, lead to, and says how each key is done, in the set's order.
fn spread<'a>(
    alloc: Global,
    inputs: &'a Inputs,
    nodes: &'a NodeMap,
    none: &'a EdgeKeys,
    keys: &mut IndexSet<Key>,
    found: &mut Vec<Found<'a>>,
) -> Result<(), AllocError>
    requires none { none.now ≡ [] }
    requires inputs { AreDoneInputs inputs.now nodes.now }
    requires order { IsInOrder (state_of_nodes inputs.now nodes.now false) }
    requires answer { IsDone (status_at inputs.now nodes.now Answer) }
    requires roots { AreRoots inputs.now keys.old.keys }
    requires empty { found.old.items ≡ [] }
    ensures reached { OnOk result (AreReached inputs.now
        (state_of_nodes inputs.now nodes.now false) keys.new.keys) }
    ensures found { OnOk result (AreFound (state_of_nodes inputs.now nodes.now false)
        keys.new.keys found.new.items) }
    ensures count { OnOk result (length found.new.items ≡ length keys.new.keys) }
{
    found.reserve(nodes.len())?;
    for i in 0..usize::MAX {
        let Some(key) = keys.get_index(i) else {
            return Ok(());
        };
        let entry = entry_of(inputs, nodes, none, key);
        let edges = add(alloc, keys, entry.edges)?;
        found.push(Found {
            sealed: entry.sealed,
            mark: entry.mark,
            edges,
        })?;
    }
    // No set is longer than that.
    let _len = keys.len();
    Ok(())
}

/// The keys of the inputs, and Answer, in a set that has room for so many keys.
fn first_keys(alloc: Global, inputs: &Inputs, room: usize) -> Result<IndexSet<Key>, AllocError>
    ensures { IfOk result (λ set. AreRoots inputs.now set.keys) }
{
    let first = EdgeKeys::own(roots(alloc, inputs)?);
    set_of(alloc, &first, room)
}

/// These keys, in a set that has room for so many.
fn set_of(alloc: Global, first: &EdgeKeys, room: usize) -> Result<IndexSet<Key>, AllocError>
    ensures { IfOk result (λ set. AddsKeys [] first.now set.keys) }
{
    let mut keys = IndexSet::with_capacity(alloc, room)?;
    add(alloc, &mut keys, first)?;
    Ok(keys)
}

/// The keys of the inputs, and Answer.
fn roots(alloc: Global, inputs: &Inputs) -> Result<Vec<Key>, AllocError>
    ensures { IfOk result (λ v. AreRoots inputs.now v.items) }
{
    let mut keys = inputs.keys(alloc)?;
    keys.push(Key::Answer)?;
    Ok(keys)
}

/// Adds the edges that the set doesn't have yet, and gives the places of all.
fn add(alloc: Global, keys: &mut IndexSet<Key>, edges: &EdgeKeys) -> Result<Vec<usize>, AllocError>
    ensures adds { OnOk result (AddsKeys keys.old.keys edges.now keys.new.keys) }
    ensures same { IfOk result (λ v. map (key_in keys.new.keys) v.items ≡ edges.now) }
    ensures inside { IfOk result (λ v. AllByRecursion (λ e. e < length keys.new.keys) v.items) }
{
    let count = edges.len();
    let mut places = Vec::with_capacity(alloc, count)?;
    for i in 0..count {
        places.push(add_key(alloc, keys, edges.at(i))?)?;
    }
    Ok(places)
}

/// Adds a key, unless the set has it already, and gives its place.
fn add_key(alloc: Global, keys: &mut IndexSet<Key>, key: &Key) -> Result<usize, AllocError>
    ensures adds { OnOk result (AddsKeys keys.old.keys (key.now ∷ []) keys.new.keys) }
    ensures same { IfOk result (λ at. key_in keys.new.keys at ≡ key.now) }
    ensures inside { IfOk result (λ at. at < length keys.new.keys) }
{
    let (at, _) = keys.insert_full(key.copy(alloc)?)?;
    Ok(at)
}

//! How each key stands: the inputs first, then all keys that were asked for, in the order of their claims.
ghost use Rattle.std.specs.Prelude.{◌≡◌, ◌↔◌, ◌==◌, ◌<◌, [], IfSome, IfNone, IfOk, IsTrue, OnOk, OnErr, filter, length, not, if◌then◌else◌};
ghost use Rattle.std.specs.List.{AllByRecursion};
ghost use Rattle.item_ids.specs.declared.key.Key.{Key as KeyValue};
ghost use Rattle.item_ids.specs.Inputs.{rank};
ghost use Rattle.graph_rules.specs.Keys.{same_key};
ghost use Rattle.graph_rules.specs.Steps.{Unknown};
ghost use Rattle.key_states.specs.Closing.{IsQuiet};
ghost use Rattle.key_states.specs.Nodes.{status_of, status_in, AreOpened, KeysStandOnce, IsFirstNode, AllAbove};
ghost use Rattle.key_states.specs.PendingNodes.{ArePending, IsAboveAt, IsPendingAt};
ghost use Rattle.key_states.specs.Reached.{AllQuiet};

use crate::edge_keys::EdgeKeys;
use crate::nodes::{Standing, is_held_by, is_quiet};
use indexmap::IndexMap;
use item_ids::{Key, rank};
use project_inputs::Inputs;
use sessions::Mark;
use std::alloc::{AllocError, Global};
use std::marker::Model;
use std::sync::Arc;

/// How each key stands, the inputs first and then in the order of the claims, with the places of the keys that are
/// claimed or running.
pub struct NodeMap {
    nodes: IndexMap<Key, Standing>,
    pending: Vec<usize>,
}

impl Drop for NodeMap {
    fn drop(self) {
        let NodeMap {
            nodes: _,
            pending: _,
        } = self;
    }
}

impl Model for NodeMap {
    ghost use Rattle.std.specs.Prelude.{List};
    ghost use Rattle.item_ids.specs.declared.key.Key.{Key as KeyValue};
    ghost use Rattle.key_states.specs.Nodes.{KeysStandOnce};
    ghost use Rattle.key_states.specs.PendingNodes.{ArePending};
    ghost use Rattle.key_states.specs.declared.nodes.Standing.{Standing as StandingValue};
    ghost use Rattle.std.specs.Coded.{codes};
    ghost use Rattle.result_bytes.specs.contracts.value.Value as value_contracts;

    ghost Value = { List (KeyValue × StandingValue) };

    ghost coded = { Prim.hlevel (codes, value_contracts.the_row.coded) };

    ghost view = { λ map. map.nodes.entries };

    ghost invariant = { λ map. KeysStandOnce map.nodes.entries
        × ArePending map.nodes.entries map.pending.items };
}

impl NodeMap {
    /// No keys, and room for so many.
    fn with_room(alloc: Global, room: usize) -> Result<Self, AllocError>
        ensures { IfOk result (λ map. map ≡ []) }
    {
        let nodes = IndexMap::with_capacity(alloc, room)?;
        Ok(NodeMap {
            nodes,
            pending: Vec::new(alloc),
        })
    }

    /// The inputs of a project, all of them done, in a map that has room for so many keys.
    pub fn of_inputs(alloc: Global, inputs: &Inputs, room: usize) -> Result<Self, AllocError>
        ensures opened { IfOk result (AreOpened inputs.now) }
        ensures apart { IfOk result KeysStandOnce }
    {
        let keys = inputs.keys(alloc)?;
        let mut nodes = NodeMap::with_room(alloc, room)?;
        for key in &keys {
            nodes.add_input(alloc, inputs, key)?;
        }
        // No key stands twice, by the type of the nodes.
        nodes.check_apart();
        Ok(nodes)
    }

    /// One more input, if it is an input and new.
    fn add_input(&mut self, alloc: Global, inputs: &Inputs, key: &Key) -> Result<(), AllocError>
        requires { AreOpened inputs.now self.old }
        ensures { OnOk result (AreOpened inputs.now self.new) }
    {
        if let Some(_) = self.find(key) {
            return Ok(());
        }
        let Some(sealed) = inputs.get(key) else {
            return Ok(());
        };
        let shared = Arc::try_clone(sealed)?;
        let done = Standing::Done(shared, EdgeKeys::none(alloc), Mark::Input);
        add_done(alloc, &mut self.nodes, &self.pending, key, done)
    }

    /// No key stands twice.
    fn check_apart(&self)
        ensures { KeysStandOnce self.now }
    {
        let _pending = &self.pending;
    }

    /// How many keys there are.
    pub fn len(&self) -> usize
        ensures { result ≡ length self.now }
    {
        self.nodes.len()
    }

    /// The place of a key and how it stands, or `None` for a key that the map lacks.
    pub fn find(&self, key: &Key) -> Option<(usize, &Standing)>
        ensures none { IfNone result (status_in self.now key.now ≡ Unknown) }
        ensures first { IfSome result (λ r. IsFirstNode self.now key.now r.0) }
        ensures within { IfSome result (λ r. r.0 < length self.now) }
        ensures stands { IfSome result (λ r. status_in self.now key.now ≡ status_of r.1.now) }
    {
        match self.nodes.get_full(key) {
            Some((at, _, standing)) => Some((at, standing)),
            None => None,
        }
    }

    /// Whether the key's rank is below the ranks of all that the worker has claimed or runs.
    pub fn is_below(&self, w: u32, key: &Key) -> bool
        ensures { IsTrue result ↔ AllAbove w (rank key.now) self.now }
    {
        are_above(&self.nodes, self.pending.as_slice(), w, key)
    }

    /// Whether no key is claimed or running.
    pub fn is_quiet(&self) -> bool
        ensures { IsTrue result ↔ AllQuiet self.now }
    {
        self.pending.is_empty()
    }

    /// Sets how the key at a place stands. What is done isn't claimed or run again.
    pub fn put(&mut self, at: usize, standing: Standing)
        requires place { at < length self.old }
        requires pending { ¬ IsQuiet (status_of standing) → IsPendingAt self.old at }
        ensures written { (q k : KeyValue) → IsFirstNode self.old q at → status_in self.new k
            ≡ (if same_key q k then status_of standing else status_in self.old k) }
        ensures apart { KeysStandOnce self.old → KeysStandOnce self.new }
    {
        put_standing(&mut self.nodes, &mut self.pending, at, standing);
    }

    /// Adds a key. The insert is the last step that can be refused.
    pub fn add(&mut self, alloc: Global, key: &Key, standing: Standing) -> Result<(), AllocError>
        requires unknown { status_in self.old key.now ≡ Unknown }
        requires pending { ¬ IsQuiet (status_of standing) }
        ensures ok { OnOk result ((k : KeyValue) → status_in self.new k
            ≡ (if same_key key.now k then status_of standing else status_in self.old k)) }
        ensures err { OnErr result (self.new ≡ self.old) }
        ensures apart { KeysStandOnce self.new }
    {
        add_node(alloc, &mut self.nodes, &mut self.pending, key, standing)
    }
}

/// Whether the ranks of all at these places that the worker has claimed or runs are above the key's.
fn are_above(nodes: &IndexMap<Key, Standing>, pending: &[usize], w: u32, key: &Key) -> bool
    requires { AllByRecursion (λ i. i < length nodes.now.entries) pending.now }
    ensures { IsTrue result
        ↔ AllByRecursion (IsAboveAt w (rank key.now) nodes.now.entries) pending.now }
{
    let wanted = rank(key.kind());
    for at in pending {
        if !is_above_at(nodes, *at, w, wanted) {
            return false;
        }
    }
    true
}

/// Whether the rank of the key at a place is above this one, if the worker has claimed it or runs it.
fn is_above_at(nodes: &IndexMap<Key, Standing>, at: usize, w: u32, wanted: u8) -> bool
    requires { at < length nodes.now.entries }
    ensures { IsTrue result ↔ IsAboveAt w wanted nodes.now.entries at }
{
    let Some((key, standing)) = nodes.get_index(at) else {
        unreachable!();
    };
    if !is_held_by(standing, w) {
        return true;
    }
    if rank(key.kind()) <= wanted {
        return false;
    }
    true
}

/// Sets how the key at a place stands; no key moves.
fn put_standing(
    nodes: &mut IndexMap<Key, Standing>,
    pending: &mut Vec<usize>,
    at: usize,
    standing: Standing,
)
    requires place { at < length nodes.old.entries }
    requires kept { ¬ IsQuiet (status_of standing) → IsPendingAt nodes.old.entries at }
    requires pending { ArePending nodes.old.entries pending.old.items }
    ensures pending { ArePending nodes.new.entries pending.new.items }
    ensures written { (q k : KeyValue) → IsFirstNode nodes.old.entries q at
        → status_in nodes.new.entries k
        ≡ (if same_key q k then status_of standing else status_in nodes.old.entries k) }
    ensures apart { KeysStandOnce nodes.old.entries → KeysStandOnce nodes.new.entries }
{
    if is_quiet(&standing) {
        without(pending, at);
    }
    nodes[at] = standing;
}

/// Leaves one place out.
fn without(places: &mut Vec<usize>, at: usize)
    ensures { places.new.items ≡ filter (λ i. not (i == at)) places.old.items }
{
    places.retain(|it| *it != at);
}

/// Adds a key and how it stands, and its place to the pending ones.
fn add_node(
    alloc: Global,
    nodes: &mut IndexMap<Key, Standing>,
    pending: &mut Vec<usize>,
    key: &Key,
    standing: Standing,
) -> Result<(), AllocError>
    requires apart { KeysStandOnce nodes.old.entries }
    requires pending { ArePending nodes.old.entries pending.old.items }
    requires unknown { status_in nodes.old.entries key.now ≡ Unknown }
    requires stands { ¬ IsQuiet (status_of standing) }
    ensures apart { KeysStandOnce nodes.new.entries }
    ensures pending { ArePending nodes.new.entries pending.new.items }
    ensures ok { OnOk result ((k : KeyValue) → status_in nodes.new.entries k
        ≡ (if same_key key.now k then status_of standing else status_in nodes.old.entries k)) }
    ensures err { OnErr result (nodes.new.entries ≡ nodes.old.entries) }
{
    pending.reserve(1)?;
    let own = key.copy(alloc)?;
    let at = nodes.len();
    nodes.insert(own, standing)?;
    pending.push_reserved(at);
    Ok(())
}

/// Adds a key that is done.
fn add_done(
    alloc: Global,
    nodes: &mut IndexMap<Key, Standing>,
    pending: &Vec<usize>,
    key: &Key,
    standing: Standing,
) -> Result<(), AllocError>
    requires apart { KeysStandOnce nodes.old.entries }
    requires pending { ArePending nodes.old.entries pending.now.items }
    requires unknown { status_in nodes.old.entries key.now ≡ Unknown }
    requires quiet { IsQuiet (status_of standing) }
    ensures apart { KeysStandOnce nodes.new.entries }
    ensures pending { ArePending nodes.new.entries pending.now.items }
    ensures ok { OnOk result ((k : KeyValue) → status_in nodes.new.entries k
        ≡ (if same_key key.now k then status_of standing else status_in nodes.old.entries k)) }
{
    let own = key.copy(alloc)?;
    match nodes.insert(own, standing) {
        Ok(_) => Ok(()),
        Err(refused) => Err(AllocError::from(refused)),
    }
}

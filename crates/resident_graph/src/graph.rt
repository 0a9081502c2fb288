//! A graph of results, and what happens to its places.
ghost use Rattle.std.specs.Prelude.{◌≡◌, ◌≢◌, ℕ, ◌<◌, [], true, false, vec_len, vec_capacity, OnOk, Some, length};
ghost use Rattle.std.specs.Arc.{arc_value};
ghost use Rattle.item_ids.specs.declared.key.Key.{Key as KeyValue};
ghost use Rattle.item_ids.specs.Inputs.{rank};
ghost use Rattle.recorder.specs.Projects.{Project};
ghost use Rattle.recorder.specs.Programs.{Prog};
ghost use Rattle.graph_rules.specs.Keys.{input_of};
ghost use Rattle.resident_graph.specs.Lists.{key_in, value_in, flag_in, IsQueue, AreNoFewer};
ghost use Rattle.resident_graph.specs.Runs.{IsValueOf};
ghost use Rattle.resident_graph.specs.Graphs.{KeepsGraph, IsPushed};

use crate::linking::{link, relink};
use crate::queueing::{announce, queue_place};
use crate::running::place_of;
use edited_inputs::EditedInputs;
use fingerprint::Sealed;
use indexmap::IndexSet;
use item_ids::Key;
use keeping::Keeping;
use profiles::Profile;
use std::alloc::{AllocError, Global};
use std::sync::Arc;

/// At each place a key with its value, the places that were read for it, those that read it, and whether it is queued to
/// be looked at again. The queue has a level for each rank.
#[derive(Drop)]
pub struct Graph {
    pub(crate) keys: IndexSet<Key>,
    pub(crate) values: Vec<Arc<Sealed>>,
    pub(crate) edges: Vec<Vec<usize>>,
    pub(crate) readers: Vec<Vec<usize>>,
    pub(crate) queued: Vec<bool>,
    pub(crate) queue: Vec<Vec<usize>>,
}

impl Graph {
    /// A graph without places.
    pub fn new(alloc: Global) -> Self
        ensures { (prog_of : KeyValue → Prog) (p : Project) → KeepsGraph prog_of p result }
    {
        empty_graph(alloc)
    }
}

/// A graph whose lists are empty.
fn empty_graph(alloc: Global) -> Graph
    ensures keys { result.keys.keys ≡ [] }
    ensures values { result.values.items ≡ [] }
    ensures edges { result.edges.items ≡ [] }
    ensures readers { result.readers.items ≡ [] }
    ensures queued { result.queued.items ≡ [] }
    ensures queue { result.queue.items ≡ [] }
{
    Graph {
        keys: IndexSet::new(alloc),
        values: Vec::new(alloc),
        edges: Vec::new(alloc),
        readers: Vec::new(alloc),
        queued: Vec::new(alloc),
        queue: Vec::new(alloc),
    }
}

/// A queued place takes a value, which is announced to its readers, and isn't queued any more.
pub(crate) fn put<R: Keeping>(
    alloc: Global,
    graph: &mut Graph,
    profile: Profile,
    inputs: &EditedInputs,
    at: usize,
    sealed: Arc<Sealed>,
    edges: Vec<usize>,
) -> Result<(), AllocError>
    requires keeps { KeepsGraph (R.programs profile) inputs.now graph.old }
    requires within { at < length graph.old.keys.keys }
    requires queued { flag_in graph.old.queued.items at ≡ true }
    requires value { IsValueOf (R.programs profile) inputs.now graph.old.keys.keys
        graph.old.values.items (key_in graph.old.keys.keys at) (arc_value sealed) edges.items }
    ensures { KeepsGraph (R.programs profile) inputs.now graph.new }
{
    announce::<R>(
        alloc,
        &mut graph.queue,
        &mut graph.queued,
        &graph.keys,
        graph.values.as_slice(),
        graph.readers[at].as_slice(),
        at,
        &sealed,
    )?;
    relink(alloc, &mut graph.edges, &mut graph.readers, at, edges)?;
    graph.values[at] = sealed;
    graph.queued[at] = false;
    Ok(())
}

/// Makes room for one more place.
fn make_room(graph: &mut Graph) -> Result<(), AllocError>
    ensures keys { graph.new.keys.keys ≡ graph.old.keys.keys }
    ensures values { graph.new.values.items ≡ graph.old.values.items }
    ensures edges { graph.new.edges.items ≡ graph.old.edges.items }
    ensures readers { graph.new.readers.items ≡ graph.old.readers.items }
    ensures queued { graph.new.queued.items ≡ graph.old.queued.items }
    ensures queue { graph.new.queue.items ≡ graph.old.queue.items }
    ensures room { OnOk result ((vec_len graph.new.values < vec_capacity graph.new.values)
        × (vec_len graph.new.edges < vec_capacity graph.new.edges)
        × (vec_len graph.new.readers < vec_capacity graph.new.readers)
        × (vec_len graph.new.queued < vec_capacity graph.new.queued)) }
{
    graph.values.reserve(1)?;
    graph.edges.reserve(1)?;
    graph.readers.reserve(1)?;
    graph.queued.reserve(1)?;
    Ok(())
}

/// Takes the key of one more place, unless it has one, in a graph that has room for it.
fn push_node(
    graph: &mut Graph,
    key: Key,
    sealed: Arc<Sealed>,
    edges: Vec<usize>,
    readers: Vec<usize>,
) -> Result<(), AllocError>
    requires values { vec_len graph.old.values < vec_capacity graph.old.values }
    requires edges { vec_len graph.old.edges < vec_capacity graph.old.edges }
    requires readers { vec_len graph.old.readers < vec_capacity graph.old.readers }
    requires queued { vec_len graph.old.queued < vec_capacity graph.old.queued }
    ensures { IsPushed key sealed edges readers graph.old graph.new }
{
    let (_, is_new) = graph.keys.insert_full(key)?;
    if is_new {
        graph.values.push_reserved(sealed);
        graph.edges.push_reserved(edges);
        graph.readers.push_reserved(readers);
        graph.queued.push_reserved(false);
    }
    Ok(())
}

/// Adds a place for a key, unless it has one.
pub(crate) fn add<R: Keeping>(
    alloc: Global,
    graph: &mut Graph,
    profile: Profile,
    inputs: &EditedInputs,
    key: Key,
    sealed: Arc<Sealed>,
    edges: Vec<usize>,
) -> Result<(), AllocError>
    requires keeps { KeepsGraph (R.programs profile) inputs.now graph.old }
    requires value { IsValueOf (R.programs profile) inputs.now graph.old.keys.keys
        graph.old.values.items key (arc_value sealed) edges.items }
    ensures { KeepsGraph (R.programs profile) inputs.now graph.new }
{
    let at = graph.keys.len();
    link(&mut graph.readers, edges.as_slice(), at)?;
    make_room(graph)?;
    push_node(graph, key, sealed, edges, Vec::new(alloc))
}

/// Queues the place of a key, if it has one.
pub fn queue_key<R: Keeping>(
    alloc: Global,
    graph: &mut Graph,
    profile: Profile,
    inputs: &EditedInputs,
    key: &Key,
) -> Result<(), AllocError>
    requires { KeepsGraph (R.programs profile) inputs.now graph.old }
    ensures keeps { KeepsGraph (R.programs profile) inputs.now graph.new }
    ensures ok { OnOk result ((i : ℕ) → i < length graph.new.keys.keys
        → flag_in graph.new.queued.items i ≡ false → key_in graph.new.keys.keys i ≢ key.now) }
{
    let Some(at) = place_of(&graph.keys, key) else {
        return Ok(());
    };
    queue_place(alloc, &mut graph.queue, &mut graph.queued, &graph.keys, at)
}

/// Whether a place has a value that isn't the one of an input.
fn is_stale(keys: &IndexSet<Key>, values: &[Arc<Sealed>], inputs: &EditedInputs, at: usize) -> bool
    ensures { result ≡ false → at < length keys.now.keys → at < length values.now
        → rank (key_in keys.now.keys at) ≡ 0
        → input_of inputs.now (key_in keys.now.keys at) ≡ Some (value_in values.now at) }
{
    let Some(key) = keys.get_index(at) else {
        return false;
    };
    let Some(input) = inputs.get(key) else {
        return false;
    };
    at < values.len() && !values[at].same_result(input)
}

/// Queues each input whose value is another in these inputs.
pub fn queue_changed_inputs<R: Keeping>(
    alloc: Global,
    graph: &mut Graph,
    profile: Profile,
    inputs: &EditedInputs,
    new: &EditedInputs,
) -> Result<(), AllocError>
    requires { KeepsGraph (R.programs profile) inputs.now graph.old }
    ensures keeps { KeepsGraph (R.programs profile) inputs.now graph.new }
    ensures ok { OnOk result (KeepsGraph (R.programs profile) new.now graph.new) }
{
    queue_stale(
        alloc,
        &mut graph.queue,
        &mut graph.queued,
        &graph.keys,
        graph.values.as_slice(),
        new,
    )
}

/// Queues a place, if it has another value than the input of its key.
fn queue_if_stale(
    alloc: Global,
    queue: &mut Vec<Vec<usize>>,
    queued: &mut Vec<bool>,
    keys: &IndexSet<Key>,
    values: &[Arc<Sealed>],
    inputs: &EditedInputs,
    at: usize,
) -> Result<(), AllocError>
    requires within { at < length keys.now.keys }
    requires values { length values.now ≡ length keys.now.keys }
    requires len { length queued.old.items ≡ length keys.now.keys }
    requires queue { IsQueue keys.now.keys queued.old.items queue.old.items }
    ensures queue { IsQueue keys.now.keys queued.new.items queue.new.items }
    ensures len { length queued.new.items ≡ length queued.old.items }
    ensures more { AreNoFewer queued.old.items queued.new.items }
    ensures ok { OnOk result (rank (key_in keys.now.keys at) ≡ 0
        → flag_in queued.new.items at ≡ false
        → input_of inputs.now (key_in keys.now.keys at) ≡ Some (value_in values.now at)) }
{
    if !is_stale(keys, values, inputs, at) {
        return Ok(());
    }
    queue_place(alloc, queue, queued, keys, at)
}

/// Queues each place that has another value than the input of its key.
fn queue_stale(
    alloc: Global,
    queue: &mut Vec<Vec<usize>>,
    queued: &mut Vec<bool>,
    keys: &IndexSet<Key>,
    values: &[Arc<Sealed>],
    inputs: &EditedInputs,
) -> Result<(), AllocError>
    requires values { length values.now ≡ length keys.now.keys }
    requires len { length queued.old.items ≡ length keys.now.keys }
    requires queue { IsQueue keys.now.keys queued.old.items queue.old.items }
    ensures queue { IsQueue keys.now.keys queued.new.items queue.new.items }
    ensures len { length queued.new.items ≡ length queued.old.items }
    ensures more { AreNoFewer queued.old.items queued.new.items }
    ensures ok { OnOk result ((i : ℕ) → i < length keys.now.keys
        → rank (key_in keys.now.keys i) ≡ 0 → flag_in queued.new.items i ≡ false
        → input_of inputs.now (key_in keys.now.keys i) ≡ Some (value_in values.now i)) }
{
    for at in 0..keys.len() {
        queue_if_stale(alloc, queue, queued, keys, values, inputs, at)?;
    }
    Ok(())
}

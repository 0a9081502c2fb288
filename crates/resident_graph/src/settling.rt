//! Work on what is queued.
ghost use Rattle.std.specs.Prelude.{◌≡◌, ℕ, ◌<◌, ◌≤◌, true, false, OnOk, IfOk, length};
ghost use Rattle.std.specs.Arc.{arc_value};
ghost use Rattle.item_ids.specs.Inputs.{rank as rank_of};
ghost use Rattle.named_files.specs.Projects.{IsProject};
ghost use Rattle.resident_graph.specs.Lists.{key_in, flag_in};
ghost use Rattle.resident_graph.specs.Graphs.{KeepsGraph};

use crate::graph::{Graph, add, put};
use crate::queueing::next_queued;
use crate::running::{Evaluated, evaluate, place_of, share};
use edited_inputs::EditedInputs;
use fingerprint::Sealed;
use item_ids::{Key, rank};
use keeping::Keeping;
use profiles::Profile;
use std::alloc::{AllocError, Global};
use std::sync::Arc;

/// Adds a place for a key, unless it has one, or gives a key that has to have one before.
fn bring_one<R: Keeping>(
    alloc: Global,
    graph: &mut Graph,
    runner: &mut R,
    profile: Profile,
    inputs: &EditedInputs,
    key: Key,
) -> Result<Option<Key>, AllocError>
    requires { KeepsGraph (R.programs profile) inputs.now graph.old }
    ensures { KeepsGraph (R.programs profile) inputs.now graph.new }
{
    if place_of(&graph.keys, &key).is_some() {
        return Ok(None);
    }
    match evaluate(
        alloc,
        runner,
        profile,
        inputs,
        &graph.keys,
        graph.values.as_slice(),
        &key,
        None,
    )? {
        Evaluated::Lacks(lacked) => Ok(Some(lacked)),
        Evaluated::Done(sealed, edges) => {
            add::<R>(alloc, graph, profile, inputs, key, sealed, edges)?;
            Ok(None)
        }
    }
}

/// Adds a place for a key, unless it has one, and before it for those that it lacks.
fn bring<R: Keeping>(
    alloc: Global,
    graph: &mut Graph,
    runner: &mut R,
    profile: Profile,
    inputs: &EditedInputs,
    wanted: Key,
) -> Result<(), AllocError>
    requires { KeepsGraph (R.programs profile) inputs.now graph.old }
    ensures { KeepsGraph (R.programs profile) inputs.now graph.new }
{
    let mut open = Vec::new(alloc);
    open.push(wanted)?;
    for _ in 0..usize::MAX {
        let Some(key) = open.last() else {
            return Ok(());
        };
        let copy = key.copy(alloc)?;
        match bring_one(alloc, graph, runner, profile, inputs, copy)? {
            Some(lacked) => open.push(lacked)?,
            None => {
                open.pop();
            }
        }
    }
    Err(AllocError)
}

/// Looks at a queued place again, or gives a key that has to have a place before.
fn work_at<R: Keeping>(
    alloc: Global,
    graph: &mut Graph,
    runner: &mut R,
    profile: Profile,
    inputs: &EditedInputs,
    at: usize,
) -> Result<Option<Key>, AllocError>
    requires keeps { KeepsGraph (R.programs profile) inputs.now graph.old }
    requires queued { flag_in graph.old.queued.items at ≡ true }
    ensures { KeepsGraph (R.programs profile) inputs.now graph.new }
{
    let Some(key) = graph.keys.get_index(at) else {
        return Err(AllocError);
    };
    let known = Some(&graph.values[at]);
    match evaluate(
        alloc,
        runner,
        profile,
        inputs,
        &graph.keys,
        graph.values.as_slice(),
        key,
        known,
    )? {
        Evaluated::Lacks(lacked) => Ok(Some(lacked)),
        Evaluated::Done(sealed, edges) => {
            put::<R>(alloc, graph, profile, inputs, at, sealed, edges)?;
            Ok(None)
        }
    }
}

/// Works through the places that are queued, up to a rank.
fn settle<R: Keeping>(
    alloc: Global,
    graph: &mut Graph,
    runner: &mut R,
    profile: Profile,
    inputs: &EditedInputs,
    bound: usize,
) -> Result<(), AllocError>
    requires { KeepsGraph (R.programs profile) inputs.now graph.old }
    ensures keeps { KeepsGraph (R.programs profile) inputs.now graph.new }
    ensures rest { OnOk result ((i : ℕ) → rank_of (key_in graph.new.keys.keys i) ≤ bound
        → flag_in graph.new.queued.items i ≡ false) }
{
    for _ in 0..usize::MAX {
        let Some(at) = next_queued(
            &mut graph.queue,
            graph.queued.as_slice(),
            &graph.keys,
            bound,
        ) else {
            return Ok(());
        };
        if let Some(lacked) = work_at(alloc, graph, runner, profile, inputs, at)? {
            bring(alloc, graph, runner, profile, inputs, lacked)?;
        }
    }
    Err(AllocError)
}

/// Adds a place for a key that has none, over values that are settled.
fn reach<R: Keeping>(
    alloc: Global,
    graph: &mut Graph,
    runner: &mut R,
    profile: Profile,
    inputs: &EditedInputs,
    key: &Key,
) -> Result<(), AllocError>
    requires { KeepsGraph (R.programs profile) inputs.now graph.old }
    ensures { KeepsGraph (R.programs profile) inputs.now graph.new }
{
    if place_of(&graph.keys, key).is_some() {
        return Ok(());
    }
    settle(
        alloc,
        graph,
        runner,
        profile,
        inputs,
        rank(key.kind()) as usize,
    )?;
    let wanted = key.copy(alloc)?;
    bring(alloc, graph, runner, profile, inputs, wanted)
}

/// What a key means in the project of now. Of what is queued only what is of no higher rank is worked through. If memory
/// runs out, the graph keeps what was done.
pub fn result_in<R: Keeping>(
    alloc: Global,
    graph: &mut Graph,
    runner: &mut R,
    profile: Profile,
    inputs: &EditedInputs,
    key: &Key,
) -> Result<Arc<Sealed>, AllocError>
    requires { KeepsGraph (R.programs profile) inputs.now graph.old }
    ensures keeps { KeepsGraph (R.programs profile) inputs.now graph.new }
    ensures means { IfOk result (λ a. R.queries.mean profile inputs.now key.now ≡ arc_value a) }
{
    reach(alloc, graph, runner, profile, inputs, key)?;
    settle(
        alloc,
        graph,
        runner,
        profile,
        inputs,
        rank(key.kind()) as usize,
    )?;
    // The inputs are those of a project, by their type.
    inputs.project();
    let Some(at) = place_of(&graph.keys, key) else {
        return Err(AllocError);
    };
    if at >= graph.values.len() {
        return Err(AllocError);
    }
    share(&graph.values[at])
}

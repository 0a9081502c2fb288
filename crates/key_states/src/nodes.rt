//! How keys stand that were asked for.
ghost use Rattle.std.specs.Prelude.{◌≡◌, ◌↔◌, ◌<◌, [], length, IsTrue, IfSome, IfNone};
ghost use Rattle.std.specs.Arc.{arc_value};
ghost use Rattle.graph_rules.specs.Steps.{Claimed, Running, Done, IsHeldBy, IsDone, IsDoneWith, IsNotDone, at_opening};
ghost use Rattle.graph_rules.specs.Keys.{input_of};
ghost use Rattle.key_states.specs.Nodes.{status_of, status_in, status_at, AreDoneInputs, IsFirstNode};
ghost use Rattle.key_states.specs.Closing.{IsQuiet};
ghost use Rattle.key_states.specs.KeyStates.{IsKeyState};

use crate::edge_keys::EdgeKeys;
use crate::node_map::NodeMap;
use fingerprint::Sealed;
use item_ids::Key;
use project_inputs::Inputs;
use sessions::Mark;
use std::sync::Arc;

/// How a key stands that was asked for.
pub enum Standing {
    Claimed(u32),
    Running(u32),
    Done(Arc<Sealed>, EdgeKeys, Mark),
}

impl Drop for Standing {
    fn drop(self) {
        match self {
            Standing::Claimed(_) | Standing::Running(_) | Standing::Done(_, _, _) => {}
        }
    }
}

/// Whether the worker has claimed the key or runs it.
pub fn is_held_by(standing: &Standing, w: u32) -> bool
    ensures { IsTrue result ↔ IsHeldBy w (status_of standing.now) }
{
    match standing {
        Standing::Claimed(by) => *by == w,
        Standing::Running(by) => *by == w,
        Standing::Done(_, _, _) => false,
    }
}

/// How a key stands, as callers see it.
#[derive(Clone, Copy)]
pub enum KeyState<'a> {
    /// It is done, with this result.
    Done(&'a Arc<Sealed>),
    /// A worker has claimed it or runs it.
    Pending,
    /// Nobody has asked for it.
    Unknown,
}

/// How a key stands, inputs included.
pub fn key_state<'a>(inputs: &'a Inputs, nodes: &'a NodeMap, key: &Key) -> KeyState<'a>
    requires { AreDoneInputs inputs.now nodes.now }
    ensures { IsKeyState inputs.now nodes.now key.now result }
{
    let Some((_, standing)) = nodes.find(key) else {
        return match inputs.get(key) {
            Some(sealed) => KeyState::Done(sealed),
            None => KeyState::Unknown,
        };
    };
    match standing {
        Standing::Done(sealed, _, _) => KeyState::Done(sealed),
        Standing::Claimed(_) => KeyState::Pending,
        Standing::Running(_) => KeyState::Pending,
    }
}

/// The result of a key that is done.
pub fn result_of<'a>(inputs: &'a Inputs, nodes: &'a NodeMap, key: &Key) -> Option<&'a Arc<Sealed>>
    requires { AreDoneInputs inputs.now nodes.now }
    ensures none { IfNone result (IsNotDone (status_at inputs.now nodes.now key.now)) }
    ensures some { IfSome result (λ a. IsDoneWith (arc_value a.now)
        (status_at inputs.now nodes.now key.now)) }
{
    match key_state(inputs, nodes, key) {
        KeyState::Done(sealed) => Some(sealed),
        KeyState::Pending => None,
        KeyState::Unknown => None,
    }
}

/// How a key is done: its result, the keys that were read for it, and its mark.
#[derive(Clone, Copy)]
pub struct Entry<'a> {
    pub sealed: &'a Arc<Sealed>,
    pub edges: &'a EdgeKeys,
    pub mark: Mark,
}

/// How a key is done. None were read for an input.
pub fn entry_of<'a>(
    inputs: &'a Inputs,
    nodes: &'a NodeMap,
    none: &'a EdgeKeys,
    key: &Key,
) -> Entry<'a>
    requires none { none.now ≡ [] }
    requires inputs { AreDoneInputs inputs.now nodes.now }
    requires done { IsDone (status_at inputs.now nodes.now key.now) }
    ensures { status_at inputs.now nodes.now key.now
        ≡ Done (arc_value result.sealed.now) result.edges.now result.mark }
{
    let Some((_, standing)) = nodes.find(key) else {
        return input_entry(inputs, none, key);
    };
    match standing {
        Standing::Done(sealed, edges, mark) => Entry {
            sealed,
            edges,
            mark: *mark,
        },
        Standing::Claimed(_) => unreachable!(),
        Standing::Running(_) => unreachable!(),
    }
}

/// How an input is done that isn't among the nodes.
fn input_entry<'a>(inputs: &'a Inputs, none: &'a EdgeKeys, key: &Key) -> Entry<'a>
    requires none { none.now ≡ [] }
    requires done { IsDone (at_opening (input_of inputs.now key.now)) }
    ensures { at_opening (input_of inputs.now key.now)
        ≡ Done (arc_value result.sealed.now) result.edges.now result.mark }
{
    let Some(sealed) = inputs.get(key) else {
        unreachable!();
    };
    Entry {
        sealed,
        edges: none,
        mark: Mark::Input,
    }
}

/// Whether a key that stands like this is neither claimed nor running.
pub fn is_quiet(standing: &Standing) -> bool
    ensures { IsTrue result ↔ IsQuiet (status_of standing.now) }
{
    match standing {
        Standing::Done(_, _, _) => true,
        Standing::Claimed(_) => false,
        Standing::Running(_) => false,
    }
}

/// The place of a key, if the worker has claimed it.
pub fn find_claimed(nodes: &NodeMap, w: u32, key: &Key) -> Option<usize>
    ensures none { IfNone result (status_in nodes.now key.now ≡ Claimed w → ⊥) }
    ensures some { IfSome result (λ i. IsFirstNode nodes.now key.now i
        × (i < length nodes.now)) }
    ensures claimed { IfSome result (λ _. status_in nodes.now key.now ≡ Claimed w) }
{
    let (at, standing) = nodes.find(key)?;
    if is_claimed(standing, w) {
        Some(at)
    } else {
        None
    }
}

fn is_claimed(standing: &Standing, w: u32) -> bool
    ensures { IsTrue result ↔ (status_of standing.now ≡ Claimed w) }
{
    match standing {
        Standing::Claimed(by) => *by == w,
        Standing::Running(_) => false,
        Standing::Done(_, _, _) => false,
    }
}

/// The place of a key, if the worker runs it.
pub fn find_running(nodes: &NodeMap, w: u32, key: &Key) -> Option<usize>
    ensures none { IfNone result (status_in nodes.now key.now ≡ Running w → ⊥) }
    ensures some { IfSome result (λ i. IsFirstNode nodes.now key.now i
        × (i < length nodes.now)) }
    ensures running { IfSome result (λ _. status_in nodes.now key.now ≡ Running w) }
{
    let (at, standing) = nodes.find(key)?;
    if is_running(standing, w) {
        Some(at)
    } else {
        None
    }
}

fn is_running(standing: &Standing, w: u32) -> bool
    ensures { IsTrue result ↔ (status_of standing.now ≡ Running w) }
{
    match standing {
        Standing::Claimed(_) => false,
        Standing::Running(by) => *by == w,
        Standing::Done(_, _, _) => false,
    }
}

//! Reserves the memory that a call needs, before the call changes anything, and makes the changes that follow.
ghost use Rattle.std.specs.Prelude.{◌≡◌, ◌+◌, ◌<◌, ◌≤◌, ◌++◌, ◌∷◌, [], IfOk, IfSome, OnOk, OnErr, if◌then◌else◌, length, map, slice_index_or, vec_len, vec_capacity};
ghost use Rattle.std.specs.Arc.{arc_value};
ghost use Rattle.item_ids.specs.declared.key.Key.{Key as KeyValue};
ghost use Rattle.recorder.specs.Backed.{keys};
ghost use Rattle.recorder.specs.Runs.{IsOutcome};
ghost use Rattle.sessions.specs.Sessions.{key_at, session_in};
ghost use Rattle.sessions.specs.declared.mark.Mark.TheVariants.{Green};
ghost use Rattle.graph_rules.specs.Keys.{same_key};
ghost use Rattle.graph_rules.specs.Steps.{Unknown, Claimed, Done, Claim, MarkGreen, Begin};
ghost use Rattle.key_states.specs.Nodes.{status_in, AreOpened, KeysStandOnce, IsFirstNode};
ghost use Rattle.job_table.specs.Kept.{event_of};

use crate::event::Event;
use fingerprint::Sealed;
use item_ids::Key;
use key_states::{EdgeKeys, NodeMap, Standing};
use project_inputs::Inputs;
use recorder::{Outcome, Read, Runner};
use sessions::{Mark, Record, Session};
use std::alloc::{AllocError, Global};
use std::sync::Arc;

/// Adds an event, for which there is room.
pub fn note<R: Runner>(history: &mut Vec<Event<R>>, event: Event<R>)
    requires { vec_len history.old < vec_capacity history.old }
    ensures events { map event_of history.new.items ≡ map event_of history.old.items
        ++ event_of event ∷ [] }
    ensures len { vec_len history.new ≡ vec_len history.old + 1 }
    ensures capacity { vec_capacity history.new ≡ vec_capacity history.old }
{
    history.push_reserved(event);
}

/// How many records the previous session has.
fn past_len(past: &Option<Arc<Session>>) -> usize
    ensures { IfSome (session_in past.now) (λ s. result ≡ length s.records) }
{
    match past {
        Some(past) => past.records().len(),
        None => 0,
    }
}

/// A history with room for two events for each record of the previous session, and for one more.
fn room_for_history<R: Runner>(
    alloc: Global,
    past: &Option<Arc<Session>>,
) -> Result<Vec<Event<R>>, AllocError>
    ensures { IfOk result (λ v. (v.items ≡ []) × (vec_len v < vec_capacity v)) }
{
    let events = past_len(past).saturating_mul(2).saturating_add(1);
    Vec::with_capacity(alloc, events)
}

/// The nodes of a table that is opened, and its history without events.
pub fn room_at_opening<R: Runner>(
    alloc: Global,
    inputs: &Inputs,
    past: &Option<Arc<Session>>,
) -> Result<(NodeMap, Vec<Event<R>>), AllocError>
    ensures opened { IfOk result (λ r. AreOpened inputs.now r.0) }
    ensures apart { IfOk result (λ r. KeysStandOnce r.0) }
    ensures events { IfOk result (λ r. r.1.items ≡ []) }
    ensures room { IfOk result (λ r. vec_len r.1 < vec_capacity r.1) }
{
    let nodes = NodeMap::of_inputs(alloc, inputs, past_len(past))?;
    let history = room_for_history(alloc, past)?;
    Ok((nodes, history))
}

/// Claims an unknown key for a worker and notes that, with room for one more event. If memory runs out, neither the
/// nodes nor the events change.
pub fn claim<R: Runner>(
    alloc: Global,
    nodes: &mut NodeMap,
    history: &mut Vec<Event<R>>,
    w: u32,
    key: &Key,
) -> Result<(), AllocError>
    requires { status_in nodes.old key.now ≡ Unknown }
    ensures events { OnOk result (map event_of history.new.items ≡ map event_of history.old.items
        ++ Claim w key.now ∷ []) }
    ensures room { OnOk result (vec_len history.new < vec_capacity history.new) }
    ensures claimed { OnOk result ((k : KeyValue) → status_in nodes.new k
        ≡ (if same_key key.now k then Claimed w else status_in nodes.old k)) }
    ensures apart { OnOk result (KeysStandOnce nodes.new) }
    ensures nodes { OnErr result (nodes.new ≡ nodes.old) }
    ensures history { OnErr result ((history.new.items ≡ history.old.items)
        × (vec_len history.new ≡ vec_len history.old)
        × (vec_capacity history.old ≤ vec_capacity history.new)) }
{
    history.reserve(2)?;
    let noted = key.copy(alloc)?;
    nodes.add(alloc, key, Standing::Claimed(w))?;
    note(history, Event::Claim(w, noted));
    Ok(())
}

/// Notes that a worker begins to run a key, with room for one more event. If memory runs out, no event is noted.
pub fn note_begin<R: Runner>(
    alloc: Global,
    history: &mut Vec<Event<R>>,
    w: u32,
    key: &Key,
) -> Result<(), AllocError>
    ensures events { OnOk result (map event_of history.new.items ≡ map event_of history.old.items
        ++ Begin w key.now ∷ []) }
    ensures room { OnOk result (vec_len history.new < vec_capacity history.new) }
    ensures history { OnErr result ((history.new.items ≡ history.old.items)
        × (vec_len history.new ≡ vec_len history.old)
        × (vec_capacity history.old ≤ vec_capacity history.new)) }
{
    history.reserve(2)?;
    let noted = key.copy(alloc)?;
    note(history, Event::Begin(w, noted));
    Ok(())
}

/// What marking a key needs: a copy of the key, the keys of its previous edges, and two owners of its previous result.
#[derive(Drop)]
pub struct MarkParts {
    pub noted: Key,
    pub edges: EdgeKeys,
    pub sealed: Arc<Sealed>,
    pub answer: Arc<Sealed>,
}

/// Room for two more events, and what marking a key needs that had this record, at this index, in the previous session.
pub fn room_for_mark<R: Runner>(
    alloc: Global,
    history: &mut Vec<Event<R>>,
    key: &Key,
    past: &Arc<Session>,
    at: usize,
    had: &Record,
) -> Option<MarkParts>
    requires within { at < length (arc_value past.now).records }
    requires had { had.now ≡ slice_index_or (arc_value past.now).records at had.now }
    ensures history { (history.new.items ≡ history.old.items)
        × (vec_len history.new ≡ vec_len history.old)
        × (vec_capacity history.old ≤ vec_capacity history.new) }
    ensures key { IfSome result (λ parts. parts.noted ≡ key.now) }
    ensures edges { IfSome result (λ parts. parts.edges
        ≡ map (key_at (arc_value past.now).records) had.now.edges) }
    ensures results { IfSome result (λ parts. (arc_value parts.sealed ≡ had.now.value)
        × (arc_value parts.answer ≡ had.now.value)) }
    ensures room { IfSome result (λ _. vec_len history.new + 1 < vec_capacity history.new) }
{
    history.reserve(2).ok()?;
    mark_parts(alloc, key, past, at, had).ok()
}

/// What marking a key needs that had this record in the previous session.
fn mark_parts(
    alloc: Global,
    key: &Key,
    past: &Arc<Session>,
    at: usize,
    had: &Record,
) -> Result<MarkParts, AllocError>
    requires within { at < length (arc_value past.now).records }
    requires had { had.now ≡ slice_index_or (arc_value past.now).records at had.now }
    ensures key { IfOk result (λ parts. parts.noted ≡ key.now) }
    ensures edges { IfOk result (λ parts. parts.edges
        ≡ map (key_at (arc_value past.now).records) had.now.edges) }
    ensures results { IfOk result (λ parts. (arc_value parts.sealed ≡ had.now.value)
        × (arc_value parts.answer ≡ had.now.value)) }
{
    let sealed = Arc::try_clone(had.sealed())?;
    let answer = Arc::try_clone(had.sealed())?;
    let edges = EdgeKeys::of_past(past, at)?;
    let noted = key.copy(alloc)?;
    Ok(MarkParts {
        noted,
        edges,
        sealed,
        answer,
    })
}

/// Makes the key at a place done with its previous result and notes that, for which there is room. Answers the result.
pub fn put_mark<R: Runner>(
    nodes: &mut NodeMap,
    history: &mut Vec<Event<R>>,
    at: usize,
    w: u32,
    parts: MarkParts,
) -> Arc<Sealed>
    requires place { at < length nodes.old }
    requires room { vec_len history.old + 1 < vec_capacity history.old }
    ensures done { (q k : KeyValue) → IsFirstNode nodes.old q at → status_in nodes.new k
        ≡ (if same_key q k then Done (arc_value parts.sealed) parts.edges Green
        else status_in nodes.old k) }
    ensures apart { KeysStandOnce nodes.old → KeysStandOnce nodes.new }
    ensures events { map event_of history.new.items ≡ map event_of history.old.items
        ++ MarkGreen w parts.noted ∷ [] }
    ensures room { vec_len history.new < vec_capacity history.new }
    ensures answer { result ≡ parts.answer }
{
    let MarkParts {
        noted,
        edges,
        sealed,
        answer,
    } = parts;
    nodes.put(at, Standing::Done(sealed, edges, Mark::Green));
    note(history, Event::Mark(w, noted));
    answer
}

/// What ending a run needs: the keys that were read, and the result.
#[derive(Drop)]
pub struct FinishParts {
    pub edges: EdgeKeys,
    pub sealed: Arc<Sealed>,
}

/// Room for two more events, and what ending a run needs.
pub fn room_for_finish<R: Runner>(
    alloc: Global,
    history: &mut Vec<Event<R>>,
    outcome: &Outcome<R>,
) -> Option<FinishParts>
    ensures history { (history.new.items ≡ history.old.items)
        × (vec_len history.new ≡ vec_len history.old)
        × (vec_capacity history.old ≤ vec_capacity history.new) }
    ensures edges { IfSome result (λ parts. parts.edges ≡ keys outcome.now.told) }
    ensures value { IfSome result (λ parts. arc_value parts.sealed ≡ outcome.now.value) }
    ensures outcome { IsOutcome (R.queries.mean outcome.now.profile)
        (R.queries.reads outcome.now.profile) outcome.now }
    ensures room { IfSome result (λ _. vec_len history.new + 1 < vec_capacity history.new) }
{
    // An outcome follows from its reads, by its type.
    let _result = outcome.sealed();
    history.reserve(2).ok()?;
    finish_parts(alloc, outcome).ok()
}

/// What ending a run needs.
fn finish_parts<R: Runner>(alloc: Global, outcome: &Outcome<R>) -> Result<FinishParts, AllocError>
    ensures edges { IfOk result (λ parts. parts.edges ≡ keys outcome.now.told) }
    ensures value { IfOk result (λ parts. arc_value parts.sealed ≡ outcome.now.value) }
{
    let sealed = Arc::try_clone(outcome.sealed())?;
    let edges = EdgeKeys::own(read_keys(alloc, outcome.reads())?);
    Ok(FinishParts { edges, sealed })
}

/// The keys that were read.
fn read_keys(alloc: Global, reads: &[Read]) -> Result<Vec<Key>, AllocError>
    ensures { IfOk result (λ v. v.items ≡ keys reads.now) }
{
    let mut copies = Vec::with_capacity(alloc, reads.len())?;
    for read in reads {
        copies.push(read.key().copy(alloc)?)?;
    }
    Ok(copies)
}

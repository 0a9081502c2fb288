//! Walks over previous edges.
ghost use Rattle.std.specs.Prelude.{◌≡◌, ◌<◌, Some, false, map, length, option_map};
ghost use Rattle.sessions.specs.Sessions.{AreInside, key_at, past_entry, session_in};
ghost use Rattle.graph_rules.specs.Settings.{has_kind, crossing_kinds, setting_of};
ghost use Rattle.graph_rules.specs.Pasts.{print_in};
ghost use Rattle.graph_rules.specs.Steps.{edge_at, walk, past_walk, AllUnchanged};
ghost use Rattle.key_states.specs.Nodes.{status_at, state_of_nodes, AreDoneInputs};
ghost use Rattle.job_table.specs.Walks.{edge_state_of, walk_of, IsWhyNot};

use crate::fault::TableFault;
use item_ids::{Key, Kind};
use key_states::{NodeMap, result_of};
use profiles::Profile;
use project_inputs::Inputs;
use recorder::Runner;
use sessions::{Finder, Session};
use std::sync::Arc;

/// How a previous edge stands.
#[derive(Clone, Copy)]
pub enum Edge {
    Open,
    Unchanged,
    Changed,
}

/// How a walk over previous edges ends: all are unchanged, or which is the first that isn't.
#[derive(Clone, Copy)]
pub enum WalkEnd {
    AllUnchanged,
    Open(usize),
    Changed(usize),
}

/// How the previous edge stands that leads to a record.
fn past_edge(inputs: &Inputs, nodes: &NodeMap, past: &Session, at: usize) -> Edge
    requires inputs { AreDoneInputs inputs.now nodes.now }
    requires place { at < length past.now.records }
    ensures { edge_state_of result ≡ edge_at
        (print_in (past_entry (Some past.now)) (key_at past.now.records at))
        (status_at inputs.now nodes.now (key_at past.now.records at)) }
{
    let record = &past.records()[at];
    let Some(sealed) = result_of(inputs, nodes, record.key()) else {
        return Edge::Open;
    };
    if record.sealed().same_print(sealed) {
        Edge::Unchanged
    } else {
        Edge::Changed
    }
}

/// How the walk over previous edges ends.
pub fn walk_edges(inputs: &Inputs, nodes: &NodeMap, past: &Session, edges: &[usize]) -> WalkEnd
    requires inputs { AreDoneInputs inputs.now nodes.now }
    requires inside { AreInside past.now.records edges.now }
    ensures { walk_of result ≡ walk (past_entry (Some past.now))
        (state_of_nodes inputs.now nodes.now false)
        (map (key_at past.now.records) edges.now) }
{
    for (i, at) in edges.iter().enumerate() {
        match past_edge(inputs, nodes, past, *at) {
            Edge::Open => return WalkEnd::Open(i),
            Edge::Changed => return WalkEnd::Changed(i),
            Edge::Unchanged => {}
        }
    }
    WalkEnd::AllUnchanged
}

/// Whether nothing of this kind is taken over from the previous session, since the kind goes by the profile and the
/// session that is worked over it has another one.
pub fn crosses<R: Runner>(past: &Session, profile: Profile, kind: Kind) -> bool
    ensures { result ≡ has_kind
        (crossing_kinds R.queries.by_profile profile (Some past.now)) kind }
{
    !past.terms().profile.is(profile) && R::by_profile(kind)
}

/// How the walk over a key's previous edges ends, if it may be taken over by a session of this profile.
fn walk_past<R: Runner>(
    inputs: &Inputs,
    nodes: &NodeMap,
    past: &Option<Arc<Session>>,
    profile: Profile,
    finder: &mut Finder,
    key: &Key,
) -> Option<WalkEnd>
    requires { AreDoneInputs inputs.now nodes.now }
    ensures { option_map walk_of result
        ≡ past_walk (setting_of R.queries.by_profile profile (session_in past.now))
        (state_of_nodes inputs.now nodes.now false) key.now }
{
    let Some(past) = past else {
        return None;
    };
    if crosses::<R>(past, profile, key.kind()) {
        return None;
    }
    let Some((_, record)) = finder.find(past, key) else {
        return None;
    };
    Some(walk_edges(inputs, nodes, past, record.edges()))
}

/// Why a key that the worker has claimed may not be run.
pub fn why_not<R: Runner>(
    inputs: &Inputs,
    nodes: &NodeMap,
    past: &Option<Arc<Session>>,
    profile: Profile,
    finder: &mut Finder,
    key: &Key,
) -> Option<TableFault>
    requires { AreDoneInputs inputs.now nodes.now }
    ensures { IsWhyNot (past_walk
        (setting_of R.queries.by_profile profile (session_in past.now))
        (state_of_nodes inputs.now nodes.now false) key.now) result }
{
    match walk_past::<R>(inputs, nodes, past, profile, finder, key) {
        Some(WalkEnd::Open(i)) => Some(TableFault::EdgeOpen(i)),
        Some(WalkEnd::AllUnchanged) => Some(TableFault::NothingChanged),
        Some(WalkEnd::Changed(_)) => None,
        None => None,
    }
}

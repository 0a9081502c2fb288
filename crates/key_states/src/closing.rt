//! What a table closes with.
ghost use Rattle.std.specs.Prelude.{◌≡◌, ◌≤◌, [], false, IfOk};
ghost use Rattle.item_ids.specs.declared.key.Key.TheVariants.{Answer};
ghost use Rattle.sessions.specs.Sessions.{most_number, past_entry, session_in, next_number};
ghost use Rattle.sessions.specs.Spelling.{next_link};
ghost use Rattle.graph_rules.specs.Pasts.{IsGraph};
ghost use Rattle.graph_rules.specs.Steps.{IsDone};
ghost use Rattle.graph_rules.specs.Sound.{IsInOrder};
ghost use Rattle.key_states.specs.Closing.{IsClosing, IsFull};
ghost use Rattle.key_states.specs.Nodes.{status_at, state_of_nodes, AreDoneInputs};
ghost use Rattle.key_states.specs.Reached.{AreReached};
ghost use Rattle.key_states.specs.Rows.{AreRowsOf, keys_of};

use crate::edge_keys::EdgeKeys;
use crate::node_map::NodeMap;
use crate::reaching::{Found, reach};
use crate::records::records_of;
use crate::rows::{KeyRow, rows_of};
use item_ids::ranks_in_order;
use project_inputs::Inputs;
use session_file::digest;
use sessions::{Session, Terms};
use std::alloc::{AllocError, Global};
use std::sync::Arc;

/// The session of these terms after the previous one, with the keys that the inputs and Answer lead to.
pub fn session_of(
    alloc: Global,
    terms: Terms,
    past: &Option<Arc<Session>>,
    inputs: &Inputs,
    nodes: &NodeMap,
) -> Result<Session, AllocError>
    requires inputs { AreDoneInputs inputs.now nodes.now }
    requires room { ¬ IsFull (session_in past.now) }
    requires order { IsInOrder (state_of_nodes inputs.now nodes.now false) }
    requires answer { IsDone (status_at inputs.now nodes.now Answer) }
    ensures { IfOk result (IsClosing terms (session_in past.now) inputs.now
        (state_of_nodes inputs.now nodes.now false)) }
{
    let none = EdgeKeys::none(alloc);
    let (rows, found) = rows_found(alloc, inputs, nodes, &none)?;
    // A key of lower rank is a lesser key, so that each edge leads to a record in front.
    ranks_in_order();
    let records = records_of(alloc, rows.as_slice(), found.as_slice())?;
    Ok(Session::of_as(terms, number_behind(past), link_behind(past), records))
}

/// The keys that the inputs and Answer lead to, in order, and how each is done.
fn rows_found<'a>(
    alloc: Global,
    inputs: &'a Inputs,
    nodes: &'a NodeMap,
    none: &'a EdgeKeys,
) -> Result<(Vec<KeyRow>, Vec<Found<'a>>), AllocError>
    requires none { none.now ≡ [] }
    requires inputs { AreDoneInputs inputs.now nodes.now }
    requires order { IsInOrder (state_of_nodes inputs.now nodes.now false) }
    requires answer { IsDone (status_at inputs.now nodes.now Answer) }
    ensures rows { IfOk result (λ both. AreRowsOf (state_of_nodes inputs.now nodes.now false)
        both.0.items both.1.items) }
    ensures reached { IfOk result (λ both. AreReached inputs.now
        (state_of_nodes inputs.now nodes.now false) (keys_of both.0.items)) }
{
    let (keys, found) = reach(alloc, inputs, nodes, none)?;
    Ok((rows_of(alloc, &keys)?, found))
}

/// The number of the session after the previous one.
fn number_behind(past: &Option<Arc<Session>>) -> u32
    requires { ¬ IsFull (session_in past.now) }
    ensures number { result ≡ next_number (session_in past.now) }
    ensures most { result ≤ most_number }
{
    match past {
        Some(past) => past.number() + 1,
        None => 0,
    }
}

/// The link of the session after the previous one.
pub fn link_behind(past: &Option<Arc<Session>>) -> [u8; 32]
    ensures { result ≡ next_link (session_in past.now) }
{
    match past {
        Some(past) => digest(past),
        None => [0; 32],
    }
}

/// A previous session is a graph by its type.
pub fn check_past(past: &Option<Arc<Session>>)
    ensures { IsGraph (past_entry (session_in past.now)) }
{
    if let Some(past) = past {
        let _records = past.records();
    }
}

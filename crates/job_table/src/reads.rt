//! Reads of an outcome, compared with the table.
ghost use Rattle.std.specs.Prelude.{◌↔◌, false, IsTrue, MatchOption};
ghost use Rattle.graph_rules.specs.Steps.{IsDoneWith, AreHeld};
ghost use Rattle.key_states.specs.Nodes.{status_at, state_of_nodes, AreDoneInputs};
ghost use Rattle.job_table.specs.Calls.{IsFirstStale};

use key_states::{NodeMap, result_of};
use project_inputs::Inputs;
use recorder::Read;

/// The place of the first read whose key isn't done with the result that was read.
pub fn first_stale(inputs: &Inputs, nodes: &NodeMap, reads: &[Read]) -> Option<usize>
    requires { AreDoneInputs inputs.now nodes.now }
    ensures { MatchOption result
        (AreHeld (state_of_nodes inputs.now nodes.now false) reads.now)
        (IsFirstStale (state_of_nodes inputs.now nodes.now false) reads.now) }
{
    for (i, read) in reads.iter().enumerate() {
        if !is_held(inputs, nodes, read) {
            return Some(i);
        }
    }
    None
}

/// Whether the key of a read is done with the result that was read.
fn is_held(inputs: &Inputs, nodes: &NodeMap, read: &Read) -> bool
    requires { AreDoneInputs inputs.now nodes.now }
    ensures { IsTrue result ↔ IsDoneWith read.now.value
        (status_at inputs.now nodes.now read.now.key) }
{
    match result_of(inputs, nodes, read.key()) {
        Some(now) => now.same_result(read.answer()),
        None => false,
    }
}

//! A graph of results that stays in memory: each edit queues what it may change, and a result that is asked for is
//! computed from the queue.
#![tactic(auto)]

mod graph;
mod laws;
mod linking;
mod queueing;
mod running;
mod settling;

pub use graph::{Graph, queue_changed_inputs, queue_key};
pub use laws::settled_below_is_meant;
pub use settling::result_in;

//! Evaluates keys in stores, which are the tables of sessions as workers see them: a key whose previous edges are
//! unchanged is marked green, any other is run.
#![tactic(auto)]

mod asking;
mod edges;
mod evaluating;
mod fault;
mod giving_up;
mod runs;
mod steps;
mod store;
mod tables;
mod worker;

pub use evaluating::ensure;
pub use fault::Fault;
pub use store::Store;
pub use tables::{ask_table, mark_table};
pub use worker::Worker;

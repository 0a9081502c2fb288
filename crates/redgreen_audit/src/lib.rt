//! The audit of a chain of sessions, whoever wrote it, by the runs of a client of which nothing is known.
#![tactic(auto)]

mod answers;
mod chain;
mod checking;
mod client;
mod fault;
mod keys;
mod laws;
mod rerun;

pub use answers::Answers;
pub use chain::audit;
pub use client::{Client, Stop};
pub use fault::{Fault, RecordFault};
pub use laws::{built_sessions_are_right, right_chains_are_accepted};

//! A list that only grows, shared by threads. Its entries stand in the proofs alone: what threads share at run time is
//! its length. Each thread knows a beginning of it.
#![tactic(auto)]

mod list;
mod naming;
mod rule;

pub use list::{Head, Known, Opened};
pub use naming::ListNaming;

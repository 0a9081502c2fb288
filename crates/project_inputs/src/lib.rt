//! The results of a project's inputs: the names of its files, and the bytes of each.
#![tactic(auto)]

mod inputs;
mod sealing;

pub use inputs::Inputs;
pub use sealing::same_source;

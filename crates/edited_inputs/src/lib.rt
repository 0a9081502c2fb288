//! The inputs of a project whose files are edited in memory.
#![tactic(auto)]

mod inputs;

pub use inputs::EditedInputs;

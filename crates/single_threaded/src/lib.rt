//! A table that one thread has to itself, as a store in which keys are evaluated.
#![tactic(auto)]

mod solo;

pub use solo::Solo;

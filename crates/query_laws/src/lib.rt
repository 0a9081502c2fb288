//! What the rules give each query of MiniJava, and in which order it reads.
#![tactic(auto)]

mod laws;

pub use laws::{declaration_laws, demand_laws, mean_laws, read_laws};

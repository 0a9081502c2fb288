//! What the queries of MiniJava mean and read in a project, in the words of the rules.
#![tactic(auto)]

mod laws;

pub use laws::query_laws;

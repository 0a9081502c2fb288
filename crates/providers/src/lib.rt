//! The queries of MiniJava: a runner for every kind of key that is no input, over whatever reader it is given, and the
//! answer for a project in its results.
#![tactic(auto)]

mod answer;
mod runner;

pub use answer::answer_of;
pub use runner::MiniJava;

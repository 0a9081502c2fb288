//! Runs of MiniJava's queries for tests: given as cases of short texts, run over the answers at hand, and evaluated by
//! a driver.
#![tactic(auto)]

mod driver;
mod driving;
mod rows;
mod steps;

pub use driving::{brings_each, is_answer};
pub use rows::{Row, is_checked, is_lacking, is_right};

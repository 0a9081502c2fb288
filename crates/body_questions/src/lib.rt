//! The read of a query: one key's result. What a check of a body asks of other results, each question by one read, and
//! what these results say about a class.
#![tactic(auto)]

mod classes;
mod members;
mod questions;

pub use classes::is_declared_in;
pub use members::method_row;
pub use questions::{ask_declared, ask_descends, ask_field, ask_method};

//! The query of a body's mistakes: the check of a body that gets what it asks by reads.
#![tactic(auto)]

mod faults;
mod laws;
mod query;
mod reads;

pub use faults::{class_fault_set, note_fault};
pub use laws::{body_ties, bounds_law};
pub use query::check_body;

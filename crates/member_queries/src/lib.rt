//! The queries that are put together from the answers of others: the chain of a class, its members and all its
//! diagnostics.
#![tactic(auto)]

mod diags;
mod laws;
mod members;
mod supers;

pub use diags::run_diags;
pub use laws::{diags_ties, members_ties, supers_ties};
pub use members::run_members;
pub use supers::{Climb, run_supers};

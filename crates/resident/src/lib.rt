//! A session that stays in memory: an edit changes its project, and a result is what its key means in the project of
//! now.
#![tactic(auto)]

mod resident;

pub use resident::{EditFault, Resident};

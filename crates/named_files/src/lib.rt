//! Projects, the named files that are checked together, and names that stand in a list more than once.
#![tactic(auto)]

mod project;
mod repetition;

pub use project::{Project, ProjectFault};
pub use repetition::repeats;

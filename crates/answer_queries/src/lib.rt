//! The two queries that check what is declared. That of a class gives the diagnostics of its declarations: its superclass,
//! its chain, its fields and its methods. That of the answer gives the whole one for the project: the project's own
//! diagnostics, and the members and diagnostics of each class.
#![tactic(auto)]

mod answer;
mod class_check;
mod classes;
mod fields;
mod laws;
mod overrides;
mod project_faults;
mod told;
mod trees;

pub use answer::run_answer;
pub use class_check::run_check_class;
pub use laws::{answer_ties, check_class_ties, class_bounds, project_bounds};

//! What the rules say of phrases and of projects: what each phrase of a body demands, each demand with its code; the types in
//! a project's methods, and their diagnostics.
#![tactic(auto)]

mod phrase_laws;
mod project_laws;

pub use phrase_laws::{fault_laws, well_laws};
pub use project_laws::{method_fault_laws, scope_laws, type_laws};

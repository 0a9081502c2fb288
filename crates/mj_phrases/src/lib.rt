//! The typing rules of phrases: what each demands, the type that it has, and the check of an expression or of a
//! statement without those inside it.
#![tactic(auto)]

mod asking;
mod laws;
mod rows;
mod scope;
mod statement;
mod types;
mod verdict;
mod walk;

pub use asking::{Asking, Environment, MethodSignature, MethodTypes, Stop};
pub use laws::{case_laws, row_laws, typing_laws};
pub use rows::return_value;
pub use scope::Scope;
pub use statement::{Target, check_assign, check_condition, check_print, check_store, report};
pub use verdict::{Mistake, Verdict};
pub use walk::check;

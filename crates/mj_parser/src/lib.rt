//! Tokens into trees.
#![tactic(auto)]

mod declarations;
mod files;
mod laws;
mod location;
mod nodes;
mod parser;
mod statements;

pub use laws::{grammar_laws, mark_laws};
pub use location::{locate, method_name};
pub use mj_expressions::ParseFault;
pub use parser::parse;

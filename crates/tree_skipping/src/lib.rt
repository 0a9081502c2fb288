//! Skipping methods and phrases in the bytes of a tree: what is behind one is found, and no tree is made of it.
#![tactic(auto)]

mod expressions;
mod methods;
mod parts;
mod statements;

pub use methods::skip_method;
pub use statements::skip_top_stmt;

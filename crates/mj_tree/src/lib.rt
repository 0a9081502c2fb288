//! Trees of files, and places in them.
#![tactic(auto)]

mod copies;
mod place;
mod tree;

pub use place::Place;
pub use tree::{
    ClassTree, Exp, Field, FileTree, MOST_LEVELS, MainTree, MethodTree, Operator, Stmt, Ty,
    Variable, copy_fields, copy_types,
};

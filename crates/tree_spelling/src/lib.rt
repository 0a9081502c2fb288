//! How trees are spelled in bytes, with the laws of it; and reading and writing types, phrases and methods.
#![tactic(auto)]

mod expressions;
mod methods;
mod statements;
mod tag;
mod types;
mod variables;
mod writing;

pub use methods::read_method;
pub use statements::read_top_stmt;
pub use tag::{ExpTag, OnePart, StmtTag, TwoParts, exp_tag_of, stmt_tag_of};
pub use types::{FieldFormat, TypeFormat, check_ty, put_ty, read_ty};
pub use variables::VariableFormat;
pub use writing::{put_method, put_top_stmt};

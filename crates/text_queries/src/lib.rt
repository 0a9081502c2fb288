//! The queries about one file's text and tree.
#![tactic(auto)]

mod class_trees;
mod header;
mod index;
mod laws;
mod method;
mod sig;
mod tree;

pub use header::run_header;
pub use index::run_index;
pub use laws::{header_ties, index_ties, method_ties, sig_ties, tree_ties};
pub use method::run_method;
pub use sig::run_sig;
pub use tree::run_tree;

//! Keys of queries: a kind, and the names that a query of this kind is about.
#![tactic(auto)]

mod key;
mod kind;
mod laws;
mod words;

pub use key::Key;
pub use kind::{Kind, rank};
pub use laws::{is_key, keys_in_order, ranks_in_order};
pub use words::kind_word;

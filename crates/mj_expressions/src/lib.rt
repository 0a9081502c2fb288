//! Tokens by their places, and the expressions that are read from them.
#![tactic(auto)]

mod expressions;
mod fault;
mod laws;
mod nodes;
mod tokens;

pub use expressions::{ANY_TIER, ExpPart, closed, read};
pub use fault::ParseFault;
pub use laws::expression_laws;
pub use tokens::{
    Part, expect, expect_name, expect_two, expect_word_and, followed, followed_by_two, has, name,
    says,
};

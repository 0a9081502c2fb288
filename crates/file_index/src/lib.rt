//! A file's lines and parts, found by search: indexes over its text and its tokens.
#![tactic(auto)]

mod index;
mod methods;
mod places;
mod reading;
mod terminals;
mod text;

pub use index::TokenIndex;
pub use reading::{ReadFile, read, read_over};
pub use text::LinedText;

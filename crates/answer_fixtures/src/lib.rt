//! Keys, results and projects for tests: made from short texts, and asked what tests want to know of them.
#![tactic(auto)]

mod copies;
mod keys;
mod projects;
mod sealing;
mod unfit;
mod values;

pub use copies::{has_body, is_copied, is_printed_again};
pub use keys::{KeyParts, is_copy, is_key, is_less, is_made, is_named, key_of};
pub use projects::project_of;
pub use sealing::{
    is_opened, is_print, is_sealed, is_sealed_beside, is_spelled, open_fault, sealed_of,
};
pub use unfit::Unfit;
pub use values::{bytes_of, is_printed, is_spelling, is_tight, refusal_of, spells, value_of};

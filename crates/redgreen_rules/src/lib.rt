//! What an accepted chain of sessions says, for a client of any language.
#![tactic(auto)]

mod laws;

pub use laws::{accepted_is_fresh, sessions_grow};

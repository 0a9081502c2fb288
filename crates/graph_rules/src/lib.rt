//! The rules by which the keys of a session become done, and what holds of every session that keeps to them.
#![tactic(auto)]

mod laws;
mod next_sessions;

pub use laws::{
    apart_sessions_have_no_clash, closed_is_next, histories_are_orderly, histories_are_sound,
    inputs_apart, keys_apart, one_next, sessions_are_graphs, sound_is_in_order,
};
pub use next_sessions::{entries_tell_all, next_is_right, one_next_session};

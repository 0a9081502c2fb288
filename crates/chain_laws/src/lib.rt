//! Laws of chains of sessions: what holds of a chain that was accepted and a session over its last one, whatever the
//! queries, and for those of MiniJava; and that the next session of a project executes no query without need.
#![tactic(auto)]

mod causes;
mod laws;
mod of_mini_java;

pub use causes::{causes_end_walks, made_has_causes, next_has_causes};
pub use laws::{behind_a_right_chain, next_goes_on, next_is_accepted};
pub use of_mini_java::{
    checked_is_by_the_rules, made_is_accepted, made_is_read_back, next_of_mini_java_is_accepted,
    reads_own_files,
};

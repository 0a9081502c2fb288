//! Reads, runs and their outcomes for tests: made from short texts, and asked what tests want to know of them. Runs are those of a
//! sample runner, which has a small meaning of its own.
#![tactic(auto)]

mod answers;
mod counting;
mod lent;
mod reads;
mod refusals;
mod results;
mod runs;
mod sample;

pub use answers::{are_apart, are_same, holds, list_of};
pub use counting::{Ask, answers_after, count_after, keeps_after};
pub use reads::{Given, are_reads, has_read_copy, is_copy_of};
pub use refusals::{KeptReads, keeps, leaves, leaves_refused};
pub use results::{comes_to, wants};
pub use runs::{gives, gives_over_lent, is_log_empty, outcome_of, tells_profile};
pub use sample::{Refusing, SampleRunner};

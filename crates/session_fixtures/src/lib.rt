//! Sessions for tests: made from short texts, written and read, and asked what tests want to know of them.
#![tactic(auto)]

mod failing;
mod files;
mod first;
mod records;
mod second;
mod stalling;
mod terms;
mod texts;
mod tries;

pub use failing::{Failing, FailingFeed, FailingSink, Manner};
pub use files::{
    digest_of, digest_of_read, digest_of_taken, file_as, file_fault_of, file_of, file_of_session,
    is_read_again, write_to,
};
pub use first::FIRST;
pub use records::{Kept, session_as, session_of};
pub use second::{digest_behind, digest_over, fault_over, file_behind, greened};
pub use stalling::StallingWriter;
pub use terms::{FIRST_TERMS, SECOND_FORM, SECOND_OF_BOTH, SECOND_PROFILE};
pub use texts::{ONE, TWO, TWO_EDITED};
pub use tries::twice;

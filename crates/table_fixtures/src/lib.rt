//! Tables for tests: opened, called and closed as short texts say, and asked whether they answer as they should. A call that
//! is refused memory is made once more.
#![tactic(auto)]

mod again;
mod calls;
mod changes;
mod driving;
mod histories;
mod replays;
mod runs;
mod tables;
mod worked;

pub use calls::{Call, Calls, Said, Saying, are_said};
pub use changes::{Change, Other, digest_of_change, past_behind, past_of};
pub use driving::{Counts, Unmade, are_reported, drive_fault};
pub use histories::{History, is_history};
pub use replays::{Replay, replay_of};
pub use worked::{ALL_QUERIES, OF_EDIT, PRINTS_2};

//! Which results are kept when a value that they read changes: what follows from a run of a program, when a run gives the
//! same for another answer, and runners that tell.
#![tactic(auto)]

mod keeping;
mod laws;
mod running;

pub use keeping::Keeping;
pub use laws::{
    following_fits, following_is_backed, kept_by_what_is_taken, keys_follow, performed_runs_follow,
    readers_follow_on,
};
pub use running::run_sealed;

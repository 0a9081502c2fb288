//! The cache of sessions: a folder of chains, each a folder of session files.
#![tactic(auto)]

mod fault;
mod filling;
mod folders;
mod names;
mod place;
mod start;
mod whole;

pub use fault::{CacheReadFault, CacheWriteFault};
pub use filling::write_to;
pub use folders::{find_last, write_file};
pub use names::{EntryKind, highest};
pub use place::SessionPlace;
pub use start::{LastChain, NotFollowed, Note, Start, start_behind};
pub use whole::read_whole;

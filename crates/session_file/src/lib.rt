//! The files of sessions: writing one to a device, and reading one from there or from memory.
#![tactic(auto)]

mod fault;
mod reading;
mod writing;

pub use fault::FileFault;
pub use reading::{read, read_after, read_after_by, read_from, read_from_after, terms_of_start};
pub use writing::{digest, write, write_by_two};

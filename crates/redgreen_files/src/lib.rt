//! Session files of anybody's queries: each session has one.
#![tactic(auto)]

mod fault;
mod reading;

pub use fault::FileFault;
pub use reading::{FiledSession, read_session};

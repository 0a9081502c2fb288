//! Sessions of anybody's queries, in memory.
#![tactic(auto)]

mod bytes;
mod record;

pub use bytes::Bytes;
pub use record::{Mark, Record, Session};

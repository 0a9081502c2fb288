//! Devices: what bytes are written to and read from, a few at a time, and what may fail.
#![tactic(auto)]

mod device;
mod hashing;
mod memory;
mod putting;
mod streams;

pub use device::{DeviceFault, Feed, Sink};
pub use hashing::{HashingSink, digests};
pub use memory::{MemoryFeed, MemorySink};
pub use putting::{put_all, put_parts};
pub use streams::{ReaderFeed, WriterSink};

//! The messages between an engine and its client.
#![tactic(auto)]

mod client;
mod engine;
mod fault;
mod lines;
mod strings;
mod taking;
mod word;
mod writing;

pub use client::FromClient;
pub use engine::{FromEngine, write_run, write_value};
pub use fault::{LineFault, ReadFault, WriteFault};
pub use strings::ByteStrings;

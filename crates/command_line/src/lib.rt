//! Reads the arguments of a command line.
#![tactic(auto)]

mod asked;
mod chain_help;
mod command;
mod given;
mod help;
mod reading;
mod requests;

pub use asked::{
    AuditWords, CheckWords, ScratchWords, ShowWords, Subcommand, WhyWords, Words, WordsFault,
};
pub use reading::words;

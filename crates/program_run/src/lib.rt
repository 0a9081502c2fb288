//! One run of the program: the arguments of the command line, what they ask for, and what is written.
#![tactic(auto)]

mod failure;
mod files;
mod refusals;
mod report;
mod running;
mod subcommands;
mod terms;

pub use report::{Status, no_words};
pub use running::run;

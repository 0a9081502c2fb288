//! Runs of queries: readers, what a run reads and what it leaves, and programs that say what a run does.
#![tactic(auto)]

mod laws;
mod outcome;
mod reader;
mod readers;
mod refused;
mod runner;
mod steps;
mod told;

pub use laws::{
    programs_are_runs, programs_keep_the_laws, programs_read_alike, tied_programs_are_runs,
};
pub use outcome::{Outcome, record, record_sharing};
pub use reader::{ReadFault, Reader};
pub use readers::{AnswerList, Recorder};
pub use refused::Refused;
pub use runner::{RunFault, Runner};
pub use steps::{ask_key, read};
pub use told::Read;

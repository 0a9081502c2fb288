//! Readers that keep what was read.
mod answers;
mod reads;
mod recorder;

pub use answers::AnswerList;
pub use recorder::Recorder;

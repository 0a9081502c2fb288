//! Where the diagnostics of an answer stand in a project's files, and how they are written for a reader. A project is parsed once, and
//! a file with a diagnostic is cut into tokens again; each diagnostic has a line, and with messages its sentence and the line of its
//! file with a mark under its place.
#![tactic(auto)]

mod excerpts;
mod faults;
mod index;
mod laws;
mod lines;
mod places;
mod sought;
mod sources;
mod texts;

pub use laws::mark_laws;
pub use lines::{fault_text, fault_text_of, is_clean};
pub use sources::ReadProject;

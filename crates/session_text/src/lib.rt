//! The texts of a session: a line for it, and one for each of its records; its graph; why its queries were executed. The words that
//! name a record, and those for why a file is that of no session.
#![tactic(auto)]

mod causes;
mod drawing;
mod faults;
mod names;
mod text;
mod words;

pub use causes::{Cause, Why, causes_text, why_text};
pub use drawing::dot_text;
pub use faults::write_fault;
pub use names::{record_named, write_key_words};
pub use text::session_text;

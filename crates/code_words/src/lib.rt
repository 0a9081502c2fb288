//! What each code means: the sentence, the rule, an example and what to do, of the diagnostics and of the refusals.
#![tactic(auto)]

mod asking;
mod diagnostics;
mod sentences;
mod table;
mod texts;

pub use asking::{ExplainFault, explain, unknown_text};
pub use diagnostics::sentence;

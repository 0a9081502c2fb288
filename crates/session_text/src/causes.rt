//! Why the queries of a session were executed, beside the session before it: for each, the first key that it had read there
//! and that is red now.

mod cause;
mod keys;
mod reasons;
mod reds;
mod texts;
mod trails;
mod words;

pub use cause::{Cause, Why};
pub use texts::{causes_text, why_text};

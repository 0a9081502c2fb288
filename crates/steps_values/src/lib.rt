//! The results of a build's queries, and the one spelling of each in bytes.
#![tactic(auto)]

mod files;
mod laws;
mod plan;
mod reading;
mod refusal;
mod value;
mod writing;

pub use files::{FileNames, Text};
pub use laws::{is_value, one_spelling};
pub use plan::{Plan, Step};
pub use reading::decode;
pub use refusal::Refusal;
pub use value::Value;
pub use writing::encode;

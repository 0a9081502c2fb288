//! The results of queries, and the one spelling of each in bytes.
#![tactic(auto)]

mod class;
mod files;
mod laws;
mod parts;
mod reading;
mod refusal;
mod value;
mod writing;

pub use class::{Header, Signature, Supers};
pub use files::{FileNames, Index, IndexRow, Text};
pub use laws::{is_value, one_spelling};
pub use parts::ChainEnd;
pub use reading::decode;
pub use refusal::Refusal;
pub use value::Value;
pub use writing::encode;

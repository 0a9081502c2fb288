//! Names: texts of 1 to 255 bytes, with their order, and lists in ascending order.
#![tactic(auto)]

mod laws;
mod name;

pub use laws::name_laws;
pub use name::Name;

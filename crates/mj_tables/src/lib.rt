//! The tables of all declared classes: the fields and methods that each has, made once, and look-ups in them.
#![tactic(auto)]

mod lookup;
mod making;
mod tables;

pub use making::MemberTable;
pub use tables::MemberTables;

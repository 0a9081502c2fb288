//! MiniJava's runner tells which results a change keeps: what a tree declares, and which rows of the index differ, found once
//! for all that read them.
#![tactic(auto)]

mod change;
mod declared;
mod keeps;
mod rows;
mod runner;

pub use change::{Change, RowChange};
pub use runner::KeepingMiniJava;

//! The table of one session: how each key stands, and the events that led there.
#![tactic(auto)]

mod event;
mod fault;
mod reads;
mod replay;
mod room;
mod table;
mod walks;

pub use event::Event;
pub use fault::{Asked, CloseFault, OpenFault, ReplayFault, TableFault};
pub use table::Table;

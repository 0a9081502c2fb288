//! One table for many workers: the lock around it, each worker's seat at it, and the count of the events that each
//! makes.
#![tactic(auto)]

mod alone;
mod counted;
mod gate;
mod locked;
mod memo;
mod naming;
mod opening;
mod seat;
mod shared;
mod tally;

pub use alone::Alone;
pub use counted::Counted;
pub use gate::{Gate, Open};
pub use job_table::{CloseFault, OpenFault, Table};
pub use mark_green::{Fault, Store, Worker};
pub use naming::Naming;
pub use opening::Opening;
pub use seat::Seat;
pub use shared::Shared;
pub use tally::Tally;

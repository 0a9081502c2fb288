//! One session of a project: its jobs, by workers who share its table, over the previous session.
#![tactic(auto)]

mod alone;
mod changes;
mod crew;
mod fault;
mod jobs;
mod laws;
mod numbers;
mod reports;
mod session;

pub use alone::drive_alone;
pub use changes::changed_files;
pub use crew::Crew;
pub use fault::DriveFault;
pub use jobs::{Evaluate, Jobs, Undone};
pub use laws::{made_sessions_are_one, refusals_are_exact, sessions_are_next};
pub use numbers::Numbers;
pub use reports::Reports;
pub use session::{Basis, drive, drive_as};
pub use shared_table::{Gate, Open, Shared};

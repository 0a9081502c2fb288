//! One session of a MiniJava project, and the audit of chains of sessions, by MiniJava's queries, and what they say in the
//! words of the static rules.
#![tactic(auto)]

mod audit;
mod auditor;
mod jobs;
mod laws;
mod lists;
mod session;

pub use audit::{audit_chain, audit_chain_against, audited_answer};
pub use audit_replay::Audited;
pub use auditor::ChainAuditor;
pub use driver::{Crew, DriveFault, Gate, Open, Reports, Shared, changed_files, drive};
pub use laws::{accepted_are_the_rules, accepted_chains_are_the_rules};
pub use lists::ClassJobs;
pub use providers::MiniJava;
pub use session::{run_session, run_session_alone, run_session_as};

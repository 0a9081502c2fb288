//! The second half of the audit of a chain of sessions: executed records are replayed. And the audit of whole lists of
//! files, for every runner.
#![tactic(auto)]

mod against;
mod auditor;
mod chain;
mod laws;
mod reading;
mod replay;
mod session;
mod sum;

pub use against::audit_against;
pub use auditor::Auditor;
pub use chain::{Audited, audit};
pub use laws::{
    accepted_are_not_refused, accepted_are_right_chains, files_tell_their_sessions,
    one_refusal_holds, passed_are_right, refused_records_are_wrong, right_chains_pass,
    told_refusals_leave_no_mismatch,
};

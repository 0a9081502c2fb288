//! Audits of chains for tests: of files that are made from short texts, by audits and auditors that are refused memory, and by
//! auditors over feeds that fail, or that give few bytes in a call.
#![tactic(auto)]

mod auditors;
mod audits;
mod chain;
mod feeds;

pub use auditors::{auditor_again, auditor_stays, said_in_pieces};
pub use audits::{Said, audit_again};
pub use feeds::{fails_at_each_call, fault_of_longer};

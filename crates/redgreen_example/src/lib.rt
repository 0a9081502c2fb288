//! A client whose programs are known, so that the audit's contract has no premise left for it.
#![tactic(auto)]

mod echo;

pub use echo::{Echo, audit_echo};

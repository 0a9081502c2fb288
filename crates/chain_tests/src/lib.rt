//! Tests of chains of session files: audits of them, and caches that keep them.
#![tactic(auto)]

#[cfg(test)]
mod audits;
#[cfg(test)]
mod caches;

//! `Send` and `Sync` of keys, sealed results and maps in order: threads may send them to one another, and share them.
//! The crate has lemmas alone.
#![tactic(auto)]

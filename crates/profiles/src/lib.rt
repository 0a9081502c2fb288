//! The profiles of the language.
#![tactic(auto)]

mod profile;

pub use profile::Profile;

//! The typing rules of bodies: the walk over statements that finds the mistakes of a method and of main.
#![tactic(auto)]

mod body;
mod check;
mod laws;
mod plain;

pub use check::{check_main, check_main_statement, check_method};
pub use laws::body_laws;
pub use plain::{main_mistakes, method_mistakes};

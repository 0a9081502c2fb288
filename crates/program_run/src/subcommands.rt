//! What the subcommands do.

pub(crate) mod audit_lines;
pub(crate) mod auditing;
pub(crate) mod checking;
pub(crate) mod explaining;
pub(crate) mod last;
pub(crate) mod scratching;
pub(crate) mod showing;
pub(crate) mod why;

//! Named files in one run of bytes, as a program hands over what it holds in memory.
#![tactic(auto)]

mod flaws;
mod runs;
mod unpacking;

pub use flaws::{Flaw, UnpackFault, flaw_text};
pub use runs::unpack_runs;
pub use unpacking::unpack;

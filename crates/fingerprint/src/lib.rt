//! Results with their canonical bytes and the fingerprint of these.
#![tactic(auto)]

mod print;
mod sealed;

pub use print::Print;
pub use sealed::{Sealed, SealedFault, open_sealed, seal, seal_or_share};

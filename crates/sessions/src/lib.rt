//! Sessions: what a session keeps of each key, in order of the keys.
#![tactic(auto)]

mod checks;
mod fault;
mod finder;
mod laws;
mod mark;
mod record;
mod seen;
mod session;
mod terms;

pub use checks::{check_kept, check_key, is_above, is_marked};
pub use fault::SessionFault;
pub use finder::Finder;
pub use laws::edges_are_below;
pub use mark::Mark;
pub use record::Record;
pub use seen::SeenEdges;
pub use session::{Session, share};
pub use terms::{Form, Terms};

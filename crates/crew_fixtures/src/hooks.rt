//! What is done around the runs of a session: they are counted, held for a while, or wait for one another.

mod counting;
mod holding;
mod hooked;
mod meeting;

pub(crate) use counting::Counting;
pub(crate) use holding::Holding;
pub(crate) use hooked::{Hook, Hooked};
pub use meeting::Meeting;
pub(crate) use meeting::Waiting;

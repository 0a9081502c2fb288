//! Sessions from files.

mod body_hash;
mod by_threads;
mod edges;
mod feed_fault;
mod feeding;
mod files;
mod items;
mod opened;
mod origin;
mod parts;
mod places;
mod records;
mod results;

pub use by_threads::read_after_by;
pub use files::{read, read_after, read_from, read_from_after, terms_of_start};

//! Sessions from files.

mod feed_fault;
mod feeding;
mod files;
mod items;
mod marks;
mod parts;
mod records;

pub use files::{FiledSession, read_session};

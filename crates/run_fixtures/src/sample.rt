//! A runner with a small meaning of its own, written as query programs. It only looks at which files there are, and
//! which of them are empty.

mod checks;
mod headers;
mod phrase;
mod refusing;
mod runner;
mod walk;

pub use refusing::Refusing;
pub use runner::SampleRunner;

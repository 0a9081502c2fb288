//! Audits by a runner of its own meaning, and beside a project by MiniJava's. Expected values are worked out by hand from the
//! meaning. That of the runner of its own: the header of a file reads its source, a check of a class the names of the files and
//! the header of each, an answer nothing.

mod against;
mod chains;
mod files;
mod said;
mod terms;
mod texts;

//! The graph of a session as Graphviz reads it: a node for each record, in a colour that says how it became done, and an
//! edge to each record that it has read.

mod graph;
mod label;
mod shade;
mod within;

pub use graph::dot_text;

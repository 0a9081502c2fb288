//! Names and trees, made from their texts.
use mj_rules::read_file;
use mj_tree::FileTree;
use ordered_names::Name;
use std::alloc::{AllocError, Global};

/// A name; `?` for a text that is none.
pub(crate) fn name(alloc: Global, text: &str) -> Result<Name, AllocError> {
    match Name::try_new(alloc, text)? {
        Some(name) => Ok(name),
        None => Name::new(alloc, "?"),
    }
}

/// The tree of each file, if it is a sentence.
pub(crate) fn trees_of(alloc: Global, texts: &[&str]) -> Result<Vec<Option<FileTree>>, AllocError> {
    let mut trees = Vec::new(alloc);
    for text in texts {
        trees.push(read_file(alloc, text.as_bytes())?)?;
    }
    Ok(trees)
}

//! Trees that have a spelling.
ghost use Rattle.std.specs.Prelude.{◌≡◌, IfOk, option_and_then, option_copied, option_map};
ghost use Rattle.mj_tree.specs.Views.{file_view};
ghost use Rattle.tree_bytes.specs.NamedBodies.{first_class, first_method};
ghost use Rattle.tree_spelling.specs.Storable.{FileFits};
ghost use Rattle.tree_bytes.specs.Stored.{stored_class, stored_file};

use crate::index::ClassIndex;
use crate::stored::{StoredClass, StoredFile, StoredMethod, store_file};
use mj_tree::FileTree;
use ordered_names::Name;
use std::alloc::{AllocError, Global};
use std::marker::Model;

/// The tree of a file, with tokens in four bytes and at most 500 levels. Contracts see it, but not where it lies in
/// memory.
pub struct Tree {
    root: StoredFile,
    index: ClassIndex,
}

impl Drop for Tree {
    fn drop(self) {
        let Tree { root: _, index: _ } = self;
    }
}

impl Model for Tree {
    ghost use Rattle.mj_tree.specs.Trees.{File};
    ghost use Rattle.tree_spelling.specs.Codes.{file_code};

    ghost Value = { File };

    ghost coded = { file_code };

    ghost use Rattle.tree_bytes.specs.Indexes.{IsIndexOf};
    ghost use Rattle.tree_spelling.specs.Storable.{FileFits};
    ghost use Rattle.tree_bytes.specs.Stored.{stored_file};

    ghost view = { λ tree. stored_file tree.root };

    ghost invariant = { λ tree. FileFits (stored_file tree.root)
        × IsIndexOf tree.index (stored_file tree.root).classes };
}

impl Tree {
    /// The tree with this root, whose methods are kept as bytes.
    pub fn new(alloc: Global, root: FileTree) -> Result<Self, AllocError>
        requires { FileFits (file_view root) }
        ensures { IfOk result (λ tree. tree ≡ file_view root) }
    {
        let root = store_file(alloc, root)?;
        Tree::of_stored(alloc, root)
    }

    /// The tree with this root, whose classes are found by their names.
    pub(crate) fn of_stored(alloc: Global, root: StoredFile) -> Result<Self, AllocError>
        requires { FileFits (stored_file root) }
        ensures { IfOk result (λ tree. tree ≡ stored_file root) }
    {
        let index = ClassIndex::new(alloc, &root.classes)?;
        Ok(Tree { root, index })
    }

    /// The root.
    pub fn root(&self) -> &StoredFile
        ensures value { stored_file result.now ≡ self.now }
        ensures fits { FileFits self.now }
    {
        &self.root
    }

    /// The first class of this name. The main class is none of these.
    pub fn class(&self, name: &Name) -> Option<&StoredClass>
        ensures { option_map stored_class (option_copied result)
            ≡ first_class name.now self.now.classes }
    {
        let at = self.index.class(name)?;
        Some(&self.root.classes[at])
    }

    /// The first method of this name in the first class of this name. The main class is none of these.
    pub fn method(&self, class: &Name, method: &Name) -> Option<&StoredMethod>
        ensures { option_copied result
            ≡ option_and_then (λ k. first_method method.now k.methods)
            (first_class class.now self.now.classes) }
    {
        let class_at = self.index.class(class)?;
        let method_at = self.index.method(class_at, method)?;
        Some(&self.root.classes[class_at].methods[method_at])
    }
}

//! The formats of trees, of their parts and of bodies.
ghost use Rattle.std.specs.Prelude.{◌≡◌};

use crate::body::{Body, skip_body};
use crate::files::{read_class, read_file, read_main};
use crate::methods::read_stored_method;
use crate::stored::{StoredClass, StoredMain, StoredMethod};
use crate::tree::Tree;
use crate::writing::{put_class, put_file, put_main};
use byte_readers::{Format, ReadError};
use std::alloc::{AllocError, Global};

/// Methods of a class, behind the tag that distinguishes them from `main`.
pub struct MethodFormat;

impl Format for MethodFormat {
    ghost use Rattle.mj_tree.specs.Trees.{Method};
    ghost use Rattle.byte_readers.specs.Views.{plain};
    ghost use Rattle.tree_spelling.specs.Spelling.{tagged_method};
    ghost use Rattle.tree_spelling.specs.Storable.{MethodFits};
    ghost use Rattle.tree_spelling.specs.Reading.{tagged_method_at};
    ghost use Rattle.tree_spelling.specs.FileLaws.{lawful_tagged};

    type Item = StoredMethod;

    ghost Seen = { Method };

    ghost view = { plain };

    ghost is_storable = { λ _. Unit {0} };

    ghost has_spelling = { MethodFits };

    ghost spelling = { tagged_method };

    ghost reading = { tagged_method_at };

    ghost lawful = { lawful_tagged };

    fn check(item: &StoredMethod) {
        let _name = item.name();
    }

    fn write(out: &mut Vec<u8>, item: &StoredMethod) -> Result<(), AllocError> {
        out.extend_from_slice(item.body().bytes())
    }

    fn read(alloc: Global, bytes: &[u8]) -> Result<(StoredMethod, &[u8]), ReadError> {
        read_stored_method(alloc, bytes)
    }
}

/// Classes with their fields and methods.
pub struct ClassTreeFormat;

impl Format for ClassTreeFormat {
    ghost use Rattle.mj_tree.specs.Trees.{Class};
    ghost use Rattle.tree_bytes.specs.Stored.{stored_class};
    ghost use Rattle.byte_readers.specs.Views.{seen_by};
    ghost use Rattle.tree_spelling.specs.Spelling.{class};
    ghost use Rattle.tree_spelling.specs.Storable.{ClassFits};
    ghost use Rattle.tree_spelling.specs.Reading.{class_at};
    ghost use Rattle.tree_spelling.specs.FileLaws.{lawful_class};

    type Item = StoredClass;

    ghost Seen = { Class };

    ghost view = { seen_by stored_class };

    ghost is_storable = { λ c. ClassFits (stored_class c) };

    ghost has_spelling = { ClassFits };

    ghost spelling = { class };

    ghost reading = { class_at };

    ghost lawful = { lawful_class };

    fn check(item: &StoredClass) {
        let _class = item;
    }

    fn write(out: &mut Vec<u8>, item: &StoredClass) -> Result<(), AllocError> {
        put_class(out, item)
    }

    fn read(alloc: Global, bytes: &[u8]) -> Result<(StoredClass, &[u8]), ReadError> {
        read_class(alloc, bytes)
    }
}

/// Main classes: their name and their statement.
pub struct MainFormat;

impl Format for MainFormat {
    ghost use Rattle.mj_tree.specs.Trees.{Main};
    ghost use Rattle.byte_readers.specs.Views.{plain};
    ghost use Rattle.tree_spelling.specs.Spelling.{main};
    ghost use Rattle.tree_spelling.specs.Storable.{MainFits};
    ghost use Rattle.tree_spelling.specs.Reading.{main_at};
    ghost use Rattle.tree_spelling.specs.FileLaws.{lawful_main};

    type Item = StoredMain;

    ghost Seen = { Main };

    ghost view = { plain };

    ghost is_storable = { λ _. Unit {0} };

    ghost has_spelling = { MainFits };

    ghost spelling = { main };

    ghost reading = { main_at };

    ghost lawful = { lawful_main };

    fn check(item: &StoredMain) {
        let _name = item.name();
    }

    fn write(out: &mut Vec<u8>, item: &StoredMain) -> Result<(), AllocError> {
        put_main(out, item)
    }

    fn read(alloc: Global, bytes: &[u8]) -> Result<(StoredMain, &[u8]), ReadError> {
        read_main(alloc, bytes)
    }
}

/// Trees of files.
pub struct TreeFormat;

impl Format for TreeFormat {
    ghost use Rattle.tree_spelling.specs.Spelling.{file};
    ghost use Rattle.tree_spelling.specs.Storable.{FileFits};
    ghost use Rattle.tree_spelling.specs.Reading.{file_at};
    ghost use Rattle.tree_spelling.specs.FileLaws.{lawful_file};
    ghost use Rattle.mj_tree.specs.Trees.{File};
    ghost use Rattle.byte_readers.specs.Views.{plain};

    type Item = Tree;

    ghost Seen = { File };

    ghost view = { plain };

    ghost is_storable = { λ _. Unit {0} };

    ghost has_spelling = { FileFits };

    ghost spelling = { file };

    ghost reading = { file_at };

    ghost lawful = { lawful_file };

    fn check(item: &Tree) {
        let _file = item.root();
    }

    fn write(out: &mut Vec<u8>, item: &Tree) -> Result<(), AllocError> {
        put_file(out, item.root())
    }

    fn read(alloc: Global, bytes: &[u8]) -> Result<(Tree, &[u8]), ReadError> {
        let (root, rest) = read_file(alloc, bytes)?;
        let tree = Tree::of_stored(alloc, root)?;
        Ok((tree, rest))
    }
}

/// Bodies: 00 and a statement, or 01 and a method.
pub struct BodyFormat;

impl Format for BodyFormat {
    ghost use Rattle.tree_bytes.specs.Bodies.{body, BodyFits, body_at};
    ghost use Rattle.tree_bytes.specs.BodyLaws.{lawful_body};
    ghost use Rattle.tree_bytes.specs.Bodies.{BodyValue};
    ghost use Rattle.byte_readers.specs.Views.{plain};

    type Item = Body;

    ghost Seen = { BodyValue };

    ghost view = { plain };

    ghost is_storable = { λ _. Unit {0} };

    ghost has_spelling = { BodyFits };

    ghost spelling = { body };

    ghost reading = { body_at };

    ghost lawful = { lawful_body };

    fn check(item: &Body) {
        let _bytes = item.bytes();
    }

    fn write(out: &mut Vec<u8>, item: &Body) -> Result<(), AllocError> {
        out.extend_from_slice(item.bytes())
    }

    fn read(alloc: Global, bytes: &[u8]) -> Result<(Body, &[u8]), ReadError> {
        let left = skip_body(bytes)?;
        let body = Body::front(alloc, bytes, left)?;
        Ok((body, left))
    }
}

//! Reading classes and files.
ghost use Rattle.std.specs.Prelude.{◌≡◌};
ghost use Rattle.byte_readers.specs.Reading.{Decodes};
ghost use Rattle.tree_spelling.specs.Reading.{main_at, class_at, file_at};
ghost use Rattle.tree_bytes.specs.Stored.{stored_class, stored_file};

use crate::body::Body;
use crate::formats::{ClassTreeFormat, MainFormat, MethodFormat};
use crate::stored::{StoredClass, StoredFile, StoredMain};
use byte_readers::{NameFormat, ReadError, check_name, read_list, read_name, read_option};
use std::alloc::Global;
use tree_skipping::skip_top_stmt;
use tree_spelling::FieldFormat;

/// Reads a main class.
#[tactic(auto, unfolding(tree_spelling::specs::Reading::main_at))]
pub fn read_main(alloc: Global, bytes: &[u8]) -> Result<(StoredMain, &[u8]), ReadError>
    ensures { Decodes (λ x. x) result (main_at bytes.now) }
{
    let (name, rest) = read_name(alloc, bytes)?;
    let left = skip_top_stmt(rest)?;
    let body = Body::front_main(alloc, rest, left)?;
    check_name(&name);
    Ok((StoredMain { name, body }, left))
}

/// Reads a class.
#[tactic(auto, unfolding(tree_spelling::specs::Reading::class_at))]
pub fn read_class(alloc: Global, bytes: &[u8]) -> Result<(StoredClass, &[u8]), ReadError>
    ensures { Decodes stored_class result (class_at bytes.now) }
{
    let (name, rest) = read_name(alloc, bytes)?;
    let (superclass, rest) = read_option::<NameFormat>(alloc, rest)?;
    let (fields, rest) = read_list::<FieldFormat>(alloc, rest)?;
    let (methods, rest) = read_list::<MethodFormat>(alloc, rest)?;
    Ok((
        StoredClass {
            name,
            superclass,
            fields,
            methods,
        },
        rest,
    ))
}

/// Reads a file.
#[tactic(auto, unfolding(tree_spelling::specs::Reading::file_at))]
pub fn read_file(alloc: Global, bytes: &[u8]) -> Result<(StoredFile, &[u8]), ReadError>
    ensures { Decodes stored_file result (file_at bytes.now) }
{
    let (main, rest) = read_option::<MainFormat>(alloc, bytes)?;
    let (classes, rest) = read_list::<ClassTreeFormat>(alloc, rest)?;
    Ok((StoredFile { main, classes }, rest))
}

//! Writing classes and files.
ghost use Rattle.std.specs.Prelude.{◌≡◌, ◌++◌, OnOk};
ghost use Rattle.tree_spelling.specs.Spelling.{main, class, file};
ghost use Rattle.tree_bytes.specs.Stored.{stored_class, stored_file};

use crate::formats::{ClassTreeFormat, MainFormat, MethodFormat};
use crate::stored::{StoredClass, StoredFile, StoredMain};
use byte_readers::{NameFormat, put_list, put_name, put_option};
use std::alloc::AllocError;
use tree_spelling::FieldFormat;

/// Writes a main class. Its statement stands behind the tag of its body.
pub fn put_main(out: &mut Vec<u8>, m: &StoredMain) -> Result<(), AllocError>
    ensures { OnOk result (out.new.items ≡ out.old.items ++ main m.now) }
{
    put_name(out, m.name())?;
    out.extend_from_slice(&m.body().bytes()[1..])
}

/// Writes a class.
#[tactic(auto, unfolding(tree_spelling::specs::Spelling::class))]
pub fn put_class(out: &mut Vec<u8>, c: &StoredClass) -> Result<(), AllocError>
    ensures { OnOk result (out.new.items ≡ out.old.items ++ class (stored_class c.now)) }
{
    put_name(out, &c.name)?;
    put_option::<NameFormat>(out, &c.superclass)?;
    put_list::<FieldFormat>(out, &c.fields)?;
    put_list::<MethodFormat>(out, &c.methods)
}

/// Writes a file.
#[tactic(auto, unfolding(tree_spelling::specs::Spelling::file))]
pub fn put_file(out: &mut Vec<u8>, f: &StoredFile) -> Result<(), AllocError>
    ensures { OnOk result (out.new.items ≡ out.old.items ++ file (stored_file f.now)) }
{
    put_option::<MainFormat>(out, &f.main)?;
    put_list::<ClassTreeFormat>(out, &f.classes)
}

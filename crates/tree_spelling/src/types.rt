//! Declared types and fields.
ghost use Rattle.std.specs.Prelude.{◌≡◌, ◌++◌, OnOk};
ghost use Rattle.byte_readers.specs.Reading.{Decodes};
ghost use Rattle.tree_spelling.specs.Spelling.{ty};
ghost use Rattle.tree_spelling.specs.Storable.{TyFits};
ghost use Rattle.tree_spelling.specs.Reading.{ty_at};

use byte_readers::{Breach, Format, ReadError, check_name, not_canonical, put_name, read_name};
use mj_tree::{Field, Ty};
use std::alloc::{AllocError, Global};

/// A type has a spelling.
pub fn check_ty(item: &Ty)
    ensures { TyFits item.now }
{
    if let Ty::Class(class) = item {
        check_name(class);
    }
}

/// Writes a type.
pub fn put_ty(out: &mut Vec<u8>, item: &Ty) -> Result<(), AllocError>
    ensures { OnOk result (out.new.items ≡ out.old.items ++ ty item.now) }
{
    match item {
        Ty::Int => out.push(0x00)?,
        Ty::Boolean => out.push(0x01)?,
        Ty::IntArray => out.push(0x02)?,
        Ty::Class(class) => {
            out.push(0x03)?;
            put_name(out, class)?;
        }
    }
    Ok(())
}

/// Reads a type.
#[tactic(auto, unfolding(crate::specs::Reading::ty_at))]
pub fn read_ty(alloc: Global, bytes: &[u8]) -> Result<(Ty, &[u8]), ReadError>
    ensures { Decodes (λ x. x) result (ty_at bytes.now) }
{
    match bytes {
        [] => Err(ReadError::Breach(Breach::Short)),
        [0x00, rest @ ..] => Ok((Ty::Int, rest)),
        [0x01, rest @ ..] => Ok((Ty::Boolean, rest)),
        [0x02, rest @ ..] => Ok((Ty::IntArray, rest)),
        [0x03, rest @ ..] => {
            let (class, rest) = read_name(alloc, rest)?;
            Ok((Ty::Class(class), rest))
        }
        [_, ..] => Err(not_canonical(bytes)),
    }
}

/// Declared types.
pub struct TypeFormat;

impl Format for TypeFormat {
    ghost use Rattle.tree_spelling.specs.Spelling.{ty};
    ghost use Rattle.tree_spelling.specs.Storable.{TyFits};
    ghost use Rattle.tree_spelling.specs.Reading.{ty_at};
    ghost use Rattle.tree_spelling.specs.TypeLaws.{lawful_ty};
    ghost use Rattle.mj_tree.specs.declared.tree.Ty.{Ty};
    ghost use Rattle.byte_readers.specs.Views.{plain};

    type Item = Ty;

    ghost Seen = { Ty };

    ghost view = { plain };

    ghost is_storable = { λ _. Unit {0} };

    ghost has_spelling = { TyFits };

    ghost spelling = { ty };

    ghost reading = { ty_at };

    ghost lawful = { lawful_ty };

    fn check(item: &Ty) {
        check_ty(item)
    }

    fn write(out: &mut Vec<u8>, item: &Ty) -> Result<(), AllocError> {
        put_ty(out, item)
    }

    fn read(alloc: Global, bytes: &[u8]) -> Result<(Ty, &[u8]), ReadError> {
        read_ty(alloc, bytes)
    }
}

/// Fields: the name, and the type.
pub struct FieldFormat;

impl Format for FieldFormat {
    ghost use Rattle.tree_spelling.specs.Spelling.{field};
    ghost use Rattle.tree_spelling.specs.Storable.{FieldFits};
    ghost use Rattle.tree_spelling.specs.Reading.{field_at};
    ghost use Rattle.tree_spelling.specs.TypeLaws.{lawful_field};
    ghost use Rattle.mj_tree.specs.declared.tree.Field.{Field};
    ghost use Rattle.byte_readers.specs.Views.{plain};

    type Item = Field;

    ghost Seen = { Field };

    ghost view = { plain };

    ghost is_storable = { λ _. Unit {0} };

    ghost has_spelling = { FieldFits };

    ghost spelling = { field };

    ghost reading = { field_at };

    ghost lawful = { lawful_field };

    fn check(item: &Field) {
        check_name(&item.name);
        check_ty(&item.ty);
    }

    fn write(out: &mut Vec<u8>, item: &Field) -> Result<(), AllocError> {
        put_name(out, &item.name)?;
        put_ty(out, &item.ty)
    }

    fn read(alloc: Global, bytes: &[u8]) -> Result<(Field, &[u8]), ReadError> {
        let (name, rest) = read_name(alloc, bytes)?;
        let (ty, rest) = read_ty(alloc, rest)?;
        Ok((Field { name, ty }, rest))
    }
}

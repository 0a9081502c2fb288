//! Formals and locals.
ghost use Rattle.std.specs.Prelude.{◌≡◌};

use crate::types::{check_ty, put_ty, read_ty};
use byte_readers::{Format, ReadError, check_name, put_four, put_name, read_four, read_name};
use mj_tree::Variable;
use std::alloc::{AllocError, Global};

/// Formals and locals: the name, the type, and the first token of the type.
pub struct VariableFormat;

impl Format for VariableFormat {
    ghost use Rattle.tree_spelling.specs.Spelling.{variable};
    ghost use Rattle.tree_spelling.specs.Storable.{VariableFits, IsMark};
    ghost use Rattle.tree_spelling.specs.Reading.{variable_at};
    ghost use Rattle.tree_spelling.specs.TypeLaws.{lawful_variable};
    ghost use Rattle.mj_tree.specs.declared.tree.Variable.{Variable};
    ghost use Rattle.byte_readers.specs.Views.{plain};

    type Item = Variable;

    ghost Seen = { Variable };

    ghost view = { plain };

    ghost is_storable = { λ v. IsMark v.mark };

    ghost has_spelling = { VariableFits };

    ghost spelling = { variable };

    ghost reading = { variable_at };

    ghost lawful = { lawful_variable };

    fn check(item: &Variable) {
        check_name(&item.name);
        check_ty(&item.ty);
    }

    fn write(out: &mut Vec<u8>, item: &Variable) -> Result<(), AllocError> {
        put_name(out, &item.name)?;
        put_ty(out, &item.ty)?;
        put_four(out, item.mark)
    }

    fn read(alloc: Global, bytes: &[u8]) -> Result<(Variable, &[u8]), ReadError> {
        let (name, rest) = read_name(alloc, bytes)?;
        let (ty, rest) = read_ty(alloc, rest)?;
        let (mark, rest) = read_four(rest)?;
        let mark = mark as usize;
        Ok((Variable { name, ty, mark }, rest))
    }
}

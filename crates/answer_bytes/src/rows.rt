//! The rows of tables as bytes.
ghost use Rattle.std.specs.Prelude.{◌≡◌};

use byte_readers::{
    Format, Ordered, ReadError, check_list, check_name, put_list, put_name, read_list, read_name,
};
use mj_answer::{FieldRow, MethodRow};
use std::alloc::{AllocError, Global};
use tree_spelling::{TypeFormat, check_ty, put_ty, read_ty};

/// Fields with their owners, in the order of their names.
pub struct FieldRowFormat;

impl Format for FieldRowFormat {
    ghost use Rattle.answer_bytes.specs.Canon.{field_row};
    ghost use Rattle.answer_bytes.specs.Storable.{FieldRowFits};
    ghost use Rattle.answer_bytes.specs.Reading.{field_row_at};
    ghost use Rattle.answer_bytes.specs.AnswerLaws.{lawful_field_row};
    ghost use Rattle.mj_answer.specs.declared.table.FieldRow.{FieldRow};
    ghost use Rattle.byte_readers.specs.Views.{plain};

    type Item = FieldRow;

    ghost Seen = { FieldRow };

    ghost view = { plain };

    ghost is_storable = { λ _. Unit {0} };

    ghost has_spelling = { FieldRowFits };

    ghost spelling = { field_row };

    ghost reading = { field_row_at };

    ghost lawful = { lawful_field_row };

    fn check(item: &FieldRow) {
        check_name(&item.name);
        check_name(&item.owner);
        check_ty(&item.ty);
    }

    fn write(out: &mut Vec<u8>, item: &FieldRow) -> Result<(), AllocError> {
        put_name(out, &item.name)?;
        put_name(out, &item.owner)?;
        put_ty(out, &item.ty)
    }

    fn read(alloc: Global, bytes: &[u8]) -> Result<(FieldRow, &[u8]), ReadError> {
        let (name, rest) = read_name(alloc, bytes)?;
        let (owner, rest) = read_name(alloc, rest)?;
        let (ty, rest) = read_ty(alloc, rest)?;
        Ok((FieldRow { name, owner, ty }, rest))
    }
}

impl Ordered for FieldRowFormat {
    ghost use Rattle.answer_bytes.specs.Reading.{by_name, field_row_at};
    ghost use Rattle.byte_readers.specs.Views.{tells_plain};

    ghost precedes = { by_name (λ row. row.name) };

    ghost item_reading = { field_row_at };

    ghost tells = { tells_plain field_row_at };

    fn precedes(item: &FieldRow, other: &FieldRow) -> bool {
        item.name.cmp(&other.name).is_lt()
    }
}

/// Methods with their owners, in the order of their names.
pub struct MethodRowFormat;

impl Format for MethodRowFormat {
    ghost use Rattle.answer_bytes.specs.Canon.{method_row};
    ghost use Rattle.answer_bytes.specs.Storable.{MethodRowFits};
    ghost use Rattle.answer_bytes.specs.Reading.{method_row_at};
    ghost use Rattle.answer_bytes.specs.AnswerLaws.{lawful_method_row};
    ghost use Rattle.mj_answer.specs.AnswerValues.{MethodRowValue};
    ghost use Rattle.byte_readers.specs.Views.{plain};

    type Item = MethodRow;

    ghost Seen = { MethodRowValue };

    ghost view = { plain };

    ghost is_storable = { λ _. Unit {0} };

    ghost has_spelling = { MethodRowFits };

    ghost spelling = { method_row };

    ghost reading = { method_row_at };

    ghost lawful = { lawful_method_row };

    #[tactic(auto, using(byte_readers::specs::Laws::all_storable))]
    fn check(item: &MethodRow) {
        check_name(item.name());
        check_name(item.owner());
        check_list::<TypeFormat>(item.formals());
        check_ty(item.returns());
    }

    fn write(out: &mut Vec<u8>, item: &MethodRow) -> Result<(), AllocError> {
        put_name(out, item.name())?;
        put_name(out, item.owner())?;
        put_list::<TypeFormat>(out, item.formals())?;
        put_ty(out, item.returns())
    }

    fn read(alloc: Global, bytes: &[u8]) -> Result<(MethodRow, &[u8]), ReadError> {
        let (name, rest) = read_name(alloc, bytes)?;
        let (owner, rest) = read_name(alloc, rest)?;
        let (formals, rest) = read_list::<TypeFormat>(alloc, rest)?;
        let (returns, rest) = read_ty(alloc, rest)?;
        Ok((MethodRow::new(name, owner, formals, returns), rest))
    }
}

impl Ordered for MethodRowFormat {
    ghost use Rattle.answer_bytes.specs.Reading.{by_name, method_row_at};
    ghost use Rattle.byte_readers.specs.Views.{tells_plain};

    ghost precedes = { by_name (λ row. row.name) };

    ghost item_reading = { method_row_at };

    ghost tells = { tells_plain method_row_at };

    fn precedes(item: &MethodRow, other: &MethodRow) -> bool {
        item.name().cmp(other.name()).is_lt()
    }
}

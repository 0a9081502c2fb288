//! What results say about the members of a class.
ghost use Rattle.std.specs.Prelude.{◌≡◌, find, option_copied, option_map, IfOk};
ghost use Rattle.std.specs.Str.{bytes_eq};
ghost use Rattle.body_questions.specs.Members.{fields_in, methods_in, field_in as field_told, method_in as method_told};

use mj_answer::{FieldRow, MethodRow, find_by_name};
use mj_phrases::{MethodSignature, MethodTypes};
use mj_tree::{Ty, copy_types};
use ordered_names::Name;
use result_bytes::Value;
use std::alloc::{AllocError, Global};

/// The row of a field in an answer.
fn field_row<'v>(value: &'v Value, name: &Name) -> Option<&'v FieldRow>
    ensures { option_copied result
        ≡ find (λ row. bytes_eq row.name name.now) (fields_in value.now) }
{
    match value.members() {
        Some(members) => find_by_name(members.table().fields(), name),
        None => None,
    }
}

/// The row of a method in an answer.
pub fn method_row<'v>(value: &'v Value, name: &Name) -> Option<&'v MethodRow>
    ensures { option_copied result
        ≡ find (λ row. bytes_eq row.name name.now) (methods_in value.now) }
{
    match value.members() {
        Some(members) => find_by_name(members.table().methods(), name),
        None => None,
    }
}

/// The types in a method's row.
fn types_in(alloc: Global, row: &MethodRow) -> Result<MethodTypes, AllocError>
    ensures { IfOk result (λ types. (types.formals.items ≡ row.now.formals)
        × (types.returns ≡ row.now.returns)) }
{
    let formals = copy_types(alloc, row.formals())?;
    let returns = row.returns().copy(alloc)?;
    Ok(MethodTypes { formals, returns })
}

/// The type of a field in an answer.
pub fn field_in(alloc: Global, value: &Value, name: &Name) -> Result<Option<Ty>, AllocError>
    ensures { IfOk result (λ ty. ty ≡ field_told value.now name.now) }
{
    match field_row(value, name) {
        Some(row) => Ok(Some(row.ty.copy(alloc)?)),
        None => Ok(None),
    }
}

/// The types of a method in an answer.
pub fn method_in(
    alloc: Global,
    value: &Value,
    name: &Name,
) -> Result<Option<MethodTypes>, AllocError>
    ensures { IfOk result (λ types. option_map ⟦<MethodTypes as MethodSignature>⟧.sig types
        ≡ method_told value.now name.now) }
{
    match method_row(value, name) {
        Some(row) => Ok(Some(types_in(alloc, row)?)),
        None => Ok(None),
    }
}

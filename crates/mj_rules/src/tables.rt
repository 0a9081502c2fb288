//! The tables of classes.
ghost use Rattle.std.specs.Prelude.{◌≡◌, map, IfOk};
ghost use Rattle.mj_members.specs.Classes.{field_member_view, method_member_view};
ghost use Rattle.mj_rules.specs.Tables.{field_row, method_row};

use mj_answer::{ClassTable, FieldRow, MethodRow};
use mj_classes::{FieldMember, MethodMember};
use mj_tables::MemberTable;
use mj_tree::{Ty, Variable};
use std::alloc::{AllocError, Global};

/// The types of formals.
pub fn formal_types(alloc: Global, formals: &[Variable]) -> Result<Vec<Ty>, AllocError>
    ensures { IfOk result (λ types. types.items ≡ map (λ v. v.ty) formals.now) }
{
    let mut types = Vec::new(alloc);
    for formal in formals {
        types.push(formal.ty.copy(alloc)?)?;
    }
    Ok(types)
}

/// The row of a field.
pub fn field_row(alloc: Global, member: &FieldMember) -> Result<FieldRow, AllocError>
    ensures { IfOk result (λ row. row ≡ field_row (field_member_view member.now)) }
{
    Ok(FieldRow {
        name: member.field.name.copy(alloc)?,
        owner: member.owner.copy(alloc)?,
        ty: member.field.ty.copy(alloc)?,
    })
}

fn method_row(alloc: Global, member: &MethodMember) -> Result<MethodRow, AllocError>
    ensures { IfOk result (λ row. row ≡ method_row (method_member_view member.now)) }
{
    let name = member.method.name.copy(alloc)?;
    let owner = member.owner.copy(alloc)?;
    let formals = formal_types(alloc, &member.method.formals)?;
    let returns = member.method.returns.copy(alloc)?;
    Ok(MethodRow::new(name, owner, formals, returns))
}

fn field_rows(alloc: Global, members: &[FieldMember]) -> Result<Vec<FieldRow>, AllocError>
    ensures { IfOk result (λ rows.
        rows.items ≡ map field_row (map field_member_view members.now)) }
{
    let mut rows = Vec::new(alloc);
    for member in members {
        rows.push(field_row(alloc, member)?)?;
    }
    Ok(rows)
}

fn method_rows(alloc: Global, members: &[MethodMember]) -> Result<Vec<MethodRow>, AllocError>
    ensures { IfOk result (λ rows.
        rows.items ≡ map method_row (map method_member_view members.now)) }
{
    let mut rows = Vec::new(alloc);
    for member in members {
        rows.push(method_row(alloc, member)?)?;
    }
    Ok(rows)
}

/// The table of a class that has these members, as it is answered.
pub fn class_table(alloc: Global, members: &MemberTable) -> Result<ClassTable, AllocError>
    ensures fields { IfOk result (λ table.
        table.fields ≡ map field_row (map field_member_view members.now.fields.items)) }
    ensures methods { IfOk result (λ table.
        table.methods ≡ map method_row (map method_member_view members.now.methods.items)) }
{
    let fields = field_rows(alloc, &members.fields)?;
    let methods = method_rows(alloc, &members.methods)?;
    Ok(ClassTable::new(fields, methods))
}

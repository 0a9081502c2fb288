//! The printed text of an answer.
ghost use Rattle.std.specs.Prelude.{◌≡◌, ◌++◌, IfOk, OnOk, flat_map, string_bytes};
ghost use Rattle.mj_answer.specs.Text.{place_text, fault_line, indented_fault_line, type_text, types_text, field_line, method_line, class_text, text_of};

use crate::diagnostic::Diagnostic;
use crate::table::{Answer, ClassAnswer, FieldRow, MethodRow};
use mj_tree::{Place, Ty};
use std::alloc::{AllocError, Global};
use std::fmt::Write;

/// The answer's text: the diagnostics of the project itself, then each class with its fields, methods and diagnostics,
/// in lines that end in LF.
pub fn render(alloc: Global, answer: &Answer) -> Result<String, AllocError>
    ensures { IfOk result (λ text. string_bytes text ≡ text_of answer.now) }
{
    let mut text = String::new(alloc);
    write_faults(&mut text, answer.faults())?;
    write_classes(&mut text, answer.classes())?;
    Ok(text)
}

fn write_classes(text: &mut String, classes: &[ClassAnswer]) -> Result<(), AllocError>
    ensures { OnOk result
        (string_bytes text.new ≡ string_bytes text.old ++ flat_map class_text classes.now) }
{
    for class in classes {
        write_class(text, class)?;
    }
    Ok(())
}

fn write_class(text: &mut String, class: &ClassAnswer) -> Result<(), AllocError>
    ensures { OnOk result (string_bytes text.new ≡ string_bytes text.old ++ class_text class.now) }
{
    writeln!(text, "class {}", class.name().as_str())?;
    write_fields(text, class.table().fields())?;
    write_methods(text, class.table().methods())?;
    write_indented_faults(text, class.faults())
}

fn write_fields(text: &mut String, rows: &[FieldRow]) -> Result<(), AllocError>
    ensures { OnOk result
        (string_bytes text.new ≡ string_bytes text.old ++ flat_map field_line rows.now) }
{
    for row in rows {
        write_field(text, row)?;
    }
    Ok(())
}

fn write_field(text: &mut String, row: &FieldRow) -> Result<(), AllocError>
    ensures { OnOk result (string_bytes text.new ≡ string_bytes text.old ++ field_line row.now) }
{
    writeln!(
        text,
        "  field {}: {} from {}",
        row.name.as_str(),
        type_name(&row.ty),
        row.owner.as_str()
    )
}

fn write_methods(text: &mut String, rows: &[MethodRow]) -> Result<(), AllocError>
    ensures { OnOk result
        (string_bytes text.new ≡ string_bytes text.old ++ flat_map method_line rows.now) }
{
    for row in rows {
        write_method(text, row)?;
    }
    Ok(())
}

fn write_method(text: &mut String, row: &MethodRow) -> Result<(), AllocError>
    ensures { OnOk result (string_bytes text.new ≡ string_bytes text.old ++ method_line row.now) }
{
    write!(text, "  method {}(", row.name().as_str())?;
    write_types(text, row.formals())?;
    writeln!(
        text,
        "): {} from {}",
        type_name(row.returns()),
        row.owner().as_str()
    )
}

/// The types with commas between them.
fn write_types(text: &mut String, types: &[Ty]) -> Result<(), AllocError>
    ensures { OnOk result (string_bytes text.new ≡ string_bytes text.old ++ types_text types.now) }
{
    let Some((first, others)) = types.split_first() else {
        return Ok(());
    };
    text.push_str(type_name(first))?;
    for ty in others {
        write!(text, ", {}", type_name(ty))?;
    }
    Ok(())
}

fn type_name(ty: &Ty) -> &str
    ensures { result.now ≡ type_text ty.now }
{
    match ty {
        Ty::Int => "int",
        Ty::Boolean => "boolean",
        Ty::IntArray => "int[]",
        Ty::Class(name) => name.as_str(),
    }
}

fn write_faults(text: &mut String, faults: &[Diagnostic]) -> Result<(), AllocError>
    ensures { OnOk result
        (string_bytes text.new ≡ string_bytes text.old ++ flat_map fault_line faults.now) }
{
    for fault in faults {
        write_fault(text, fault)?;
    }
    Ok(())
}

fn write_indented_faults(text: &mut String, faults: &[Diagnostic]) -> Result<(), AllocError>
    ensures { OnOk result
        (string_bytes text.new
        ≡ string_bytes text.old ++ flat_map indented_fault_line faults.now) }
{
    for fault in faults {
        text.push_str("  ")?;
        write_fault(text, fault)?;
    }
    Ok(())
}

fn write_fault(text: &mut String, fault: &Diagnostic) -> Result<(), AllocError>
    ensures { OnOk result (string_bytes text.new ≡ string_bytes text.old ++ fault_line fault.now) }
{
    write!(text, "{} ", fault.code)?;
    write_place(text, &fault.place)?;
    text.push_str("\n")
}

fn write_place(text: &mut String, place: &Place) -> Result<(), AllocError>
    ensures { OnOk result (string_bytes text.new ≡ string_bytes text.old ++ place_text place.now) }
{
    match place {
        Place::Project => text.push_str("project"),
        Place::File(name) => write!(text, "file {}", name.as_str()),
        Place::ClassOf(name, number) => write!(text, "file {} class {number}", name.as_str()),
        Place::Class => text.push_str("class"),
        Place::Field(number) => write!(text, "field {number}"),
        Place::Method(number) => write!(text, "method {number}"),
        Place::Inside(method, token) => write!(text, "in {} at {token}", method.as_str()),
    }
}

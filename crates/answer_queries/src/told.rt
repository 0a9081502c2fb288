//! The diagnostics of a class's declarations that follow from answers.
ghost use Rattle.std.specs.Prelude.{◌≡◌, ◌++◌, IfOk, OnOk, option_copied};
ghost use Rattle.named_files.specs.Repeats.{repeats as repeats_of};
ghost use Rattle.mj_rules.specs.FaultLists.{each_numbered};
ghost use Rattle.query_rules.specs.Items.{fault_set};
ghost use Rattle.answer_queries.specs.Told.{superclass_told, cycle_told, chain_told, field_told, method_told, header_field_faults, header_method_faults, faults_told};

use answer_bytes::Faults;
use body_query::{class_fault_set, note_fault};
use mj_answer::{Code, Diagnostic};
use mj_rules::repeated_fields;
use mj_tree::Place;
use named_files::repeats;
use ordered_names::Name;
use result_bytes::{ChainEnd, Header, Supers};
use std::alloc::{AllocError, Global};

/// Adds the diagnostic of a class whose chain has these classes and this end.
fn add_end(faults: &mut Vec<Diagnostic>, classes: &[Name], end: &ChainEnd) -> Result<(), AllocError>
    ensures { OnOk result
        (faults.new.items
        ≡ faults.old.items ++ (superclass_told classes.now end.now ++ cycle_told end.now)) }
{
    match end {
        ChainEnd::Undeclared(_) if classes.len() == 1 => {
            note_fault(faults, Place::Class, Code::E201)
        }
        ChainEnd::Repeated(_) => note_fault(faults, Place::Class, Code::E202),
        _ => Ok(()),
    }
}

/// Adds the diagnostic that follows from a chain.
fn add_chain(faults: &mut Vec<Diagnostic>, chain: Option<&Supers>) -> Result<(), AllocError>
    ensures { OnOk result
        (faults.new.items ≡ faults.old.items ++ chain_told (option_copied chain.entry)) }
{
    match chain {
        Some(chain) => add_end(faults, chain.classes(), chain.end()),
        None => Ok(()),
    }
}

/// Adds what is wrong with a field.
fn add_field(
    faults: &mut Vec<Diagnostic>,
    number: usize,
    repeated: bool,
    undeclared: bool,
) -> Result<(), AllocError>
    ensures { OnOk result
        (faults.new.items ≡ faults.old.items ++ field_told number repeated undeclared) }
{
    if repeated {
        note_fault(faults, Place::Field(number), Code::E203)?;
    }
    if undeclared {
        note_fault(faults, Place::Field(number), Code::E206)?;
    }
    Ok(())
}

/// Adds what is wrong with the fields whose names stand before them or whose types are undeclared.
fn add_fields(
    faults: &mut Vec<Diagnostic>,
    repeated: &[bool],
    undeclared: &[bool],
) -> Result<(), AllocError>
    ensures { OnOk result
        (faults.new.items
        ≡ faults.old.items ++ each_numbered field_told 0 undeclared.now repeated.now) }
{
    let count = undeclared.len().min(repeated.len());
    for number in 0..count {
        add_field(faults, number, repeated[number], undeclared[number])?;
    }
    Ok(())
}

/// Adds what is wrong with a method.
fn add_method(
    faults: &mut Vec<Diagnostic>,
    number: usize,
    repeated: bool,
    other: bool,
) -> Result<(), AllocError>
    ensures { OnOk result
        (faults.new.items ≡ faults.old.items ++ method_told number repeated other) }
{
    if repeated {
        note_fault(faults, Place::Method(number), Code::E204)?;
    } else if other {
        note_fault(faults, Place::Method(number), Code::E205)?;
    }
    Ok(())
}

/// Adds what is wrong with the methods whose names stand before them or which override other types.
fn add_methods(
    faults: &mut Vec<Diagnostic>,
    repeated: &[bool],
    others: &[bool],
) -> Result<(), AllocError>
    ensures { OnOk result
        (faults.new.items
        ≡ faults.old.items ++ each_numbered method_told 0 others.now repeated.now) }
{
    let count = others.len().min(repeated.len());
    for number in 0..count {
        add_method(faults, number, repeated[number], others[number])?;
    }
    Ok(())
}

/// For each method, whether its name stands before it.
fn repeated_methods(alloc: Global, methods: &[Name]) -> Result<Vec<bool>, AllocError>
    ensures { IfOk result (λ flags. flags.items ≡ repeats_of methods.now) }
{
    let mut names = Vec::new(alloc);
    for method in methods {
        names.push(method.as_str())?;
    }
    repeats(alloc, &names)
}

/// Adds what is wrong with the fields of a class with this header.
fn add_header_fields(
    alloc: Global,
    faults: &mut Vec<Diagnostic>,
    header: &Header,
    undeclared: &[bool],
) -> Result<(), AllocError>
    ensures { OnOk result
        (faults.new.items ≡ faults.old.items ++ header_field_faults header.now undeclared.now) }
{
    let repeated = repeated_fields(alloc, header.fields())?;
    add_fields(faults, repeated.as_slice(), undeclared)
}

/// Adds what is wrong with the methods of a class with this header.
fn add_header_methods(
    alloc: Global,
    faults: &mut Vec<Diagnostic>,
    header: &Header,
    others: &[bool],
) -> Result<(), AllocError>
    ensures { OnOk result
        (faults.new.items ≡ faults.old.items ++ header_method_faults header.now others.now) }
{
    let repeated = repeated_methods(alloc, header.methods())?;
    add_methods(faults, repeated.as_slice(), others)
}

/// The diagnostics of the declarations of a class with this header and this chain.
fn all_faults(
    alloc: Global,
    header: &Header,
    chain: Option<&Supers>,
    undeclared: &[bool],
    others: &[bool],
) -> Result<Vec<Diagnostic>, AllocError>
    ensures { IfOk result (λ faults. faults.items
        ≡ faults_told header.now (option_copied chain.entry) undeclared.now others.now) }
{
    let mut faults = Vec::new(alloc);
    add_chain(&mut faults, chain)?;
    add_header_fields(alloc, &mut faults, header, undeclared)?;
    add_header_methods(alloc, &mut faults, header, others)?;
    Ok(faults)
}

/// The diagnostics of the declarations of a class with this header and this chain, as a set.
pub fn faults_of(
    alloc: Global,
    header: &Header,
    chain: Option<&Supers>,
    undeclared: &[bool],
    others: &[bool],
) -> Result<Faults, AllocError>
    ensures { IfOk result (λ faults. faults
        ≡ fault_set (faults_told header.now (option_copied chain.entry) undeclared.now
        others.now)) }
{
    let faults = all_faults(alloc, header, chain, undeclared, others)?;
    Ok(class_fault_set(faults))
}

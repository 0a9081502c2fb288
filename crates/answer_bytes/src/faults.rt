//! Diagnostics as bytes: those of the project, and those of a class.
ghost use Rattle.std.specs.Prelude.{◌≡◌, ◌++◌, OnOk};
ghost use Rattle.mj_answer.specs.Codes.{code_number};
ghost use Rattle.byte_readers.specs.Spelling.{two};
ghost use Rattle.byte_readers.specs.Reading.{Decodes};
ghost use Rattle.answer_bytes.specs.Canon.{project_place, class_place};
ghost use Rattle.answer_bytes.specs.Storable.{PlaceNameFits};
ghost use Rattle.answer_bytes.specs.Reading.{project_place_at, class_place_at, code_at};

use byte_readers::{
    Breach, Format, Ordered, ReadError, check_name, not_canonical, put_four, put_name, put_two,
    read_four, read_name, read_two,
};
use mj_answer::{Code, Diagnostic};
use mj_tree::Place;
use std::alloc::{AllocError, Global};

/// The name in a place has a spelling.
fn check_place(place: &Place)
    ensures { PlaceNameFits place.now }
{
    match place {
        Place::File(name) | Place::ClassOf(name, _) | Place::Inside(name, _) => check_name(name),
        Place::Project | Place::Class | Place::Field(_) | Place::Method(_) => {}
    }
}

fn put_project_place(out: &mut Vec<u8>, place: &Place) -> Result<(), AllocError>
    ensures { OnOk result (out.new.items ≡ out.old.items ++ project_place place.now) }
{
    match place {
        Place::Project => out.push(0x00)?,
        Place::File(file) => {
            out.push(0x01)?;
            put_name(out, file)?;
        }
        Place::ClassOf(file, number) => {
            out.push(0x02)?;
            put_name(out, file)?;
            put_four(out, *number)?;
        }
        Place::Class | Place::Field(_) | Place::Method(_) | Place::Inside(_, _) => {}
    }
    Ok(())
}

fn put_class_place(out: &mut Vec<u8>, place: &Place) -> Result<(), AllocError>
    ensures { OnOk result (out.new.items ≡ out.old.items ++ class_place place.now) }
{
    match place {
        Place::Class => out.push(0x00)?,
        Place::Field(number) => {
            out.push(0x01)?;
            put_four(out, *number)?;
        }
        Place::Method(number) => {
            out.push(0x02)?;
            put_four(out, *number)?;
        }
        Place::Inside(method, token) => {
            out.push(0x03)?;
            put_name(out, method)?;
            put_four(out, *token)?;
        }
        Place::Project | Place::File(_) | Place::ClassOf(_, _) => {}
    }
    Ok(())
}

#[tactic(auto, unfolding(crate::specs::Reading::project_place_at))]
fn read_project_place(alloc: Global, bytes: &[u8]) -> Result<(Place, &[u8]), ReadError>
    ensures { Decodes (λ x. x) result (project_place_at bytes.now) }
{
    match bytes {
        [] => Err(ReadError::Breach(Breach::Short)),
        [0x00, rest @ ..] => Ok((Place::Project, rest)),
        [0x01, rest @ ..] => {
            let (file, rest) = read_name(alloc, rest)?;
            Ok((Place::File(file), rest))
        }
        [0x02, rest @ ..] => {
            let (file, rest) = read_name(alloc, rest)?;
            let (number, rest) = read_four(rest)?;
            Ok((Place::ClassOf(file, number as usize), rest))
        }
        [_, ..] => Err(not_canonical(bytes)),
    }
}

#[tactic(auto, unfolding(crate::specs::Reading::class_place_at))]
fn read_class_place(alloc: Global, bytes: &[u8]) -> Result<(Place, &[u8]), ReadError>
    ensures { Decodes (λ x. x) result (class_place_at bytes.now) }
{
    match bytes {
        [] => Err(ReadError::Breach(Breach::Short)),
        [0x00, rest @ ..] => Ok((Place::Class, rest)),
        [0x01, rest @ ..] => {
            let (number, rest) = read_four(rest)?;
            Ok((Place::Field(number as usize), rest))
        }
        [0x02, rest @ ..] => {
            let (number, rest) = read_four(rest)?;
            Ok((Place::Method(number as usize), rest))
        }
        [0x03, rest @ ..] => {
            let (method, rest) = read_name(alloc, rest)?;
            let (token, rest) = read_four(rest)?;
            Ok((Place::Inside(method, token as usize), rest))
        }
        [_, ..] => Err(not_canonical(bytes)),
    }
}

#[tactic(auto, unfolding(crate::specs::Reading::code_at))]
fn read_code(bytes: &[u8]) -> Result<(Code, &[u8]), ReadError>
    ensures { Decodes (λ x. x) result (code_at bytes.now) }
{
    let (number, rest) = read_two(bytes)?;
    match Code::from_number(number) {
        Some(code) => Ok((code, rest)),
        None => Err(not_canonical(bytes)),
    }
}

fn put_code(out: &mut Vec<u8>, code: Code) -> Result<(), AllocError>
    ensures { OnOk result (out.new.items ≡ out.old.items ++ two (code_number code)) }
{
    put_two(out, code.number())
}

/// Diagnostics of the project.
pub struct ProjectFaultFormat;

impl Format for ProjectFaultFormat {
    ghost use Rattle.answer_bytes.specs.Canon.{project_fault};
    ghost use Rattle.answer_bytes.specs.Storable.{IsProjectPlace, ProjectFaultFits};
    ghost use Rattle.answer_bytes.specs.Reading.{project_fault_at};
    ghost use Rattle.answer_bytes.specs.AnswerLaws.{lawful_project_fault};
    ghost use Rattle.mj_answer.specs.declared.diagnostic.Diagnostic.{Diagnostic};
    ghost use Rattle.byte_readers.specs.Views.{plain};

    type Item = Diagnostic;

    ghost Seen = { Diagnostic };

    ghost view = { plain };

    ghost is_storable = { λ fault. IsProjectPlace fault.place };

    ghost has_spelling = { ProjectFaultFits };

    ghost spelling = { project_fault };

    ghost reading = { project_fault_at };

    ghost lawful = { lawful_project_fault };

    fn check(item: &Diagnostic) {
        check_place(&item.place);
    }

    fn write(out: &mut Vec<u8>, item: &Diagnostic) -> Result<(), AllocError> {
        put_project_place(out, &item.place)?;
        put_code(out, item.code)
    }

    fn read(alloc: Global, bytes: &[u8]) -> Result<(Diagnostic, &[u8]), ReadError> {
        let (place, rest) = read_project_place(alloc, bytes)?;
        let (code, rest) = read_code(rest)?;
        Ok((Diagnostic { place, code }, rest))
    }
}

impl Ordered for ProjectFaultFormat {
    ghost use Rattle.answer_bytes.specs.Reading.{by_place, project_fault_at};
    ghost use Rattle.byte_readers.specs.Views.{tells_plain};

    ghost precedes = { by_place };

    ghost item_reading = { project_fault_at };

    ghost tells = { tells_plain project_fault_at };

    fn precedes(item: &Diagnostic, other: &Diagnostic) -> bool {
        item.cmp(other).is_lt()
    }
}

/// Diagnostics of a class.
pub struct ClassFaultFormat;

impl Format for ClassFaultFormat {
    ghost use Rattle.answer_bytes.specs.Canon.{class_fault};
    ghost use Rattle.answer_bytes.specs.Storable.{IsClassPlace, ClassFaultFits};
    ghost use Rattle.answer_bytes.specs.Reading.{class_fault_at};
    ghost use Rattle.answer_bytes.specs.AnswerLaws.{lawful_class_fault};
    ghost use Rattle.mj_answer.specs.declared.diagnostic.Diagnostic.{Diagnostic};
    ghost use Rattle.byte_readers.specs.Views.{plain};

    type Item = Diagnostic;

    ghost Seen = { Diagnostic };

    ghost view = { plain };

    ghost is_storable = { λ fault. IsClassPlace fault.place };

    ghost has_spelling = { ClassFaultFits };

    ghost spelling = { class_fault };

    ghost reading = { class_fault_at };

    ghost lawful = { lawful_class_fault };

    fn check(item: &Diagnostic) {
        check_place(&item.place);
    }

    fn write(out: &mut Vec<u8>, item: &Diagnostic) -> Result<(), AllocError> {
        put_class_place(out, &item.place)?;
        put_code(out, item.code)
    }

    fn read(alloc: Global, bytes: &[u8]) -> Result<(Diagnostic, &[u8]), ReadError> {
        let (place, rest) = read_class_place(alloc, bytes)?;
        let (code, rest) = read_code(rest)?;
        Ok((Diagnostic { place, code }, rest))
    }
}

impl Ordered for ClassFaultFormat {
    ghost use Rattle.answer_bytes.specs.Reading.{by_place, class_fault_at};
    ghost use Rattle.byte_readers.specs.Views.{tells_plain};

    ghost precedes = { by_place };

    ghost item_reading = { class_fault_at };

    ghost tells = { tells_plain class_fault_at };

    fn precedes(item: &Diagnostic, other: &Diagnostic) -> bool {
        item.cmp(other).is_lt()
    }
}

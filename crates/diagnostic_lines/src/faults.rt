//! A line for each diagnostic.
ghost use Rattle.std.specs.Prelude.{◌≡◌, ◌++◌, None, ℕ, List, position, map, flat_map, slice_get, Some, option_copied, IfOk, OnOk};
ghost use Rattle.std.specs.Str.{bytes_eq};
ghost use Rattle.std.specs.BTreeMap.{get};
ghost use Rattle.std.specs.Cmp.Lexicographic.{slice_cmp};
ghost use Rattle.std.specs.Ordering.{nat_cmp};
ghost use Rattle.mj_classes.specs.Index.{declared_in};
ghost use Rattle.mj_rules.specs.Sentences.{classes_in};
ghost use Rattle.diagnostic_lines.specs.Pairs.{Pairwise};
ghost use Rattle.diagnostic_lines.specs.FaultLines.{AnswerDiagnostic, of_project, of_class, spot_in_file, nowhere, IsFileSpot, IsLineOf, AddsLines, AreLinesOf, spot_of_line};

use crate::index::IndexedText;
use crate::places::SourcePlace;
use crate::sought::keep_sought;
use crate::sources::{ReadProject, ReadText, cut};
use crate::texts::{FileText, Texts, number_names};
use mj_answer::{Answer, ClassAnswer, Code, Diagnostic};
use mj_classes::Declarations;
use mj_tree::Place;
use ordered_names::Name;
use std::alloc::{AllocError, Global};
use std::collections::BTreeMap;

/// A diagnostic as it is shown to a reader.
#[derive(Drop)]
pub struct FaultLine<'a> {
    /// The name of its file; none for a diagnostic of the project.
    pub file: Option<&'a str>,
    /// Its place in the file's text, if it has one.
    pub at: Option<SourcePlace<'a>>,
    pub code: Code,
}

/// The line of a diagnostic that stands in no file.
fn line_without_file<'a>(code: Code) -> FaultLine<'a>
    ensures code { result.code ≡ code }
    ensures spot { spot_of_line result ≡ nowhere }
{
    FaultLine {
        file: None,
        at: None,
        code,
    }
}

/// The line of a diagnostic of a file: a second main class, or bytes that are no sentence.
fn file_line<'a>(
    alloc: Global,
    text: &FileText<'a, '_>,
    code: Code,
) -> Result<FaultLine<'a>, AllocError>
    ensures code { IfOk result (λ line. line.code ≡ code) }
    ensures spot { IfOk result (λ line. IsFileSpot text.now code (spot_of_line line)) }
{
    let at = if code == Code::E103 {
        text.place(alloc, 0, &Place::Class)?
    } else {
        text.stop(alloc)?
    };
    Ok(FaultLine {
        file: Some(text.name()),
        at,
        code,
    })
}

/// The line of a diagnostic of a class that isn't the first one of its name, as its place says.
fn repeated_line<'a>(
    alloc: Global,
    text: &FileText<'a, '_>,
    fault: &Diagnostic,
) -> Result<FaultLine<'a>, AllocError>
    ensures code { IfOk result (λ line. line.code ≡ fault.now.code) }
    ensures spot { IfOk result (λ line.
        spot_of_line line ≡ spot_in_file (Some text.now) 0 fault.now.place) }
{
    let at = text.place(alloc, 0, &fault.place)?;
    Ok(FaultLine {
        file: Some(text.name()),
        at,
        code: fault.code,
    })
}

/// The line of a diagnostic of the project.
fn project_line<'a>(
    alloc: Global,
    texts: &Texts<'a, '_>,
    fault: &Diagnostic,
) -> Result<FaultLine<'a>, AllocError>
    ensures { IfOk result (IsLineOf texts.now (of_project fault.now)) }
{
    let code = fault.code;
    match &fault.place {
        Place::File(name) => match texts.named(name) {
            Some(text) => file_line(alloc, text, code),
            None => Ok(line_without_file(code)),
        },
        Place::ClassOf(name, _) => match texts.named(name) {
            Some(text) => repeated_line(alloc, text, fault),
            None => Ok(line_without_file(code)),
        },
        Place::Project | Place::Class | Place::Field(_) | Place::Method(_) | Place::Inside(_, _) =>
            Ok(line_without_file(code)),
    }
}

/// Adds the lines of the project's own diagnostics.
fn add_project_lines<'a>(
    alloc: Global,
    lines: &mut Vec<FaultLine<'a>>,
    texts: &Texts<'a, '_>,
    faults: &[Diagnostic],
) -> Result<(), AllocError>
    ensures { (before : List AnswerDiagnostic) → Pairwise (IsLineOf texts.now) before lines.old.items
        → OnOk result
        (Pairwise (IsLineOf texts.now) (before ++ map of_project faults.now) lines.new.items) }
{
    for fault in faults {
        lines.push(project_line(alloc, texts, fault)?)?;
    }
    Ok(())
}

/// The line of a diagnostic of the class with this number of a file.
fn place_line<'a>(text: &IndexedText<'a, '_>, class: usize, fault: &Diagnostic) -> FaultLine<'a>
    ensures code { result.code ≡ fault.now.code }
    ensures spot { spot_of_line result ≡ spot_in_file (Some text.now) class fault.now.place }
{
    FaultLine {
        file: Some(text.name()),
        at: text.place(class, &fault.place),
        code: fault.code,
    }
}

/// Adds the lines of the diagnostics of the class with this number of a file.
fn add_lines<'a>(
    lines: &mut Vec<FaultLine<'a>>,
    text: &IndexedText<'a, '_>,
    class: usize,
    faults: &[Diagnostic],
) -> Result<(), AllocError>
    ensures { OnOk result
        (AddsLines (Some text.now) class faults.now lines.old.items lines.new.items) }
{
    for fault in faults {
        lines.push(place_line(text, class, fault))?;
    }
    Ok(())
}

/// Adds the lines of the diagnostics of a class that stands in no file.
fn add_lines_without_file<'a>(
    lines: &mut Vec<FaultLine<'a>>,
    faults: &[Diagnostic],
) -> Result<(), AllocError>
    ensures { OnOk result (AddsLines None 0 faults.now lines.old.items lines.new.items) }
{
    for fault in faults {
        lines.push(line_without_file(fault.code))?;
    }
    Ok(())
}

/// The same of the class with this number of a file, which is cut into tokens for it, unless they are kept.
fn add_lines_in<'a>(
    alloc: Global,
    lines: &mut Vec<FaultLine<'a>>,
    text: &FileText<'a, '_>,
    class: usize,
    faults: &[Diagnostic],
) -> Result<(), AllocError>
    ensures { OnOk result
        (AddsLines (Some text.now) class faults.now lines.old.items lines.new.items) }
{
    if let Some(index) = text.index() {
        return add_lines(lines, index, class, faults);
    }
    let text = text.text();
    let tokens = cut(alloc, text.bytes())?;
    let index = IndexedText::new(alloc, text, &tokens)?;
    add_lines(lines, &index, class, faults)
}

/// Adds the lines of the diagnostics of a class, the first one of its name.
fn add_class_lines<'a>(
    alloc: Global,
    lines: &mut Vec<FaultLine<'a>>,
    texts: &Texts<'a, '_>,
    declarations: &Declarations,
    class: &ClassAnswer,
) -> Result<(), AllocError>
    requires { declared_in declarations.now ≡ classes_in texts.now }
    ensures { (before : List AnswerDiagnostic) → Pairwise (IsLineOf texts.now) before lines.old.items
        → OnOk result
        (Pairwise (IsLineOf texts.now) (before ++ map (of_class class.now.name) class.now.faults)
        lines.new.items) }
{
    let faults = class.faults();
    if faults.is_empty() {
        return Ok(());
    }
    let Some(declared) = declarations.find(class.name()) else {
        return add_lines_without_file(lines, faults);
    };
    match texts.get(declared.file) {
        Some(text) => add_lines_in(alloc, lines, text, declared.number, faults),
        None => add_lines_without_file(lines, faults),
    }
}

/// The lines of the project's own diagnostics, then those of each class.
fn lines_of<'a>(
    alloc: Global,
    texts: &Texts<'a, '_>,
    declarations: &Declarations,
    answer: &Answer,
) -> Result<Vec<FaultLine<'a>>, AllocError>
    requires { declared_in declarations.now ≡ classes_in texts.now }
    ensures { IfOk result (λ lines. AreLinesOf texts.now answer.now lines.items) }
{
    let mut lines = Vec::new(alloc);
    add_project_lines(alloc, &mut lines, texts, answer.faults())?;
    for class in answer.classes() {
        add_class_lines(alloc, &mut lines, texts, declarations, class)?;
    }
    Ok(lines)
}

/// The lines of an answer's diagnostics in these files, some of which have their tokens.
fn lines_in<'a>(
    alloc: Global,
    files: &[ReadText<'a>],
    numbers: &BTreeMap<Name, usize>,
    declarations: &Declarations,
    answer: &Answer,
) -> Result<Vec<FaultLine<'a>>, AllocError>
    requires names { (name : List ℕ) → get (slice_cmp nat_cmp) numbers.now name
        ≡ position (λ f. bytes_eq f.name name) files.now }
    requires classes { declared_in declarations.now ≡ classes_in files.now }
    ensures { IfOk result (λ lines. AreLinesOf files.now answer.now lines.items) }
{
    let texts = Texts::new(alloc, files, numbers)?;
    lines_of(alloc, &texts, declarations, answer)
}

/// The diagnostics of an answer, in its order, with their places in the files of the project.
pub fn fault_lines<'a>(
    alloc: Global,
    project: &ReadProject<'a>,
    answer: &Answer,
) -> Result<Vec<FaultLine<'a>>, AllocError>
    ensures { IfOk result (λ lines. AreLinesOf project.now answer.now lines.items) }
{
    let numbers = number_names(alloc, project.texts())?;
    let declarations = Declarations::new(alloc, project.trees())?;
    let kept = keep_sought(alloc, project.texts(), &numbers, &declarations, answer)?;
    lines_in(alloc, &kept, &numbers, &declarations, answer)
}

//! A line for each diagnostic of an answer, with its place and its code, or with its message below it.
ghost use Rattle.std.specs.Prelude.{◌≡◌, ◌==◌, ◌++◌, IfOk, OnOk, flat_map, length, string_bytes};
ghost use Rattle.std.specs.List.{list_all};
ghost use Rattle.diagnostic_lines.specs.Lines.{is_clean, head_text, line_text, message_text, excerpt_if_any, line_with, IsFaultText};

use crate::excerpts::write_excerpt;
use crate::faults::{FaultLine, fault_lines};
use crate::sources::ReadProject;
use code_words::sentence;
use mj_rules::{Answer, ClassAnswer, Project};
use std::alloc::{AllocError, Global};

/// Whether an answer has no diagnostic.
pub fn is_clean(answer: &Answer) -> bool
    ensures { result ≡ is_clean answer.now }
{
    answer.faults().is_empty() && are_clean(answer.classes())
}

fn are_clean(classes: &[ClassAnswer]) -> bool
    ensures { result ≡ list_all (λ class. length class.faults == 0) classes.now }
{
    classes.iter().all(|class| class.faults().is_empty())
}

/// A line for each diagnostic of the project's answer, in the order of the answer's text: its place and its code. With
/// messages its sentence follows, and below it the line of its file with a mark under its place.
pub fn fault_text(
    alloc: Global,
    project: &ReadProject,
    answer: &Answer,
    messages: bool,
) -> Result<String, AllocError>
    ensures { IfOk result (λ text.
        IsFaultText messages project.now answer.now (string_bytes text)) }
{
    let mut text = String::new(alloc);
    if is_clean(answer) {
        return Ok(text);
    }
    let lines = fault_lines(alloc, project, answer)?;
    write_lines(&mut text, &lines, messages)?;
    Ok(text)
}

/// The lines of an answer for a project's files, which are read if it has a diagnostic.
pub fn fault_text_of(
    alloc: Global,
    project: &Project,
    answer: &Answer,
    messages: bool,
) -> Result<String, AllocError>
    ensures { IfOk result (λ text.
        IsFaultText messages project.now answer.now (string_bytes text)) }
{
    if is_clean(answer) {
        return Ok(String::new(alloc));
    }
    let read = ReadProject::new(alloc, project)?;
    fault_text(alloc, &read, answer, messages)
}

fn write_lines(text: &mut String, lines: &[FaultLine<'_>], messages: bool) -> Result<(), AllocError>
    ensures { OnOk result
        (string_bytes text.new ≡ string_bytes text.old ++ flat_map (line_with messages) lines.now) }
{
    for line in lines {
        write_line_with(text, line, messages)?;
    }
    Ok(())
}

fn write_line_with(
    text: &mut String,
    line: &FaultLine<'_>,
    messages: bool,
) -> Result<(), AllocError>
    ensures { OnOk result
        (string_bytes text.new ≡ string_bytes text.old ++ line_with messages line.now) }
{
    if messages {
        write_message(text, line)
    } else {
        write_line(text, line)
    }
}

fn write_line(text: &mut String, line: &FaultLine<'_>) -> Result<(), AllocError>
    ensures { OnOk result (string_bytes text.new ≡ string_bytes text.old ++ line_text line.now) }
{
    write_head(text, line)?;
    text.push_str("\n")
}

fn write_message(text: &mut String, line: &FaultLine<'_>) -> Result<(), AllocError>
    ensures { OnOk result
        (string_bytes text.new ≡ string_bytes text.old ++ message_text line.now) }
{
    write_head(text, line)?;
    text.push_str(": ")?;
    text.push_str(sentence(line.code))?;
    text.push_str("\n")?;
    match &line.at {
        Some(at) => write_excerpt(text, at),
        None => Ok(()),
    }
}

/// Writes the place and the code of a diagnostic.
fn write_head(text: &mut String, line: &FaultLine<'_>) -> Result<(), AllocError>
    ensures { OnOk result (string_bytes text.new ≡ string_bytes text.old ++ head_text line.now) }
{
    let code = line.code.number();
    match (line.file, &line.at) {
        (Some(file), Some(at)) => {
            let (row, column) = (at.line(), at.column());
            write!(text, "{file}:{row}:{column}: E{code}")
        }
        (Some(file), None) => write!(text, "{file}: E{code}"),
        (None, _) => write!(text, "project: E{code}"),
    }
}

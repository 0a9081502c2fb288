//! What is answered to whoever asks for codes.
ghost use Rattle.std.specs.Prelude.{◌≡◌, ◌++◌, IfOk, OnOk, map, string_bytes};
ghost use Rattle.std.specs.Option.{option_copied};
ghost use Rattle.code_words.specs.Explained.{ExplainGives, IsWordFault, codes_line, diagnostic_lines, explained, first_unknown, refusal_lines, unknown_text_of, word_text};

use crate::table::text_of;
use crate::texts::chains::{CHAIN_FILES_CODES, CHAIN_RECORDS_CODES};
use crate::texts::declarations::DECLARATIONS_CODES;
use crate::texts::files::{FILE_PARTS_CODES, FILE_RECORDS_CODES};
use crate::texts::phrases::{OPERANDS_CODES, USES_CODES};
use crate::texts::project::PROJECT_CODES;
use crate::texts::projects::PROJECTS_CODES;
use std::alloc::{AllocError, Global};
use std::fmt::Write;
use thiserror::Error;

/// Why arguments aren't explained.
#[derive(Debug, Drop, Error)]
pub enum ExplainFault {
    /// This argument is no code.
    #[error("unknown code '{0}'")]
    Unknown(String),
    /// Memory ran out.
    #[error("out of memory")]
    OutOfMemory,
}

/// What the codes that are asked for mean, in this order, with an empty line between two; or the first argument that
/// is no code.
pub fn explain(alloc: Global, asked: &[String]) -> Result<String, ExplainFault>
    ensures { ExplainGives asked.now result }
{
    match unknown_word(asked) {
        Some(word) => Err(unknown(alloc, word.as_str())),
        None => match explained_text(alloc, asked) {
            Ok(text) => Ok(text),
            Err(_) => Err(ExplainFault::OutOfMemory),
        },
    }
}

/// The first argument that is no code.
fn unknown_word(asked: &[String]) -> Option<&String>
    ensures { option_copied result ≡ first_unknown asked.now }
{
    asked.iter().find(|word| text_of(word.as_str()).is_none())
}

/// The fault that has a copy of this argument.
fn unknown(alloc: Global, word: &str) -> ExplainFault
    ensures { IsWordFault word.now result }
{
    match String::from_str(alloc, word) {
        Ok(copy) => ExplainFault::Unknown(copy),
        Err(_) => ExplainFault::OutOfMemory,
    }
}

/// The texts of these arguments.
fn explained_text(alloc: Global, asked: &[String]) -> Result<String, AllocError>
    ensures { IfOk result (λ text. string_bytes text ≡ explained asked.now) }
{
    let mut text = String::new(alloc);
    write_asked(&mut text, asked)?;
    Ok(text)
}

fn write_asked(text: &mut String, asked: &[String]) -> Result<(), AllocError>
    ensures { OnOk result
        (string_bytes text.new ≡ string_bytes text.old ++ explained asked.now) }
{
    let Some((first, others)) = asked.split_first() else {
        return Ok(());
    };
    write_word(text, first)?;
    for word in others {
        text.push_str("\n")?;
        write_word(text, word)?;
    }
    Ok(())
}

/// Adds the text of an argument.
fn write_word(text: &mut String, word: &String) -> Result<(), AllocError>
    ensures { OnOk result
        (string_bytes text.new ≡ string_bytes text.old ++ word_text word.now) }
{
    match text_of(word.as_str()) {
        Some(found) => text.push_str(found),
        None => Ok(()),
    }
}

/// What is said of an argument that is no code: that it is none, and all that there are.
pub fn unknown_text(alloc: Global, word: &str) -> Result<String, AllocError>
    ensures { IfOk result (λ text. string_bytes text ≡ unknown_text_of word.now) }
{
    let mut text = String::new(alloc);
    write!(text, "error: unknown code '{word}'\n\nThe codes are\n")?;
    write_diagnostics(&mut text)?;
    text.push_str("and the refusals\n")?;
    write_refusals(&mut text)?;
    Ok(text)
}

fn write_diagnostics(text: &mut String) -> Result<(), AllocError>
    ensures { OnOk result
        (string_bytes text.new ≡ string_bytes text.old ++ diagnostic_lines) }
{
    write_line(text, &PROJECT_CODES)?;
    write_line(text, &DECLARATIONS_CODES)?;
    write_line(text, &OPERANDS_CODES)?;
    write_line(text, &USES_CODES)
}

fn write_refusals(text: &mut String) -> Result<(), AllocError>
    ensures { OnOk result (string_bytes text.new ≡ string_bytes text.old ++ refusal_lines) }
{
    write_line(text, &PROJECTS_CODES)?;
    write_line(text, &FILE_PARTS_CODES)?;
    write_line(text, &FILE_RECORDS_CODES)?;
    write_line(text, &CHAIN_FILES_CODES)?;
    write_line(text, &CHAIN_RECORDS_CODES)
}

/// The codes of a group in a line.
fn write_line(text: &mut String, group: &[&'static str]) -> Result<(), AllocError>
    ensures { OnOk result
        (string_bytes text.new
        ≡ string_bytes text.old ++ codes_line (map (λ code. code.now) group.now)) }
{
    text.push_str(" ")?;
    for code in group {
        write!(text, " {code}")?;
    }
    text.push_str("\n")
}

//! The table of all codes.
ghost use Rattle.std.specs.Prelude.{◌≡◌, map, option_map, position};
ghost use Rattle.std.specs.Option.{option_or};
ghost use Rattle.std.specs.Str.{bytes_eq};
ghost use Rattle.code_words.specs.Words.{chain_text, declared_text, diagnostic_text, file_text, phrase_text, refusal_text, session_text, text_in, text_of};

use crate::texts::chains::{
    CHAIN_FILES_CODES, CHAIN_FILES_TEXTS, CHAIN_RECORDS_CODES, CHAIN_RECORDS_TEXTS,
};
use crate::texts::declarations::{DECLARATIONS_CODES, DECLARATIONS_TEXTS};
use crate::texts::files::{
    FILE_PARTS_CODES, FILE_PARTS_TEXTS, FILE_RECORDS_CODES, FILE_RECORDS_TEXTS,
};
use crate::texts::phrases::{OPERANDS_CODES, OPERANDS_TEXTS, USES_CODES, USES_TEXTS};
use crate::texts::project::{PROJECT_CODES, PROJECT_TEXTS};
use crate::texts::projects::{PROJECTS_CODES, PROJECTS_TEXTS};

/// The text that an argument asks for, if it is a code.
pub(crate) fn text_of(word: &str) -> Option<&'static str>
    ensures { option_map (λ text. text.now) result ≡ text_of word.now }
{
    either(diagnostic_text(word), refusal_text(word))
}

/// The text of a diagnostic's code.
fn diagnostic_text(word: &str) -> Option<&'static str>
    ensures { option_map (λ text. text.now) result ≡ diagnostic_text word.now }
{
    either(declared_text(word), phrase_text(word))
}

/// The text of the code of a diagnostic of a project or of a declaration.
fn declared_text(word: &str) -> Option<&'static str>
    ensures { option_map (λ text. text.now) result ≡ declared_text word.now }
{
    either(
        text_in(&PROJECT_CODES, &PROJECT_TEXTS, word),
        text_in(&DECLARATIONS_CODES, &DECLARATIONS_TEXTS, word),
    )
}

/// The text of the code of a diagnostic of a phrase.
fn phrase_text(word: &str) -> Option<&'static str>
    ensures { option_map (λ text. text.now) result ≡ phrase_text word.now }
{
    either(
        text_in(&OPERANDS_CODES, &OPERANDS_TEXTS, word),
        text_in(&USES_CODES, &USES_TEXTS, word),
    )
}

/// The text of a refusal's number.
fn refusal_text(word: &str) -> Option<&'static str>
    ensures { option_map (λ text. text.now) result ≡ refusal_text word.now }
{
    either(
        text_in(&PROJECTS_CODES, &PROJECTS_TEXTS, word),
        session_text(word),
    )
}

/// The text of the number of a refusal of a session's file or of a chain.
fn session_text(word: &str) -> Option<&'static str>
    ensures { option_map (λ text. text.now) result ≡ session_text word.now }
{
    either(file_text(word), chain_text(word))
}

/// The text of the number of a refusal of a session's file.
fn file_text(word: &str) -> Option<&'static str>
    ensures { option_map (λ text. text.now) result ≡ file_text word.now }
{
    either(
        text_in(&FILE_PARTS_CODES, &FILE_PARTS_TEXTS, word),
        text_in(&FILE_RECORDS_CODES, &FILE_RECORDS_TEXTS, word),
    )
}

/// The text of the number of a refusal of a chain.
fn chain_text(word: &str) -> Option<&'static str>
    ensures { option_map (λ text. text.now) result ≡ chain_text word.now }
{
    either(
        text_in(&CHAIN_FILES_CODES, &CHAIN_FILES_TEXTS, word),
        text_in(&CHAIN_RECORDS_CODES, &CHAIN_RECORDS_TEXTS, word),
    )
}

/// The first text, if there is one, else the second.
fn either(first: Option<&'static str>, second: Option<&'static str>) -> Option<&'static str>
    ensures { option_map (λ text. text.now) result
        ≡ option_or (option_map (λ text. text.now) first.entry)
        (option_map (λ text. text.now) second.entry) }
{
    match first {
        Some(text) => Some(text),
        None => second,
    }
}

/// The text that stands at the place of the first of these codes that is the argument.
fn text_in(codes: &[&'static str], texts: &[&'static str], word: &str) -> Option<&'static str>
    ensures { option_map (λ text. text.now) result ≡ text_in
        (map (λ code. code.now) codes.now) (map (λ text. text.now) texts.now) word.now }
{
    match place_of(codes, word) {
        Some(at) => texts.get(at).copied(),
        None => None,
    }
}

/// The place of the first of these codes that is the argument.
fn place_of(codes: &[&'static str], word: &str) -> Option<usize>
    ensures { result ≡ position (λ code. bytes_eq code.now word.now) codes.now }
{
    codes.iter().position(|code| *code == word)
}

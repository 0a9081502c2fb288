//! What stands at the front of a text.
ghost use Rattle.std.specs.Prelude.{◌≡◌, ◌+◌, ◌-◌, ◌*◌, ◌<◌, ◌≤◌, ℕ, List, length, drop, take, min, IfOk, IsTrue, ◌↔◌, Option, Some, None, MatchOption};
ghost use Rattle.std.specs.List.{prefix_len};
ghost use Rattle.std.specs.Str.{IsAscii};
ghost use Rattle.ordered_names.specs.Names.{most_name_bytes};
ghost use Rattle.mj_lexer.specs.Bytes.{is_white, is_letter, is_digit, is_name_byte, is_line_byte, literal_value, opens, closes};
ghost use Rattle.mj_lexer.specs.Words.{symbol_of, reserved_of, kind_of_word};
ghost use Rattle.mj_lexer.specs.Fronts.{after_comment, slash_front, front_of, IsWithin};

use crate::token::{Terminal, TokenKind};
use ordered_names::Name;
use std::alloc::{AllocError, Global};
use std::str;

/// Literals above the range of `int` saturate to this value.
pub const GREATEST_LITERAL: u64 = 2147483648;

/// What may be wrong at a place.
#[derive(Clone, Copy, Debug, PartialEq, Eq)]
pub enum Problem {
    /// A byte that begins nothing.
    Byte,
    /// A comment that isn't closed.
    Comment,
    /// A name of more than 255 bytes.
    Name,
}

/// What stands at the front of a text, with its number of bytes.
#[derive(Drop)]
pub enum Front {
    /// The text is empty.
    Nothing,
    /// White space or a comment.
    Blank(usize),
    /// A token.
    Word(TokenKind, usize),
    /// None of these.
    Wrong(Problem),
}

fn is_white(b: u8) -> bool
    ensures { result ≡ is_white b }
{
    b == b' ' || b == b'\t' || b == b'\n' || b == b'\r' || b == 12
}

fn is_letter(b: u8) -> bool
    ensures { result ≡ is_letter b }
{
    (b'A' <= b && b <= b'Z') || (b'a' <= b && b <= b'z')
}

fn is_digit(b: u8) -> bool
    ensures { result ≡ is_digit b }
{
    b'0' <= b && b <= b'9'
}

fn is_name_byte(b: u8) -> bool
    ensures { result ≡ is_name_byte b }
{
    is_letter(b) || is_digit(b) || b == b'_'
}

fn is_line_byte(b: u8) -> bool
    ensures { result ≡ is_line_byte b }
{
    b != b'\n' && b != b'\r'
}

/// The length in bytes of the name at the front of the text, 0 if there is none.
fn name_len(text: &[u8]) -> usize
    ensures value { result ≡ prefix_len is_name_byte text.now }
    ensures within { result ≤ length text.now }
{
    text.iter().take_while(|b| is_name_byte(**b)).count()
}

/// The number of digits at the front of the text.
fn digits_len(text: &[u8]) -> usize
    ensures value { result ≡ prefix_len is_digit text.now }
    ensures within { result ≤ length text.now }
{
    text.iter().take_while(|b| is_digit(**b)).count()
}

/// The number of bytes up to the end of the line.
fn line_len(text: &[u8]) -> usize
    ensures value { result ≡ prefix_len is_line_byte text.now }
    ensures within { result ≤ length text.now }
{
    text.iter().take_while(|b| is_line_byte(**b)).count()
}

/// Whether the two bytes open a comment.
fn opens(a: u8, b: u8) -> bool
    ensures { result ≡ opens a b }
{
    a == b'/' && b == b'*'
}

/// Whether the two bytes close a comment.
fn closes(a: u8, b: u8) -> bool
    ensures { result ≡ closes a b }
{
    a == b'*' && b == b'/'
}

/// The number of bytes up to the end of the comment that is open at the front, or `None` if it isn't closed.
fn comment_len(text: &[u8]) -> Option<usize>
    ensures { MatchOption result (after_comment 1 text.now ≡ None)
        (λ n. (n ≤ length text.now) × (after_comment 1 text.now ≡ Some (drop n text.now))) }
{
    let mut depth = 1usize;
    let mut i = 0;
    while depth > 0 {
        if text.len() - i < 2 {
            return None;
        }
        if opens(text[i], text[i + 1]) {
            depth += 1;
            i += 2;
        } else if closes(text[i], text[i + 1]) {
            depth -= 1;
            i += 2;
        } else {
            i += 1;
        }
    }
    Some(i)
}

/// The symbol of this one byte.
fn symbol(b: u8) -> Option<Terminal>
    ensures { result ≡ symbol_of b }
{
    match b {
        b'{' => Some(Terminal::LeftBrace),
        b'}' => Some(Terminal::RightBrace),
        b'(' => Some(Terminal::LeftParenthesis),
        b')' => Some(Terminal::RightParenthesis),
        b'[' => Some(Terminal::LeftBracket),
        b']' => Some(Terminal::RightBracket),
        b';' => Some(Terminal::Semicolon),
        b',' => Some(Terminal::Comma),
        b'.' => Some(Terminal::Dot),
        b'=' => Some(Terminal::Assign),
        b'<' => Some(Terminal::Less),
        b'+' => Some(Terminal::Plus),
        b'-' => Some(Terminal::Minus),
        b'*' => Some(Terminal::Times),
        b'!' => Some(Terminal::Not),
        _ => None,
    }
}

/// The reserved word that is written so.
#[tactic(auto, unfolding(crate::specs::Words::reserved_of))]
fn reserved_word(text: &[u8]) -> Option<Terminal>
    ensures { result ≡ reserved_of text.now }
{
    if text == b"class".as_slice() {
        Some(Terminal::Class)
    } else if text == b"public".as_slice() {
        Some(Terminal::Public)
    } else if text == b"static".as_slice() {
        Some(Terminal::Static)
    } else if text == b"void".as_slice() {
        Some(Terminal::Void)
    } else if text == b"extends".as_slice() {
        Some(Terminal::Extends)
    } else if text == b"return".as_slice() {
        Some(Terminal::Return)
    } else if text == b"int".as_slice() {
        Some(Terminal::Int)
    } else if text == b"boolean".as_slice() {
        Some(Terminal::Boolean)
    } else if text == b"if".as_slice() {
        Some(Terminal::If)
    } else if text == b"else".as_slice() {
        Some(Terminal::Else)
    } else if text == b"while".as_slice() {
        Some(Terminal::While)
    } else if text == b"true".as_slice() {
        Some(Terminal::True)
    } else if text == b"false".as_slice() {
        Some(Terminal::False)
    } else if text == b"this".as_slice() {
        Some(Terminal::This)
    } else if text == b"new".as_slice() {
        Some(Terminal::New)
    } else {
        None
    }
}

/// A reserved word, or else an identifier.
fn word_kind(alloc: Global, text: &[u8]) -> Result<TokenKind, AllocError>
    requires some { 0 < length text.now }
    requires short { length text.now ≤ most_name_bytes }
    requires ascii { IsAscii text.now }
    ensures { IfOk result (λ k. k ≡ kind_of_word text.now) }
{
    match reserved_word(text) {
        Some(terminal) => Ok(TokenKind::Terminal(terminal)),
        None => Ok(TokenKind::Identifier(Name::new(alloc, as_text(text))?)),
    }
}

/// Bytes below 128 as a text.
fn as_text(bytes: &[u8]) -> &str
    requires { IsAscii bytes.now }
    ensures { result.now ≡ bytes.now }
{
    match str::from_utf8(bytes) {
        Ok(text) => text,
        Err(_) => unreachable!(),
    }
}

/// The value of decimal digits, saturated at 2147483648.
fn number(digits: &[u8]) -> u32
    ensures { result ≡ literal_value digits.now }
{
    let mut value = 0u64;
    for d in digits {
        value = (10 * value + u64::from(d.saturating_sub(b'0'))).min(GREATEST_LITERAL);
    }
    value as u32
}

/// What stands at the front of a text of a slash and these bytes.
fn behind_slash(text: &[u8]) -> Front
    ensures value { result ≡ slash_front text.now }
    ensures within { IsWithin (1 + length text.now) result }
{
    if text.is_empty() {
        return Front::Wrong(Problem::Byte);
    }
    let rest = &text[1..];
    if text[0] == b'/' {
        Front::Blank(2 + line_len(rest))
    } else if text[0] == b'*' {
        match comment_len(rest) {
            Some(n) => Front::Blank(2 + n),
            None => Front::Wrong(Problem::Comment),
        }
    } else {
        Front::Wrong(Problem::Byte)
    }
}

/// What stands at the front of a text.
#[tactic(auto, unfolding(crate::specs::Fronts::front_of))]
pub(crate) fn read_front(alloc: Global, text: &[u8]) -> Result<Front, AllocError>
    ensures value { IfOk result (λ f. f ≡ front_of text.now) }
    ensures within { IfOk result (IsWithin (length text.now)) }
{
    if text.is_empty() {
        return Ok(Front::Nothing);
    }
    let first = text[0];
    if is_white(first) {
        Ok(Front::Blank(1))
    } else if is_letter(first) {
        let n = name_len(text);
        if n > Name::MOST {
            return Ok(Front::Wrong(Problem::Name));
        }
        let kind = word_kind(alloc, &text[..n])?;
        Ok(Front::Word(kind, n))
    } else if is_digit(first) {
        let n = digits_len(text);
        Ok(Front::Word(TokenKind::Literal(number(&text[..n])), n))
    } else if first == b'/' {
        Ok(behind_slash(&text[1..]))
    } else if first == b'&' {
        if text.len() > 1 && text[1] == b'&' {
            Ok(Front::Word(TokenKind::Terminal(Terminal::And), 2))
        } else {
            Ok(Front::Wrong(Problem::Byte))
        }
    } else {
        match symbol(first) {
            Some(terminal) => Ok(Front::Word(TokenKind::Terminal(terminal), 1)),
            None => Ok(Front::Wrong(Problem::Byte)),
        }
    }
}

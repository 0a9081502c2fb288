//! Tests: expected values are from the language's rules and its worked examples.
use mj_lexer::{Token, TokenKind, lex, line_col};
use ordered_names::Name;
use std::alloc::{AllocError, Global};
use std::hash::{DefaultHasher, Hash, Hasher};
use std::test::Fail;

/// The tokens of a text in words, or its fault.
fn summary(alloc: Global, text: &[u8]) -> Result<String, AllocError> {
    let mut words = String::new(alloc);
    match lex(alloc, text) {
        Ok(tokens) => {
            for token in &tokens {
                words.push_str(told_token(alloc, token)?.as_str())?;
            }
        }
        Err(fault) => words.push_str(fault.to_string(alloc)?.as_str())?,
    }
    Ok(words)
}

fn told_token(alloc: Global, token: &Token) -> Result<String, AllocError> {
    let start = token.start;
    let end = token.end;
    match &token.kind {
        TokenKind::Identifier(name) => format!(in alloc; "`{name}` {start}-{end};"),
        TokenKind::Literal(value) => format!(in alloc; "{value} {start}-{end};"),
        TokenKind::Terminal(terminal) => format!(in alloc; "{terminal:?} {start}-{end};"),
    }
}

/// Texts, each with its tokens in words or with its fault.
const TOLD: &[(&str, &str)] = &[
    ("", ""),
    (
        "class M { public static void main(String[] a) { System.out.println(1); } }",
        "Class 0-5;`M` 6-7;LeftBrace 8-9;Public 10-16;Static 17-23;Void 24-28;`main` 29-33;LeftParenthesis 33-34;`String` 34-40;LeftBracket 40-41;RightBracket 41-42;`a` 43-44;RightParenthesis 44-45;LeftBrace 46-47;`System` 48-54;Dot 54-55;`out` 55-58;Dot 58-59;`println` 59-66;LeftParenthesis 66-67;1 67-68;RightParenthesis 68-69;Semicolon 69-70;RightBrace 71-72;RightBrace 73-74;",
    ),
    (
        "{}()[];,.=&&<+-*!",
        "LeftBrace 0-1;RightBrace 1-2;LeftParenthesis 2-3;RightParenthesis 3-4;LeftBracket 4-5;RightBracket 5-6;Semicolon 6-7;Comma 7-8;Dot 8-9;Assign 9-10;And 10-12;Less 12-13;Plus 13-14;Minus 14-15;Times 15-16;Not 16-17;",
    ),
    (
        "class public static void extends return int boolean if else while true false this new",
        "Class 0-5;Public 6-12;Static 13-19;Void 20-24;Extends 25-32;Return 33-39;Int 40-43;Boolean 44-51;If 52-54;Else 55-59;While 60-65;True 66-70;False 71-76;This 77-81;New 82-85;",
    ),
    (
        "classy Class x_1 length",
        "`classy` 0-6;`Class` 7-12;`x_1` 13-16;`length` 17-23;",
    ),
    ("2147483647 0000 007", "2147483647 0-10;0 11-15;7 16-19;"),
    ("2147483648 2147483649", "2147483648 0-10;2147483648 11-21;"),
    ("99999999999999999999999999", "2147483648 0-26;"),
    ("1a", "1 0-1;`a` 1-2;"),
    ("a\t\n\r\x0Cb", "`a` 0-1;`b` 5-6;"),
    ("/* a /* b */ c */x", "`x` 17-18;"),
    ("/**/x/* // */y", "`x` 4-5;`y` 13-14;"),
    ("// /* x\ny//", "`y` 8-9;"),
    ("//x\ry", "`y` 4-5;"),
    ("/* /* */", "the comment at byte 0 isn't closed"),
    ("x /*/", "the comment at byte 2 isn't closed"),
    ("x /", "byte 2 begins no token"),
    ("&&& &&", "byte 2 begins no token"),
    ("_a", "byte 0 begins no token"),
    ("a \u{e9}", "byte 2 begins no token"),
    ("# /*", "byte 0 begins no token"),
    ("/* #", "the comment at byte 0 isn't closed"),
];

/// Whether the tokens of a text, or its fault, read so.
fn is_told(alloc: Global, text: &[u8], want: &str) -> Result<bool, AllocError> {
    Ok(summary(alloc, text)?.as_str() == want)
}

#[test]
fn tokens_and_faults(rt: HostRuntime) -> Result<(), Fail> {
    for (text, want) in TOLD {
        assert!(rt; is_told(rt.alloc(), text.as_bytes(), want)?, "{text}");
    }
    Ok(())
}

/// Bytes, how often each stands in a text of it alone, and the text's fault or nothing.
const LIMITS: &[(u8, usize, &str)] = &[
    (b'a', 256, "the name at byte 0 has more than 255 bytes"),
    (b' ', 1048576, ""),
    (b' ', 1048577, "the text has more than 1048576 bytes"),
    (b'#', 1048577, "the text has more than 1048576 bytes"),
];

/// Whether the tokens of a text of one byte, or its fault, read so.
fn is_told_of(alloc: Global, byte: u8, count: usize, want: &str) -> Result<bool, AllocError> {
    let text = vec![in alloc; byte; count]?;
    is_told(alloc, &text, want)
}

#[test]
fn limits(rt: HostRuntime) -> Result<(), Fail> {
    for (byte, count, want) in LIMITS {
        assert!(rt;
            is_told_of(rt.alloc(), *byte, *count, want)?,
            "{count} bytes"
        );
    }
    Ok(())
}

/// Texts, each with a byte's number and the line and the column of that byte.
const PLACES: &[(&str, usize, usize, usize)] = &[
    ("class {", 6, 1, 7),
    ("", 0, 1, 1),
    ("a\nbc", 1, 1, 2),
    ("a\nbc", 2, 2, 1),
    ("a\nbc", 3, 2, 2),
    ("a\nbc", 9, 2, 3),
    ("\n\n", 2, 3, 1),
    ("\r\r", 2, 1, 3),
];

#[test]
fn lines_and_columns(rt: HostRuntime) {
    for (text, at, line, column) in PLACES {
        assert!(rt;
            line_col(text.as_bytes(), *at) == (*line, *column),
            "{text} at {at}"
        );
    }
}

fn hash_of(name: &Name) -> u64 {
    let mut state = DefaultHasher::new();
    name.hash(&mut state);
    state.finish()
}

fn named(alloc: Global, text: &str) -> Result<Name, Fail> {
    Ok(Name::try_new(alloc, text)?.ok_or("a name")?)
}

/// Whether the name reads as the text, and is printed as it.
fn is_spelled(alloc: Global, name: &Name, text: &str) -> Result<bool, AllocError> {
    Ok(name.as_str() == text && name.to_string(alloc)?.as_str() == text)
}

/// Whether a copy has the bytes of the text, and equals the name and hashes as it does.
fn has_copy(alloc: Global, name: &Name, text: &str) -> Result<bool, AllocError> {
    let copy = name.copy(alloc)?;
    Ok(copy.bytes() == text.as_bytes() && *name == copy && hash_of(name) == hash_of(&copy))
}

/// Whether the name of the text reads as it.
fn is_read(alloc: Global, text: &str) -> Result<bool, Fail> {
    let name = named(alloc, text)?;
    Ok(is_spelled(alloc, &name, text)?)
}

/// Whether the name of the text has a copy as good as it.
fn is_copied(alloc: Global, text: &str) -> Result<bool, Fail> {
    let name = named(alloc, text)?;
    Ok(has_copy(alloc, &name, text)?)
}

#[test]
fn names(rt: HostRuntime) -> Result<(), Fail> {
    assert!(rt; is_read(rt.alloc(), "ab")?);
    assert!(rt; is_copied(rt.alloc(), "ab")?);
    assert!(rt; Name::try_new(rt.alloc(), "")?.is_none());
    Ok(())
}

/// Whether the first of two names is less than the other, and no equal.
fn is_less(alloc: Global, less: &str, greater: &str) -> Result<bool, Fail> {
    let one = named(alloc, less)?;
    let other = named(alloc, greater)?;
    Ok(one < other && one != other)
}

#[test]
fn names_in_order(rt: HostRuntime) -> Result<(), Fail> {
    for (less, greater) in &[("a", "b"), ("a", "ab"), ("B", "a"), ("z", "\u{e9}")] {
        assert!(rt; is_less(rt.alloc(), less, greater)?, "{less} {greater}");
    }
    Ok(())
}

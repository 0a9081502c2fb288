//! A place in a file's text.
ghost use Rattle.std.specs.Prelude.{◌≡◌};
ghost use Rattle.mj_lexer.specs.Places.{line_of, column_of};
ghost use Rattle.diagnostic_lines.specs.Places.{text_place};

use file_index::LinedText;
use std::marker::Model;

/// A byte of a text, with its line and its column there. Contracts see the text and the byte.
#[derive(Drop)]
pub struct SourcePlace<'a> {
    text: &'a [u8],
    byte: usize,
    line: usize,
    column: usize,
}

impl<'a> Model for SourcePlace<'a> {
    ghost use Rattle.std.specs.Prelude.{◌≡◌};
    ghost use Rattle.mj_lexer.specs.Places.{line_of, column_of};
    ghost use Rattle.diagnostic_lines.specs.Places.{TextPlace, text_place};

    ghost Value = { TextPlace };

    ghost view = { λ p. text_place p.text.now p.byte };

    ghost invariant = { λ p.
        (p.line ≡ line_of p.text.now p.byte) × (p.column ≡ column_of p.text.now p.byte) };
}

impl<'a> SourcePlace<'a> {
    /// The byte at `byte`.
    pub fn new(lines: &LinedText<'a>, byte: usize) -> Self
        ensures { result ≡ text_place lines.now byte }
    {
        let (line, column) = lines.line_col(byte);
        SourcePlace {
            text: lines.bytes(),
            byte,
            line,
            column,
        }
    }

    /// The bytes of the text.
    pub fn text(&self) -> &'a [u8]
        ensures { result.now ≡ self.now.text }
    {
        self.text
    }

    /// The number of the byte, counted from 0. Past the end it stands where the text ends.
    pub fn byte(&self) -> usize
        ensures { result ≡ self.now.byte }
    {
        self.byte
    }

    /// Its line, counted from 1.
    pub fn line(&self) -> usize
        ensures { result ≡ line_of self.now.text self.now.byte }
    {
        self.line
    }

    /// Its column, counted from 1 in bytes.
    pub fn column(&self) -> usize
        ensures { result ≡ column_of self.now.text self.now.byte }
    {
        self.column
    }
}

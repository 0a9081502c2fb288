//! A file by its lines and its tokens.
ghost use Rattle.std.specs.Prelude.{◌≡◌, IfOk};
ghost use Rattle.file_index.specs.Reading.{tokens_or_none};
ghost use Rattle.diagnostic_lines.specs.FaultLines.{byte_in, place_in, token_byte};

use crate::places::SourcePlace;
use crate::sources::ReadText;
use file_index::{LinedText, TokenIndex};
use mj_lexer::Token;
use mj_tree::Place;
use std::alloc::{AllocError, Global};
use std::marker::Model;

/// A file by its lines and its tokens. Contracts see the file.
pub struct IndexedText<'a, 't> {
    name: &'a str,
    lines: LinedText<'a>,
    tokens: TokenIndex<'t>,
}

impl Drop for IndexedText<'_, '_> {
    fn drop(self) {
        let IndexedText {
            name: _,
            lines: _,
            tokens: _,
        } = self;
    }
}

impl<'a, 't> Model for IndexedText<'a, 't> {
    ghost use Rattle.std.specs.Prelude.{◌≡◌};
    ghost use Rattle.named_files.specs.Projects.{SourceFile};
    ghost use Rattle.file_index.specs.Reading.{tokens_or_none};

    ghost Value = { SourceFile };

    ghost view = { λ t. record { name = t.name.now; bytes = t.lines } };

    ghost invariant = { λ t. t.tokens ≡ tokens_or_none t.lines };
}

impl<'a, 't> IndexedText<'a, 't> {
    /// A file with its lines and these tokens, which are its own.
    pub fn new(alloc: Global, text: &ReadText<'a>, tokens: &'t [Token]) -> Result<Self, AllocError>
        requires { tokens.now ≡ tokens_or_none text.now.bytes }
        ensures { IfOk result (λ t. t ≡ text.now) }
    {
        Ok(IndexedText {
            name: text.name(),
            lines: LinedText::new(alloc, text.bytes())?,
            tokens: TokenIndex::new(alloc, tokens)?,
        })
    }

    /// The file's name.
    pub fn name(&self) -> &'a str
        ensures { result.now ≡ self.now.name }
    {
        self.name
    }

    /// The first byte of the token of a place in the class with this number.
    fn byte_of(&self, class: usize, place: &Place) -> Option<usize>
        ensures { result ≡ byte_in self.now.bytes class place.now }
    {
        let number = self.tokens.locate(class, place)?;
        token_byte(self.tokens.tokens(), number)
    }

    /// A place in the class with this number.
    pub fn place(&self, class: usize, place: &Place) -> Option<SourcePlace<'a>>
        ensures { result ≡ place_in self.now.bytes class place.now }
    {
        let byte = self.byte_of(class, place)?;
        Some(SourcePlace::new(&self.lines, byte))
    }
}

/// The first byte of the token with this number.
fn token_byte(tokens: &[Token], number: usize) -> Option<usize>
    ensures { result ≡ token_byte tokens.now number }
{
    match tokens.get(number) {
        Some(token) => Some(token.start),
        None => None,
    }
}

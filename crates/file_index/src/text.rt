//! Lines and columns of a text, looked up.
ghost use Rattle.std.specs.Prelude.{◌≡◌, ◌+◌, ◌<◌, ◌≤◌, ◌^◌, IfOk};
ghost use Rattle.mj_lexer.specs.Places.{line_of, column_of};
ghost use Rattle.file_index.specs.Lines.{line_feeds, behind_last};

use crate::places::before;
use std::alloc::{AllocError, Global};
use std::marker::Model;

/// A text with the places of its line feeds, so that lines and columns are looked up. Contracts see the text.
#[derive(Drop)]
pub struct LinedText<'a> {
    text: &'a [u8],
    feeds: Vec<usize>,
}

impl<'a> Model for LinedText<'a> {
    ghost use Rattle.std.specs.Prelude.{◌≡◌, ℕ, List};
    ghost use Rattle.file_index.specs.Lines.{line_feeds};

    ghost Value = { List ℕ };

    ghost view = { λ t. t.text.now };

    ghost invariant = { λ t. t.feeds.items ≡ line_feeds t.text.now };
}

impl<'a> LinedText<'a> {
    /// The text with its lines.
    pub fn new(alloc: Global, text: &'a [u8]) -> Result<Self, AllocError>
        ensures { IfOk result (λ t. t ≡ text.now) }
    {
        let feeds = find_line_feeds(alloc, text)?;
        Ok(LinedText { text, feeds })
    }

    /// The text's bytes.
    pub fn bytes(&self) -> &'a [u8]
        ensures { result.now ≡ self.now }
    {
        self.text
    }

    /// The line and the column of the byte at `at`, both counted from 1 in bytes. Past the end, where the text ends.
    pub fn line_col(&self, at: usize) -> (usize, usize)
        ensures line { result.0 ≡ line_of self.now at }
        ensures column { result.1 ≡ column_of self.now at }
    {
        let at = at.min(self.text.len());
        let feeds = before(&self.feeds, at);
        (feeds.len() + 1, column(feeds, at))
    }
}

/// The column of a byte behind these line feeds.
fn column(feeds: &[usize], at: usize) -> usize
    requires within { at < 2 ^ 63 }
    requires before { behind_last feeds.now ≤ at }
    ensures { result + behind_last feeds.now ≡ at + 1 }
{
    match feeds.last() {
        Some(feed) => at - *feed,
        None => at + 1,
    }
}

/// The places of the line feeds of a text.
fn find_line_feeds(alloc: Global, text: &[u8]) -> Result<Vec<usize>, AllocError>
    ensures { IfOk result (λ feeds. feeds.items ≡ line_feeds text.now) }
{
    let mut feeds = Vec::new(alloc);
    for at in 0..text.len() {
        if text[at] == b'\n' {
            feeds.push(at)?;
        }
    }
    Ok(feeds)
}

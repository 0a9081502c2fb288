//! Where a symbol or reserved word stands.
ghost use Rattle.std.specs.Prelude.{◌≡◌, ◌<◌, ◌≤◌, ◌+◌, length, IfOk, IfSome, slice_get, unwrap_or};
ghost use Rattle.std.specs.List.{AllWithin};
ghost use Rattle.mj_parser.specs.Locations.{all_of};
ghost use Rattle.file_index.specs.Standing.{Standing};

use crate::places::{before, from};
use mj_expressions::has;
use mj_lexer::{Terminal, Token};
use std::alloc::{AllocError, Global};
use std::marker::Model;

/// A symbol or reserved word with its places among tokens. Contracts see the tokens and the terminal.
#[derive(Drop)]
pub struct TerminalPlaces<'a> {
    tokens: &'a [Token],
    terminal: Terminal,
    places: Vec<usize>,
}

impl<'a> Model for TerminalPlaces<'a> {
    ghost use Rattle.std.specs.Prelude.{◌≡◌, length};
    ghost use Rattle.mj_parser.specs.Locations.{all_of};
    ghost use Rattle.file_index.specs.Standing.{Standing};

    ghost Value = { Standing };

    ghost view = { λ t. record { tokens = t.tokens.now; terminal = t.terminal } };

    ghost invariant = { λ t. t.places.items
        ≡ all_of t.tokens.now t.terminal 0 (length t.tokens.now) };
}

impl<'a> TerminalPlaces<'a> {
    /// The places of a terminal among the tokens.
    pub fn new(alloc: Global, tokens: &'a [Token], terminal: Terminal) -> Result<Self, AllocError>
        ensures { IfOk result (λ t. t ≡ record { tokens = tokens.now; terminal = terminal }) }
    {
        let places = find_terminals(alloc, tokens, terminal)?;
        Ok(TerminalPlaces {
            tokens,
            terminal,
            places,
        })
    }

    /// The places of the terminal from `low` to before `high`.
    pub fn within(&self, low: usize, high: usize) -> &[usize]
        requires order { low ≤ high }
        requires end { high ≤ length self.now.tokens }
        ensures places { result.now ≡ all_of self.now.tokens self.now.terminal low high }
        ensures first { AllWithin (λ at. low ≤ at) result.now 0 (length result.now) }
        ensures last { AllWithin (λ at. at < length self.now.tokens) result.now 0
            (length result.now) }
    {
        from(before(&self.places, high), low)
    }

    /// The place of the terminal with this number among those from `low` to before `high`.
    pub fn nth(&self, low: usize, high: usize, number: usize) -> Option<usize>
        requires order { low ≤ high }
        requires end { high ≤ length self.now.tokens }
        ensures value { result ≡ slice_get
            (all_of self.now.tokens self.now.terminal low high) number }
        ensures first { IfSome result (λ at. low ≤ at) }
        ensures within { IfSome result (λ at. at < length self.now.tokens) }
    {
        match self.within(low, high).get(number) {
            Some(at) => Some(*at),
            None => None,
        }
    }

    /// The first place of the terminal behind this one, or the end.
    pub fn next(&self, at: usize) -> usize
        requires { at < length self.now.tokens }
        ensures value { result ≡ unwrap_or
            (slice_get (all_of self.now.tokens self.now.terminal (at + 1)
            (length self.now.tokens)) 0) (length self.now.tokens) }
        ensures after { at ≤ result }
        ensures within { result ≤ length self.now.tokens }
    {
        let end = self.tokens.len();
        match self.nth(at + 1, end, 0) {
            Some(next) => next,
            None => end,
        }
    }
}

/// The places of a terminal among the tokens.
fn find_terminals(
    alloc: Global,
    tokens: &[Token],
    terminal: Terminal,
) -> Result<Vec<usize>, AllocError>
    ensures { IfOk result (λ places. places.items
        ≡ all_of tokens.now terminal 0 (length tokens.now)) }
{
    let mut places = Vec::new(alloc);
    for at in 0..tokens.len() {
        if has(tokens, at, terminal) {
            places.push(at)?;
        }
    }
    Ok(places)
}

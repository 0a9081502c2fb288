//! The lines of messages.
ghost use Rattle.std.specs.Prelude.{◌≡◌, ◌≢◌, ◌<◌, ◌^◌, map, decimal, MatchBool, MatchOption, IfOk};
ghost use Rattle.redgreen_words.specs.Words.{items_of as pieces_of};
ghost use Rattle.redgreen_words.specs.Faults.{IsNoNumber};
ghost use Rattle.redgreen_words.specs.Steps.{AreNumbers, IsHead};

use crate::fault::{LineFault, ReadFault};
use crate::word::Word;
use itoa::Buffer;
use std::alloc::{AllocError, Global};
use std::str::from_utf8;

/// The word and the numbers of a line.
#[derive(Drop)]
pub(crate) struct Head {
    pub(crate) word: Word,
    pub(crate) numbers: Vec<u64>,
}

/// The number that these bytes spell.
fn number_of(item: &[u8]) -> Option<u64>
    ensures { MatchOption result (IsNoNumber item.now) (λ n. (n < 2 ^ 64) × (item.now ≡ decimal n)) }
{
    let Ok(text) = from_utf8(item) else {
        return None;
    };
    let Ok(number) = text.parse::<u64>() else {
        return None;
    };
    if is_decimal(item, number) {
        Some(number)
    } else {
        None
    }
}

/// Whether these bytes spell the number.
fn is_decimal(item: &[u8], number: u64) -> bool
    ensures { MatchBool result ((number < 2 ^ 64) × (item.now ≡ decimal number))
        (item.now ≢ decimal number) }
{
    let mut buffer = Buffer::new();
    item == buffer.format(number).as_bytes()
}

/// What is between the spaces of a line.
fn items_of(alloc: Global, line: &[u8]) -> Result<Vec<&[u8]>, AllocError>
    ensures { IfOk result (λ items. map (λ x. x.now) items.items ≡ pieces_of line.now) }
{
    line.split(|byte| *byte == b' ').collect(alloc)
}

/// The numbers that these items spell.
fn numbers_of(alloc: Global, items: &[&[u8]]) -> Result<Vec<u64>, ReadFault>
    ensures { AreNumbers (map (λ x. x.now) items.now) (λ numbers. numbers.items) result }
{
    let mut numbers = Vec::new(alloc);
    for (i, item) in items.iter().enumerate() {
        match number_of(item) {
            Some(number) => numbers.push(number)?,
            None => return Err(ReadFault::Line(LineFault::NotANumber(i + 1))),
        }
    }
    Ok(numbers)
}

/// The word and the numbers of this line, whose LF is left out.
pub(crate) fn head_of(alloc: Global, line: &[u8]) -> Result<Head, ReadFault>
    ensures { IsHead line.now (λ head. head.word) (λ head. head.numbers.items) result }
{
    let items = items_of(alloc, line)?;
    let [first, rest @ ..] = items.as_slice() else {
        return Err(ReadFault::Line(LineFault::UnknownWord));
    };
    let Some(word) = Word::of(first) else {
        return Err(ReadFault::Line(LineFault::UnknownWord));
    };
    match numbers_of(alloc, rest) {
        Ok(numbers) => Ok(Head { word, numbers }),
        Err(fault) => Err(fault),
    }
}

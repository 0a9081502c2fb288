//! Writing messages.
ghost use Rattle.std.specs.Prelude.{◌≡◌, ◌∷◌, ◌++◌, ◌<◌, ◌^◌, [], length, map, decimal, flat_map, OnOk, IfOk};
ghost use Rattle.redgreen_words.specs.Words.{line_of, AreSmall};
ghost use Rattle.redgreen_words.specs.Steps.{CountsWrite, Delivers, PutsSlices, Writes};
ghost use Rattle.std.specs.List.{concat};

use crate::fault::WriteFault;
use crate::strings::ByteStrings;
use crate::taking::LINE_LIMIT;
use crate::word::Word;
use devices::{Sink, put_parts};
use itoa::Buffer;
use std::alloc::{AllocError, Global};

/// A byte string with at most so many bytes is handed to the sink together with its line.
const SHORT: usize = 4096;

/// Appends a number after a space.
fn put_number(out: &mut Vec<u8>, number: u64) -> Result<(), AllocError>
    ensures put { OnOk result (out.new.items ≡ out.old.items ++ 32 ∷ decimal number) }
    ensures small { number < 2 ^ 64 }
{
    let mut buffer = Buffer::new();
    out.push(b' ')?;
    out.extend_from_slice(buffer.format(number).as_bytes())
}

/// Appends numbers, each after a space.
fn put_numbers(out: &mut Vec<u8>, numbers: &[u64]) -> Result<(), AllocError>
    ensures put { OnOk result (out.new.items
        ≡ out.old.items ++ flat_map (λ n. 32 ∷ decimal n) numbers.now) }
    ensures small { OnOk result (AreSmall numbers.now) }
{
    for number in numbers {
        put_number(out, *number)?;
    }
    Ok(())
}

/// The lengths of byte strings.
fn lengths_of(alloc: Global, strings: &[&[u8]]) -> Result<Vec<u64>, AllocError>
    ensures { IfOk result (λ lengths. lengths.items ≡ map (λ string. length string.now) strings.now) }
{
    strings
        .iter()
        .map(|string| string.len() as u64)
        .collect(alloc)
}

/// The line of a message.
fn line_with(
    alloc: Global,
    word: Word,
    numbers: &[u64],
    strings: &[&[u8]],
) -> Result<Vec<u8>, AllocError>
    ensures line { IfOk result (λ line. line.items
        ≡ line_of word (numbers.now ++ map length (map (λ string. string.now) strings.now))) }
    ensures small { IfOk result (λ line.
        AreSmall (numbers.now ++ map length (map (λ string. string.now) strings.now))) }
{
    let lengths = lengths_of(alloc, strings)?;
    let mut line = Vec::from_slice(alloc, word.spelling())?;
    put_numbers(&mut line, numbers)?;
    put_numbers(&mut line, lengths.as_slice())?;
    Ok(line)
}

/// Writes a message of this word with these numbers and byte strings.
pub(crate) fn put_message<W: Sink>(
    alloc: Global,
    sink: &mut W,
    word: Word,
    numbers: &[u64],
    strings: &[&[u8]],
) -> Result<(), WriteFault>
    ensures written { Writes (W.holds sink.old) (W.holds sink.new) (record {
      word = word;
      numbers = numbers.now;
      strings = map (λ string. string.now) strings.now;
    }) result }
    ensures counted { CountsWrite result (W.failed sink.old) (W.failed sink.new) }
{
    let line = line_with(alloc, word, numbers, strings)?;
    if line.len() >= LINE_LIMIT {
        return Err(WriteFault::LongLine);
    }
    deliver(sink, line, strings)
}

/// Writes the line, LF and the byte strings; if it is one short byte string, all at once.
fn deliver<W: Sink>(sink: &mut W, mut line: Vec<u8>, strings: &[&[u8]]) -> Result<(), WriteFault>
    ensures delivered { Delivers (W.holds sink.old) (W.holds sink.new)
        (line.items ++ (10 ∷ concat (map (λ string. string.now) strings.now))) result }
    ensures counted { CountsWrite result (W.failed sink.old) (W.failed sink.new) }
{
    line.push(b'\n')?;
    match strings {
        [string] if string.len() <= SHORT => {
            line.extend_from_slice(string)?;
            put_slices(sink, &[line.as_slice()])
        }
        _ => match put_slices(sink, &[line.as_slice()]) {
            Ok(()) => put_slices(sink, strings),
            Err(fault) => Err(fault),
        },
    }
}

/// Writes the slices, one after the other.
fn put_slices<W: Sink>(sink: &mut W, slices: &[&[u8]]) -> Result<(), WriteFault>
    ensures delivered { PutsSlices (W.holds sink.old) (W.holds sink.new)
        (concat (map (λ slice. slice.now) slices.now)) result }
    ensures counted { CountsWrite result (W.failed sink.old) (W.failed sink.new) }
{
    match put_parts(sink, slices) {
        Ok(()) => Ok(()),
        Err(_) => Err(WriteFault::Device),
    }
}

/// Writes a message of this word with these numbers and a list of byte strings.
pub(crate) fn put_list<W: Sink>(
    alloc: Global,
    sink: &mut W,
    word: Word,
    numbers: &[u64],
    strings: &ByteStrings,
) -> Result<(), WriteFault>
    ensures written { Writes (W.holds sink.old) (W.holds sink.new) (record {
      word = word;
      numbers = numbers.now;
      strings = strings.now;
    }) result }
    ensures counted { CountsWrite result (W.failed sink.old) (W.failed sink.new) }
{
    let parts = strings.slices(alloc)?;
    put_message(alloc, sink, word, numbers, parts.as_slice())
}

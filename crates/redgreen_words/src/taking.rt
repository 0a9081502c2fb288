//! Taking lines and byte strings from a feed.
ghost use Rattle.std.specs.Prelude.{◌≡◌, ◌≤◌, length};
ghost use Rattle.redgreen_words.specs.declared.fault.LineFault.TheVariants.{WrongCount};
ghost use Rattle.redgreen_words.specs.declared.fault.ReadFault.TheVariants.{Line};
ghost use Rattle.redgreen_words.specs.Steps.{TakesLone, TakesNumbered};
ghost use Rattle.redgreen_words.specs.Feeding.{Appends, CountsRead, TakesByte, TakesLine, TakesString, TakesStrings};

use crate::fault::{LineFault, ReadFault};
use crate::strings::ByteStrings;
use devices::Feed;
use redgreen_sessions::Bytes;
use std::alloc::Global;

/// A line has fewer bytes than this, its LF not counted.
pub(crate) const LINE_LIMIT: usize = 1_048_576;

/// The greatest number of bytes that are taken at a time.
const PIECE: usize = 4096;

/// The next byte, if there is one.
fn take_byte<F: Feed>(feed: &mut F) -> Result<Option<u8>, ReadFault>
    ensures value { TakesByte (F.holds feed.old) (F.holds feed.new) result }
    ensures counted { CountsRead result (F.failed feed.old) (F.failed feed.new) }
{
    let mut room = [0; 1];
    match feed.take(&mut room) {
        Ok(0) => Ok(None),
        Ok(_) => Ok(Some(room[0])),
        Err(_) => Err(ReadFault::Device),
    }
}

/// The bytes up to the next LF, which is taken too.
pub(crate) fn take_line<F: Feed>(alloc: Global, feed: &mut F) -> Result<Vec<u8>, ReadFault>
    ensures value { TakesLine (F.holds feed.old) (F.holds feed.new) (λ line. line.items) result }
    ensures counted { CountsRead result (F.failed feed.old) (F.failed feed.new) }
{
    let mut line = Vec::new(alloc);
    'next: while line.len() < LINE_LIMIT {
        match take_byte(feed) {
            Ok(Some(b'\n')) => return Ok(line),
            Ok(Some(byte)) => line.push(byte)?,
            Ok(None) if line.is_empty() => return Err(ReadFault::Ended),
            Ok(None) => return Err(ReadFault::CutLine),
            Err(fault) => return Err(fault),
        }
    }
    Err(ReadFault::LongLine)
}

/// Takes at most so many bytes and appends them to the text, and answers how many.
fn take_piece<F: Feed>(feed: &mut F, text: &mut Vec<u8>, most: usize) -> Result<usize, ReadFault>
    requires { most ≤ 4096 }
    ensures value { Appends (F.holds feed.old) (F.holds feed.new) text.old.items text.new.items most result }
    ensures counted { CountsRead result (F.failed feed.old) (F.failed feed.new) }
{
    let mut room = [0; PIECE];
    let part = &mut room[..most];
    match feed.take(part) {
        Ok(count) => {
            text.extend_from_slice(&part[..count])?;
            Ok(count)
        }
        Err(_) => Err(ReadFault::Device),
    }
}

/// So many bytes, as the byte string of this index. Memory is only taken for bytes that were there.
pub(crate) fn take_string<F: Feed>(
    alloc: Global,
    feed: &mut F,
    count: u64,
    index: usize,
) -> Result<Bytes, ReadFault>
    ensures value { TakesString (F.holds feed.old) (F.holds feed.new) (λ string. string) count index result }
    ensures counted { CountsRead result (F.failed feed.old) (F.failed feed.new) }
{
    let mut text = Vec::new(alloc);
    let mut left = count;
    while left > 0 {
        let most = left.min(PIECE as u64) as usize;
        match take_piece(feed, &mut text, most) {
            Ok(0) => return Err(ReadFault::CutString(index)),
            Ok(taken) => left -= taken as u64,
            Err(fault) => return Err(fault),
        }
    }
    Ok(Bytes::from_vec(text))
}

/// Byte strings of these lengths.
pub(crate) fn take_strings<F: Feed>(
    alloc: Global,
    feed: &mut F,
    lengths: &[u64],
) -> Result<ByteStrings, ReadFault>
    ensures value { TakesStrings (F.holds feed.old) (F.holds feed.new) (λ strings. strings) lengths.now result }
    ensures counted { CountsRead result (F.failed feed.old) (F.failed feed.new) }
{
    let mut list = Vec::new(alloc);
    for (k, length) in lengths.iter().enumerate() {
        match take_string(alloc, feed, *length, k) {
            Ok(string) => list.push(string)?,
            Err(fault) => return Err(fault),
        }
    }
    Ok(ByteStrings::of(list))
}

/// The byte string of this length, if it is the only number.
pub(crate) fn take_lone<F: Feed>(
    alloc: Global,
    feed: &mut F,
    numbers: &[u64],
) -> Result<Bytes, ReadFault>
    ensures value { TakesLone (F.holds feed.old) (F.holds feed.new) (λ string. string) numbers.now result }
    ensures counted { CountsRead result (F.failed feed.old) (F.failed feed.new) }
{
    let [length] = numbers else {
        return Err(wrong_count(numbers));
    };
    take_string(alloc, feed, *length, 0)
}

/// A number, and the byte string of the length that comes after it, if there are just two numbers.
pub(crate) fn take_numbered<F: Feed>(
    alloc: Global,
    feed: &mut F,
    numbers: &[u64],
) -> Result<(u64, Bytes), ReadFault>
    ensures value { TakesNumbered (F.holds feed.old) (F.holds feed.new) (λ string. string) numbers.now result }
    ensures counted { CountsRead result (F.failed feed.old) (F.failed feed.new) }
{
    let [id, length] = numbers else {
        return Err(wrong_count(numbers));
    };
    match take_string(alloc, feed, *length, 0) {
        Ok(string) => Ok((*id, string)),
        Err(fault) => Err(fault),
    }
}

/// No message of the word has so many numbers.
pub(crate) fn wrong_count(numbers: &[u64]) -> ReadFault
    ensures { result ≡ Line (WrongCount (length numbers.now)) }
{
    ReadFault::Line(LineFault::WrongCount(numbers.len()))
}

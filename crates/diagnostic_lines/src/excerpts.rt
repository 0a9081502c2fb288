//! The line of a place in a text, with a mark below the place.
ghost use Rattle.std.specs.Prelude.{◌≡◌, ◌++◌, ◌<◌, ◌≤◌, IfOk, OnOk, length, map, take, drop, replicate, string_bytes};
ghost use Rattle.std.specs.List.{prefix_len};
ghost use Rattle.mj_lexer.specs.Places.{is_inside_line};
ghost use Rattle.diagnostic_lines.specs.Excerpts.{in_front, from_on, shown, room, left_part, right_part, marked_sides, excerpt};

use crate::places::SourcePlace;
use std::alloc::AllocError;

/// How many bytes a line has at most that is shown whole.
const WHOLE: usize = 200;

/// How many bytes of a longer line are shown at most on each side of a place.
const SIDE: usize = 100;

/// The text in front of a place, and from it on.
fn halves<'a>(place: &SourcePlace<'a>) -> (&'a [u8], &'a [u8])
    ensures before { result.0.now ≡ take place.now.byte place.now.text }
    ensures after { result.1.now ≡ drop place.now.byte place.now.text }
{
    let text = place.text();
    text.split_at(place.byte().min(text.len()))
}

/// The bytes of its line in front of a place.
fn in_front<'a>(place: &SourcePlace<'a>) -> &'a [u8]
    ensures { result.now ≡ in_front place.now }
{
    let (before, _) = halves(place);
    let (_, front) = before.split_at(before.len() - (place.column() - 1));
    front
}

/// How many bytes stand in front of the first line feed.
fn line_len(bytes: &[u8]) -> usize
    ensures value { result ≡ prefix_len is_inside_line bytes.now }
    ensures within { result ≤ length bytes.now }
{
    bytes.iter().take_while(|byte| **byte != b'\n').count()
}

/// The bytes of its line from a place on: at most one more than may be shown.
fn from_on<'a>(place: &SourcePlace<'a>) -> &'a [u8]
    ensures { result.now ≡ take 201 (from_on place.now) }
{
    let (_, after) = halves(place);
    let (near, _) = after.split_at((WHOLE + 1).min(after.len()));
    let (rest, _) = near.split_at(line_len(near));
    rest
}

/// How many bytes are shown at most on each side of a place.
fn room(front: &[u8], rest: &[u8]) -> usize
    ensures { result ≡ room front.now rest.now }
{
    if rest.len() <= WHOLE && front.len() <= WHOLE - rest.len() {
        WHOLE
    } else {
        SIDE
    }
}

/// The byte that stands for a byte of a line.
fn shown(byte: u8) -> u8
    ensures value { result ≡ shown byte }
    ensures ascii { result < 128 }
{
    match byte {
        b' '..=b'~' => byte,
        b'\t' | b'\n' | b'\r' | 12 => b' ',
        _ => b'?',
    }
}

/// Writes the bytes that stand for these.
fn write_shown(text: &mut String, bytes: &[u8]) -> Result<(), AllocError>
    ensures { OnOk result (string_bytes text.new ≡ string_bytes text.old ++ map shown bytes.now) }
{
    for byte in bytes {
        text.push(char::from(shown(*byte)))?;
    }
    Ok(())
}

/// Writes as many spaces.
fn write_spaces(text: &mut String, many: usize) -> Result<(), AllocError>
    ensures { OnOk result (string_bytes text.new ≡ string_bytes text.old ++ replicate many 32) }
{
    for _ in 0..many {
        text.push(' ')?;
    }
    Ok(())
}

/// Writes what is shown in front of a place, and says how wide it is.
fn write_left(text: &mut String, room: usize, front: &[u8]) -> Result<usize, AllocError>
    requires { room ≤ 200 }
    ensures text { OnOk result (string_bytes text.new ≡ string_bytes text.old ++ left_part room front.now) }
    ensures width { IfOk result (λ width. width ≡ length (left_part room front.now)) }
{
    if front.len() <= room {
        write_shown(text, front)?;
        return Ok(front.len());
    }
    text.push_str("...")?;
    let (_, near) = front.split_at(front.len() - room);
    write_shown(text, near)?;
    Ok(room + 3)
}

/// Writes what is shown from a place on.
fn write_right(text: &mut String, room: usize, rest: &[u8]) -> Result<(), AllocError>
    ensures { OnOk result (string_bytes text.new ≡ string_bytes text.old ++ right_part room rest.now) }
{
    if rest.len() <= room {
        return write_shown(text, rest);
    }
    let (near, _) = rest.split_at(room);
    write_shown(text, near)?;
    text.push_str("...")
}

/// Writes a line, of which this stands on both sides of a place, and below it the mark.
fn write_marked(text: &mut String, front: &[u8], rest: &[u8]) -> Result<(), AllocError>
    ensures { OnOk result (string_bytes text.new ≡ string_bytes text.old ++ marked_sides front.now rest.now) }
{
    let room = room(front, rest);
    text.push_str("    ")?;
    let width = write_left(text, room, front)?;
    write_right(text, room, rest)?;
    text.push_str("\n    ")?;
    write_spaces(text, width)?;
    text.push_str("^\n")
}

/// Writes the line of a place, and below it a mark under the place.
pub fn write_excerpt(text: &mut String, place: &SourcePlace) -> Result<(), AllocError>
    ensures { OnOk result (string_bytes text.new ≡ string_bytes text.old ++ excerpt place.now) }
{
    write_marked(text, in_front(place), from_on(place))
}

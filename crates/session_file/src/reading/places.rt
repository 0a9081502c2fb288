//! Where the results of a file stand that is in memory.
ghost use Rattle.std.specs.Prelude.{◌<◌, ◌≤◌, length, IfSome};

use byteorder::{BigEndian, ByteOrder};
use item_ids::Kind;
use sessions::{Form, Mark};

/// The result of a record as a file has it, whether or not it is right.
#[derive(Clone, Copy)]
pub(crate) struct Place<'a> {
    pub(crate) kind: Kind,
    pub(crate) print: [u8; 32],
    pub(crate) text: &'a [u8],
}

/// The place of the result of the record that these bytes of a file begin with, if the record has one, and the bytes behind
/// the record. There is nothing if no record can be made out.
pub(crate) fn next_place(form: Form, bytes: &[u8]) -> Option<(Option<Place<'_>>, &[u8])>
    ensures { IfSome result (λ x. length x.1.now < length bytes.now) }
{
    let (kind, rest) = bytes.split_first()?;
    let kind = Kind::from_number(*kind)?;
    let rest = behind_text(behind_text(rest)?)?;
    let (mark, rest) = rest.split_first()?;
    let mark = Mark::from_number(*mark)?;
    let (print, rest) = behind_edges(rest)?.split_first_chunk::<32>()?;
    if form.ends_with_print(mark) {
        return Some((None, rest));
    }
    let (count, rest) = count_of(rest)?;
    let (text, rest) = rest.split_at_checked(count)?;
    let place = Place {
        kind,
        print: *print,
        text,
    };
    Some((Some(place), rest))
}

/// What stands behind one byte of length and so many bytes.
fn behind_text(bytes: &[u8]) -> Option<&[u8]>
    ensures { IfSome result (λ rest. length rest.now ≤ length bytes.now) }
{
    let (count, rest) = bytes.split_first()?;
    behind(rest, *count as usize)
}

/// What stands behind the edges of a record.
fn behind_edges(bytes: &[u8]) -> Option<&[u8]>
    ensures { IfSome result (λ rest. length rest.now ≤ length bytes.now) }
{
    let (count, rest) = count_of(bytes)?;
    behind(rest, count.checked_mul(8)?)
}

/// What stands behind so many bytes.
fn behind(bytes: &[u8], count: usize) -> Option<&[u8]>
    ensures { IfSome result (λ rest. length rest.now ≤ length bytes.now) }
{
    let (_, rest) = bytes.split_at_checked(count)?;
    Some(rest)
}

/// A number of eight bytes, and what stands behind it.
fn count_of(bytes: &[u8]) -> Option<(usize, &[u8])>
    ensures { IfSome result (λ x. length x.1.now ≤ length bytes.now) }
{
    let (front, rest) = bytes.split_first_chunk::<8>()?;
    Some((BigEndian::read_u64(front) as usize, rest))
}

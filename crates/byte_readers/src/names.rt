//! Names.
ghost use Rattle.std.specs.Prelude.{◌≡◌, ◌<◌, ◌≤◌, ◌++◌, List, ℕ, length, OnOk, IfOk, IfSome, is_some};
ghost use Rattle.std.specs.Str.{is_utf8};
ghost use Rattle.ordered_names.specs.Names.{most_name_bytes};
ghost use Rattle.byte_readers.specs.Spelling.{name};
ghost use Rattle.byte_readers.specs.Reading.{Decodes, name_at};
ghost use Rattle.byte_readers.specs.Names.{IsName};

use crate::breach::{Breach, ReadError};
use crate::fields::{not_canonical, read_byte};
use crate::format::Format;
use ordered_names::Name;
use std::alloc::{AllocError, Global};

/// Names: one byte of length, and the bytes of the text.
pub struct NameFormat;

/// Writes a name.
pub fn put_name(out: &mut Vec<u8>, item: &Name) -> Result<(), AllocError>
    ensures { OnOk result (out.new.items ≡ out.old.items ++ name item.now) }
{
    let bytes = item.bytes();
    out.push(bytes.len() as u8)?;
    out.extend_from_slice(bytes)
}

/// Reads a name.
pub fn read_name(alloc: Global, bytes: &[u8]) -> Result<(Name, &[u8]), ReadError>
    ensures { Decodes (λ x. x) result (name_at bytes.now) }
{
    let (text, rest) = read_name_text(bytes)?;
    Ok((Name::new(alloc, text)?, rest))
}

/// Reads the text of a name, which isn't copied.
#[tactic(auto, unfolding(crate::specs::Reading::name_at))]
pub fn read_name_text(bytes: &[u8]) -> Result<(&str, &[u8]), ReadError>
    ensures value { Decodes (λ text. text.now) result (name_at bytes.now) }
    ensures some { IfOk result (λ x. 0 < length x.0.now) }
    ensures short { IfOk result (λ x. length x.0.now ≤ most_name_bytes) }
{
    let (len, rest) = read_byte(bytes)?;
    let len = len as usize;
    if len == 0 {
        return Err(not_canonical(bytes));
    }
    if rest.len() < len {
        return Err(ReadError::Breach(Breach::Short));
    }
    let (front, rest) = rest.split_at(len);
    let Some(text) = as_text(front) else {
        return Err(not_canonical(bytes));
    };
    Ok((text, rest))
}

/// The bytes as a text, if they are UTF-8.
pub fn as_text(bytes: &[u8]) -> Option<&str>
    ensures same { IfSome result (λ text. text.now ≡ bytes.now) }
    ensures is_text { is_some result ≡ is_utf8 bytes.now }
{
    match std::str::from_utf8(bytes) {
        Ok(text) => Some(text),
        Err(_) => None,
    }
}

/// A name has a spelling.
pub fn check_name(item: &Name)
    ensures { IsName item.now }
{
    let _bytes = item.bytes();
    let _text = item.as_str();
}

impl Format for NameFormat {
    ghost use Rattle.byte_readers.specs.Spelling.{name};
    ghost use Rattle.byte_readers.specs.Reading.{name_at};
    ghost use Rattle.byte_readers.specs.Names.{IsName};
    ghost use Rattle.byte_readers.specs.Laws.{lawful_name};
    ghost use Rattle.byte_readers.specs.Views.{plain};

    type Item = Name;

    ghost Seen = { List ℕ };

    ghost view = { plain };

    ghost is_storable = { λ _. Unit {0} };

    ghost has_spelling = { IsName };

    ghost spelling = { name };

    ghost reading = { name_at };

    ghost lawful = { lawful_name };

    fn check(item: &Name) {
        check_name(item)
    }

    fn write(out: &mut Vec<u8>, item: &Name) -> Result<(), AllocError> {
        put_name(out, item)
    }

    fn read(alloc: Global, bytes: &[u8]) -> Result<(Name, &[u8]), ReadError> {
        read_name(alloc, bytes)
    }
}

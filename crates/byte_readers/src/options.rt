//! Items that may be missing: 00, or 01 and the item.
ghost use Rattle.std.specs.Prelude.{◌≡◌, ◌++◌, OnOk, IfSome};
ghost use Rattle.byte_readers.specs.Spelling.{option};
ghost use Rattle.byte_readers.specs.Reading.{Decodes, option_at};

use crate::breach::{Breach, ReadError};
use crate::fields::not_canonical;
use crate::format::Format;
use std::alloc::{AllocError, Global};

/// A storable item that is there has a spelling.
pub fn check_option<F: Format>(item: &Option<F::Item>)
    requires { IfSome item.now F.is_storable }
    ensures { IfSome (F.view.perhaps item.now) F.has_spelling }
{
    if let Some(item) = item {
        F::check(item);
    }
}

/// Writes an item that may be missing.
pub fn put_option<F: Format>(out: &mut Vec<u8>, item: &Option<F::Item>) -> Result<(), AllocError>
    ensures { OnOk result (out.new.items
        ≡ out.old.items ++ option F.spelling (F.view.perhaps item.now)) }
{
    match item {
        None => out.push(0x00)?,
        Some(item) => {
            out.push(0x01)?;
            F::write(out, item)?;
        }
    }
    Ok(())
}

/// Reads an item that may be missing.
#[tactic(auto, unfolding(crate::specs::Reading::option_at))]
pub fn read_option<F: Format>(
    alloc: Global,
    bytes: &[u8],
) -> Result<(Option<F::Item>, &[u8]), ReadError>
    ensures { Decodes F.view.perhaps result (option_at F.reading bytes.now) }
{
    match bytes {
        [] => Err(ReadError::Breach(Breach::Short)),
        [0x00, rest @ ..] => Ok((None, rest)),
        [0x01, rest @ ..] => {
            let (item, rest) = F::read(alloc, rest)?;
            Ok((Some(item), rest))
        }
        [_, ..] => Err(not_canonical(bytes)),
    }
}

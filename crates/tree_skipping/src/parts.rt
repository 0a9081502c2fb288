//! Skipping what phrases and methods are made of: marks, names, types, and formals and locals.
ghost use Rattle.std.specs.Prelude.{◌≡◌};
ghost use Rattle.byte_readers.specs.Reading.{four_at, name_at};
ghost use Rattle.tree_spelling.specs.Reading.{ty_at};
ghost use Rattle.tree_skipping.specs.Skipping.{behind, Leaves, items_left, list_left, variable_left};

use byte_readers::{Breach, ReadError, not_canonical, read_eight, read_four, read_name_text};

/// Skips a number of four bytes.
pub fn skip_four(bytes: &[u8]) -> Result<&[u8], ReadError>
    ensures { Leaves result (behind (four_at bytes.now)) }
{
    let (_, rest) = read_four(bytes)?;
    Ok(rest)
}

/// Skips a name.
pub fn skip_name(bytes: &[u8]) -> Result<&[u8], ReadError>
    ensures { Leaves result (behind (name_at bytes.now)) }
{
    let (_, rest) = read_name_text(bytes)?;
    Ok(rest)
}

/// Skips a type.
#[tactic(auto, unfolding(tree_spelling::specs::Reading::ty_at))]
pub fn skip_ty(bytes: &[u8]) -> Result<&[u8], ReadError>
    ensures { Leaves result (behind (ty_at bytes.now)) }
{
    match bytes {
        [] => Err(ReadError::Breach(Breach::Short)),
        [0x00, rest @ ..] => Ok(rest),
        [0x01, rest @ ..] => Ok(rest),
        [0x02, rest @ ..] => Ok(rest),
        [0x03, rest @ ..] => skip_name(rest),
        [_, ..] => Err(not_canonical(bytes)),
    }
}

/// Skips formals or locals.
#[tactic(auto, unfolding(crate::specs::Skipping::list_left))]
pub fn skip_variables(bytes: &[u8]) -> Result<&[u8], ReadError>
    ensures { Leaves result (list_left variable_left bytes.now) }
{
    let (count, rest) = read_eight(bytes)?;
    skip_all_variables(count, rest)
}

/// Skips so many formals or locals.
fn skip_all_variables(count: u64, bytes: &[u8]) -> Result<&[u8], ReadError>
    ensures { Leaves result (items_left variable_left count bytes.now) }
{
    let mut rest = bytes;
    for _ in 0..count {
        rest = skip_variable(rest)?;
    }
    Ok(rest)
}

/// Skips a formal or a local.
fn skip_variable(bytes: &[u8]) -> Result<&[u8], ReadError>
    ensures { Leaves result (variable_left bytes.now) }
{
    let rest = skip_name(bytes)?;
    let rest = skip_ty(rest)?;
    skip_four(rest)
}

//! What is said of many keys.
ghost use Rattle.std.specs.Prelude.{◌≡◌, ◌++◌, Some, IfOk, OnOk, map};
ghost use Rattle.std.specs.List.{AllByRecursion};
ghost use Rattle.std.specs.Option.{option_copied};
ghost use Rattle.session_text.specs.Causes.{AreWhys, IsOfEither, IsRightWhy, IsTrail};
ghost use Rattle.session_text.specs.Parts.{AreKeysOfEither, explained_part};

use crate::causes::cause::Why;
use crate::causes::reasons::{is_explained, is_session, red_key, why_of};
use item_ids::{Key, Kind};
use sessions::Session;
use std::alloc::{AllocError, Global};

/// What is said of the keys of two sessions that are explained.
pub(crate) fn whys_of<'a>(
    alloc: Global,
    crossing: &[Kind],
    past: Option<&'a Session>,
    session: &Session,
    keys: &[&'a Key],
) -> Result<Vec<Why<'a>>, AllocError>
    requires { AreKeysOfEither (option_copied past) session.now (map (λ key. key.now) keys.now) }
    ensures { IfOk result (λ whys.
        AreWhys (option_copied past.entry) session.now crossing.now whys.items) }
{
    // The inputs of a session are just the records that are marked so.
    let _records = session.records();
    let mut whys = Vec::new(alloc);
    for key in keys {
        tell(&mut whys, why_of(crossing, past, session, *key))?;
    }
    Ok(whys)
}

/// Adds what is said of a key to the others, if the key is explained.
fn tell<'a>(whys: &mut Vec<Why<'a>>, why: Why<'a>) -> Result<(), AllocError>
    ensures { OnOk result (whys.new.items ≡ whys.old.items ++ explained_part why.entry) }
{
    if !is_explained(&why) {
        return Ok(());
    }
    whys.push(why)?;
    Ok(())
}

/// What is said of a key of either session, and of the key that is red for it, and so on.
pub(crate) fn trail_of<'a>(
    alloc: Global,
    crossing: &[Kind],
    past: Option<&'a Session>,
    session: &Session,
    key: &'a Key,
) -> Result<Vec<Why<'a>>, AllocError>
    requires { IsOfEither (option_copied past) session.now key.now }
    ensures right { IfOk result (λ whys.
        AllByRecursion (IsRightWhy (option_copied past.entry) session.now crossing.now) whys.items) }
    ensures trail { IfOk result (λ whys. IsTrail (Some key.now) whys.items) }
{
    // The edges of a session lead to keys of lower rank.
    is_session(past);
    let mut whys = Vec::new(alloc);
    let mut next = Some(key);
    while let Some(key) = next {
        let why = why_of(crossing, past, session, key);
        next = red_key(why.cause);
        whys.push(why)?;
    }
    Ok(whys)
}

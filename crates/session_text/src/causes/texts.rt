//! The texts.
ghost use Rattle.std.specs.Prelude.{◌<◌, IfOk, length, string_bytes};
ghost use Rattle.std.specs.Option.{option_copied};
ghost use Rattle.sessions.specs.Sessions.{key_at};
ghost use Rattle.session_text.specs.CauseTexts.{IsCausesText, IsWhyText};

use crate::causes::keys::keys_of_either;
use crate::causes::trails::{trail_of, whys_of};
use crate::causes::words::{write_counts, write_whys};
use item_ids::Kind;
use sessions::Session;
use std::alloc::{AllocError, Global};

/// Why the queries of a session were executed, beside the session before it, if there is one: a line for each query that
/// was executed and for each input that is new, changed or gone, in the order of their keys, and then a line with the
/// counts. `crossing` are the kinds of which nothing was taken over, since the two sessions have different profiles.
pub fn why_text(
    alloc: Global,
    crossing: &[Kind],
    past: Option<&Session>,
    session: &Session,
) -> Result<String, AllocError>
    ensures { IfOk result (λ text.
        IsWhyText (option_copied past.entry) session.now crossing.now (string_bytes text)) }
{
    let keys = keys_of_either(alloc, past, session)?;
    let whys = whys_of(alloc, crossing, past, session, &keys)?;
    let mut text = String::new(alloc);
    write_whys(&mut text, &whys)?;
    write_counts(&mut text, session, &whys)?;
    Ok(text)
}

/// Why the query of the record at an index was executed, or what else became of it; if it was executed for a key that
/// is red, the same of that key, and so on.
pub fn causes_text(
    alloc: Global,
    crossing: &[Kind],
    past: Option<&Session>,
    session: &Session,
    index: usize,
) -> Result<String, AllocError>
    requires { index < length session.now.records }
    ensures { IfOk result (λ text. IsCausesText (option_copied past.entry) session.now crossing.now
        (key_at session.now.records index) (string_bytes text)) }
{
    let key = session.records()[index].key();
    let whys = trail_of(alloc, crossing, past, session, key)?;
    let mut text = String::new(alloc);
    write_whys(&mut text, &whys)?;
    Ok(text)
}

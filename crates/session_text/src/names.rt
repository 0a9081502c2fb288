//! The words that name a key, and the record that they name.
ghost use Rattle.std.specs.Prelude.{◌≡◌, ◌<◌, ◌++◌, IfOk, IfSome, OnOk, length, position, string_bytes};
ghost use Rattle.std.specs.Option.{option_copied};
ghost use Rattle.std.specs.Str.{bytes_eq};
ghost use Rattle.session_text.specs.SessionText.{and_name, key_words};

use item_ids::{Key, kind_word};
use ordered_names::Name;
use sessions::Session;
use std::alloc::{AllocError, Global};
use std::fmt::Write;

/// Adds the words that name a key to a text: its kind, and then the names that it has.
pub fn write_key_words(text: &mut String, key: &Key) -> Result<(), AllocError>
    ensures { OnOk result
        (string_bytes text.new ≡ string_bytes text.old ++ key_words key.now) }
{
    text.push_str(kind_word(key.kind()))?;
    write_name(text, key.class())?;
    write_name(text, key.member())
}

/// Adds a space and the name, if there is one.
fn write_name(text: &mut String, name: Option<&Name>) -> Result<(), AllocError>
    ensures { OnOk result
        (string_bytes text.new ≡ string_bytes text.old ++ and_name (option_copied name.entry)) }
{
    match name {
        Some(name) => {
            let word = name.as_str();
            write!(text, " {word}")
        }
        None => Ok(()),
    }
}

/// The index of the first record of a session whose key these words name, or `None` if there is none.
pub fn record_named(
    alloc: Global,
    session: &Session,
    words: &str,
) -> Result<Option<usize>, AllocError>
    ensures found { IfOk result (λ at. at
        ≡ position (λ r. bytes_eq (key_words r.key) words.now) session.now.records) }
    ensures inside { IfOk result (λ at. IfSome at (λ i. i < length session.now.records)) }
{
    let records = session.records();
    for (i, item) in records.iter().enumerate() {
        if is_named(alloc, item.key(), words)? {
            return Ok(Some(i));
        }
    }
    Ok(None)
}

/// Whether these words name a key.
fn is_named(alloc: Global, key: &Key, words: &str) -> Result<bool, AllocError>
    ensures { IfOk result (λ is. is ≡ bytes_eq (key_words key.now) words.now) }
{
    let mut text = String::new(alloc);
    write_key_words(&mut text, key)?;
    Ok(text.as_str() == words)
}

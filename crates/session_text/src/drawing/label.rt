//! The labels of nodes.
ghost use Rattle.std.specs.Prelude.{◌≡◌, ◌++◌, OnOk, encode_utf8_all, string_bytes};
ghost use Rattle.session_text.specs.SessionGraph.{escaped, escaped_char, label_of};

use crate::names::write_key_words;
use item_ids::Key;
use std::alloc::{AllocError, Global};

/// Adds the label of a key's node to a text.
pub(crate) fn write_label(alloc: Global, text: &mut String, key: &Key) -> Result<(), AllocError>
    ensures { OnOk result (string_bytes text.new ≡ string_bytes text.old ++ label_of key.now) }
{
    let mut words = String::new(alloc);
    write_key_words(&mut words, key)?;
    write_escaped(text, words.as_str())
}

fn write_escaped(text: &mut String, words: &str) -> Result<(), AllocError>
    ensures { OnOk result (string_bytes text.new ≡ string_bytes text.old ++ escaped words.now) }
{
    for c in words.chars() {
        write_char(text, c)?;
    }
    Ok(())
}

fn write_char(text: &mut String, c: char) -> Result<(), AllocError>
    ensures { OnOk result
        (string_bytes text.new ≡ string_bytes text.old ++ encode_utf8_all (escaped_char c)) }
{
    match c {
        '"' => text.push_str("\\\""),
        '\\' => text.push_str("\\\\"),
        '&' => text.push_str("&amp;"),
        _ => text.push(c),
    }
}

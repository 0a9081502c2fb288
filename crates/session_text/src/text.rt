//! The lines.
ghost use Rattle.std.specs.Prelude.{◌≡◌, ◌++◌, IfOk, OnOk, string_bytes};
ghost use Rattle.session_text.specs.SessionText.{edges_text, key_text, lines_of_records, record_line};
ghost use Rattle.session_text.specs.SessionText.{text_of_session};

use crate::words::{mark_word, name_word};
use item_ids::{Key, kind_word};
use sessions::{Record, Session};
use std::alloc::{AllocError, Global};
use std::fmt::Write;

/// A line with the session's number, the version of its file and the number of its records, and then a line for each
/// record.
pub fn session_text(alloc: Global, session: &Session) -> Result<String, AllocError>
    ensures { IfOk result (λ text. string_bytes text ≡ text_of_session session.now) }
{
    let records = session.records();
    let (number, version, count) = (session.number(), session.terms().version(), records.len());
    let mut text = format!(in alloc; "session {number} version {version} records {count}\n")?;
    write_records(alloc, &mut text, records)?;
    Ok(text)
}

fn write_records(alloc: Global, text: &mut String, records: &[Record]) -> Result<(), AllocError>
    ensures { OnOk result
        (string_bytes text.new ≡ string_bytes text.old ++ lines_of_records 0 records.now) }
{
    for (i, item) in records.iter().enumerate() {
        write_record(alloc, text, i, item)?;
    }
    Ok(())
}

fn write_record(alloc: Global, text: &mut String, i: usize, item: &Record) -> Result<(), AllocError>
    ensures { OnOk result
        (string_bytes text.new ≡ string_bytes text.old ++ record_line i item.now) }
{
    write!(text, "{i} ")?;
    write_key(text, item.key())?;
    write!(text, " {} [", mark_word(item.mark()))?;
    write_edges(text, item.edges())?;
    let print = item.sealed().print().text(alloc)?;
    writeln!(text, "] {print}")
}

fn write_key(text: &mut String, key: &Key) -> Result<(), AllocError>
    ensures { OnOk result (string_bytes text.new ≡ string_bytes text.old ++ key_text key.now) }
{
    let kind = kind_word(key.kind());
    let (class, member) = (name_word(key.class()), name_word(key.member()));
    write!(text, "{kind} {class} {member}")
}

fn write_edges(text: &mut String, edges: &[usize]) -> Result<(), AllocError>
    ensures { OnOk result
        (string_bytes text.new ≡ string_bytes text.old ++ edges_text edges.now) }
{
    let Some((first, others)) = edges.split_first() else {
        return Ok(());
    };
    write!(text, "{first}")?;
    for edge in others {
        write!(text, ", {edge}")?;
    }
    Ok(())
}

//! The lines.
ghost use Rattle.std.specs.Prelude.{◌≡◌, ◌++◌, ◌==◌, OnOk, count_by, flat_map, string_bytes};
ghost use Rattle.sessions.specs.Marks.{mark_number};
ghost use Rattle.session_text.specs.CauseTexts.{cause_words, is_cut_off, is_of_input, last_line, counts_line, many_with, result_words, why_line};

use crate::causes::cause::{Cause, Why};
use crate::causes::reasons::is_input;
use crate::names::write_key_words;
use sessions::{Mark, Record, Session};
use std::alloc::AllocError;
use std::fmt::Write;

/// Adds a line for each key to a text.
pub(crate) fn write_whys(text: &mut String, whys: &[Why<'_>]) -> Result<(), AllocError>
    ensures { OnOk result
        (string_bytes text.new ≡ string_bytes text.old ++ flat_map why_line whys.now) }
{
    for why in whys {
        write_why(text, why)?;
    }
    Ok(())
}

fn write_why(text: &mut String, why: &Why<'_>) -> Result<(), AllocError>
    ensures { OnOk result (string_bytes text.new ≡ string_bytes text.old ++ why_line why.now) }
{
    write_key_words(text, why.key)?;
    text.push_str(": ")?;
    write_cause(text, why.cause, why.is_same_result)?;
    text.push_str("\n")
}

fn write_cause(text: &mut String, cause: Cause<'_>, is_same_result: bool) -> Result<(), AllocError>
    ensures { OnOk result (string_bytes text.new
        ≡ string_bytes text.old ++ cause_words cause.entry is_same_result) }
{
    match cause {
        Cause::New => text.push_str("new"),
        Cause::Changed => text.push_str("changed"),
        Cause::Gone => text.push_str("gone"),
        Cause::Same => text.push_str("same"),
        Cause::Green => text.push_str("green"),
        Cause::Red(key) => {
            text.push_str("red ")?;
            write_key_words(text, key)?;
            text.push_str(result_words(is_same_result))
        }
        Cause::OtherProfile => {
            text.push_str("other profile")?;
            text.push_str(result_words(is_same_result))
        }
        Cause::NothingChanged => {
            text.push_str("nothing changed")?;
            text.push_str(result_words(is_same_result))
        }
    }
}

fn result_words(is_same_result: bool) -> &'static str
    ensures { result.now ≡ result_words is_same_result }
{
    if is_same_result {
        ", same result"
    } else {
        ", another result"
    }
}

/// Adds the counts to a text: how many inputs are new, changed or gone, how many records were executed, how many of these
/// gave their old result, and how many are green.
pub(crate) fn write_counts(
    text: &mut String,
    session: &Session,
    whys: &[Why<'_>],
) -> Result<(), AllocError>
    ensures { OnOk result
        (string_bytes text.new ≡ string_bytes text.old ++ last_line session.now whys.now) }
{
    let inputs = whys.iter().filter(|why| is_of_input(why)).count();
    let executed = many_with(session.records(), Mark::Executed);
    let cut_off = whys.iter().filter(|why| is_cut_off(why)).count();
    let green = many_with(session.records(), Mark::Green);
    write_last(text, session.number(), inputs, executed, cut_off, green)
}

/// Adds the line of this number and these counts.
#[tactic(auto, unfolding(crate::specs::CauseTexts::counts_line))]
fn write_last(
    text: &mut String,
    number: u32,
    inputs: usize,
    executed: usize,
    cut_off: usize,
    green: usize,
) -> Result<(), AllocError>
    ensures { OnOk result (string_bytes text.new
        ≡ string_bytes text.old ++ counts_line number inputs executed cut_off green) }
{
    write!(text, "session {number}: {inputs} inputs changed, ")?;
    write!(text, "{executed} executed, {cut_off} of them cut off, ")?;
    writeln!(text, "{green} green")
}

/// Whether something is said of an input.
fn is_of_input(why: &Why<'_>) -> bool
    ensures { result ≡ is_of_input why.now }
{
    is_input(why.key.kind())
}

/// Whether the query was executed again, and gave its old result.
fn is_cut_off(why: &Why<'_>) -> bool
    ensures { result ≡ is_cut_off why.now }
{
    !is_of_input(why) && why.is_same_result
}

/// How many of these records became done so.
fn many_with(records: &[Record], mark: Mark) -> usize
    ensures { result ≡ many_with mark records.now }
{
    records.iter().filter(|item| has_mark(item, mark)).count()
}

/// Whether a record became done so.
fn has_mark(item: &Record, mark: Mark) -> bool
    ensures { result ≡ (mark_number item.now.mark == mark_number mark) }
{
    item.mark().number() == mark.number()
}

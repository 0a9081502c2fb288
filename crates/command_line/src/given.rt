//! What the matches of a subcommand have of its arguments.
ghost use Rattle.std.specs.Prelude.{◌≡◌, ◌≤◌, Some, None, IfOk, IfSome};
ghost use Rattle.std.specs.Prelude.{map, option_map, string_bytes};
ghost use Rattle.clap.specs.Words.{first_of, found_of, rows_of};
ghost use Rattle.command_line.specs.Matches.{has_flag, option_number, values_in};

use clap::ArgMatches;
use std::alloc::{AllocError, Global};

/// The first value of an argument, as it was given.
pub(crate) fn first<'a>(given: &ArgMatches<'a>, id: &str) -> Option<&'a str>
    ensures { option_map (λ text. text.now) result
        ≡ first_of id.now (rows_of (found_of given.now)) }
{
    given.get_str(id)
}

/// The first value of an argument, in a text of its own.
pub(crate) fn text(
    alloc: Global,
    given: &ArgMatches<'_>,
    id: &str,
) -> Result<Option<String>, AllocError>
    ensures { IfOk result (λ text.
        first_of id.now (rows_of (found_of given.now)) ≡ option_map string_bytes text) }
{
    match first(given, id) {
        Some(text) => Ok(Some(String::from_str(alloc, text)?)),
        None => Ok(None),
    }
}

/// The number that an option has, which is 1 if it isn't given.
pub(crate) fn number(given: &ArgMatches<'_>, id: &str, most: u8) -> Option<u8>
    requires { 1 ≤ most }
    ensures some { IfSome result (λ number. 1 ≤ number) }
    ensures most { IfSome result (λ number. number ≤ most) }
    ensures given { IfSome result (λ number.
        option_number id.now (rows_of (found_of given.now)) ≡ number) }
    ensures none { first_of id.now (rows_of (found_of given.now)) ≡ None → result ≡ Some 1 }
{
    let Some(text) = first(given, id) else {
        return Some(1);
    };
    let number: u8 = text.parse().ok()?;
    if number == 0 || number > most {
        return None;
    }
    Some(number)
}

/// Whether a flag was given.
pub(crate) fn flag(given: &ArgMatches<'_>, id: &str) -> bool
    ensures { result ≡ has_flag id.now (rows_of (found_of given.now)) }
{
    match first(given, id) {
        Some(text) => text == "true",
        None => false,
    }
}

/// The values of an argument.
pub(crate) fn values(
    alloc: Global,
    given: &ArgMatches<'_>,
    id: &str,
) -> Result<Vec<String>, AllocError>
    ensures { IfOk result (λ texts.
        values_in id.now (rows_of (found_of given.now)) ≡ map string_bytes texts.items) }
{
    match given.get_strs(id) {
        Some(texts) => copies(alloc, texts),
        None => Ok(Vec::new(alloc)),
    }
}

fn copies(alloc: Global, texts: &[&str]) -> Result<Vec<String>, AllocError>
    ensures { IfOk result (λ list. map string_bytes list.items ≡ map (λ text. text.now) texts.now) }
{
    let mut list = Vec::new(alloc);
    for text in texts {
        list.push(String::from_str(alloc, text)?)?;
    }
    Ok(list)
}

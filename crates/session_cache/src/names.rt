//! Names of chains and of session files.
ghost use Rattle.std.specs.Prelude.{◌≡◌, ◌≤◌, ◌++◌, ◌∷◌, [], ℕ, map, string_bytes, All, IfOk, IfSome, Some, OnOk, ◌⊎◌, ◌↔◌, ◌-◌, List, IsTrue, codes};
ghost use Rattle.std.specs.List.Sorted.{IsSorted};
ghost use Rattle.std.specs.Ordering.{nat_cmp};
ghost use Rattle.session_cache.specs.Names.{most, four_digits, entry_name, IsDigit, AreFour, AreNumbers, IsSpelled, IsHighest};

use sessions::Session;
use std::alloc::{AllocError, Global};

/// The greatest number of a chain in its cache; it is the same for a session in its chain.
pub(crate) const MOST: u32 = Session::MOST;

/// What has a number in a cache.
#[derive(Clone, Copy, Debug, PartialEq, Eq)]
pub enum EntryKind {
    /// A chain: a folder `c0000` to `c9999`.
    Chain,
    /// A session: a file `s0000.mjrg` to `s9999.mjrg` in the folder of its chain.
    Session,
}

/// The greatest number that one of these names has. Other names are passed over.
pub fn highest(what: EntryKind, names: &[String]) -> Option<u32>
    ensures { IsHighest what (map string_bytes names.now) result }
{
    let mut highest = None;
    for name in names {
        highest = higher(what, highest, name.as_bytes());
    }
    highest
}

/// The numbers that these names have, in order. Other names are passed over.
pub(crate) fn numbers_in(
    alloc: Global,
    what: EntryKind,
    names: &[String],
) -> Result<Vec<u32>, AllocError>
    ensures numbers { IfOk result
        (λ numbers. AreNumbers what (map string_bytes names.now) numbers.items) }
    ensures ordered { IfOk result (λ numbers. IsSorted nat_cmp numbers.items) }
    ensures few { IfOk result (λ numbers. All (λ n. n ≤ most) numbers.items) }
{
    let mut numbers = Vec::new(alloc);
    for name in names {
        add_number(what, &mut numbers, name.as_bytes())?;
    }
    numbers.sort_unstable();
    Ok(numbers)
}

/// Adds the number of a name, if it has one.
fn add_number(what: EntryKind, numbers: &mut Vec<u32>, name: &[u8]) -> Result<(), AllocError>
    ensures { (front : List (List ℕ)) → AreNumbers what front numbers.old.items
        → OnOk result (AreNumbers what (front ++ name.now ∷ []) numbers.new.items) }
{
    match number_in(what, name) {
        Some(number) => Ok(numbers.push(number)?),
        None => Ok(()),
    }
}

/// The greater of a number and that of a name, if the name has one.
#[tactic(auto, using(crate::proofs::NameRules::raised, crate::proofs::NameRules::passed))]
fn higher(what: EntryKind, highest: Option<u32>, name: &[u8]) -> Option<u32>
    ensures { (front : List (List ℕ)) → IsHighest what front highest
        → IsHighest what (front ++ name.now ∷ []) result }
{
    match number_in(what, name) {
        Some(number) => Some(greater(highest, number)),
        None => highest,
    }
}

/// The greater of two numbers, the first of which may be missing.
fn greater(highest: Option<u32>, number: u32) -> u32
    ensures number { number ≤ result }
    ensures highest { IfSome highest (λ n. n ≤ result) }
    ensures either { (highest ≡ Some result) ⊎ (result ≡ number) }
{
    match highest {
        Some(highest) => highest.max(number),
        None => number,
    }
}

/// The number in this name, or `None` if it is no such name.
fn number_in(what: EntryKind, name: &[u8]) -> Option<u32>
    ensures { IsSpelled (entry_name what) name.now result }
{
    match what {
        EntryKind::Chain => parse_number(name.strip_prefix(b"c".as_slice())?),
        EntryKind::Session => number_before(name.strip_prefix(b"s".as_slice())?),
    }
}

/// The number in the name of a session, without the letter.
#[tactic(auto, using(crate::proofs::NameRules::other_end, crate::proofs::NameRules::read_before, crate::proofs::NameRules::too_short))]
fn number_before(name: &[u8]) -> Option<u32>
    ensures { IsSpelled (λ n. four_digits n ++ codes ".mjrg") name.now result }
{
    let (digits, end) = name.split_at_checked(4)?;
    if !is_session_end(end) {
        return None;
    }
    parse_number(digits)
}

/// Whether this is the end of the name of a session.
fn is_session_end(end: &[u8]) -> bool
    ensures { IsTrue result ↔ (end.now ≡ codes ".mjrg") }
{
    end == b".mjrg".as_slice()
}

/// The number that four decimal digits spell.
#[tactic(auto, using(crate::proofs::NameRules::not_four))]
fn parse_number(digits: &[u8]) -> Option<u32>
    ensures { IsSpelled four_digits digits.now result }
{
    match digits {
        [a, b, c, d] => number_with(*a, *b, *c, *d),
        _ => None,
    }
}

/// The number with these digits.
#[tactic(auto, using(crate::proofs::NameRules::are_four, crate::proofs::NameRules::spelled))]
fn number_with(a: u8, b: u8, c: u8, d: u8) -> Option<u32>
    ensures { IsSpelled four_digits (a ∷ b ∷ c ∷ d ∷ []) result }
{
    if !are_digits(a, b, c, d) {
        return None;
    }
    Some(digit(a) * 1000 + digit(b) * 100 + digit(c) * 10 + digit(d))
}

/// Whether these are digits.
fn are_digits(a: u8, b: u8, c: u8, d: u8) -> bool
    ensures { IsTrue result ↔ AreFour a b c d }
{
    a.is_ascii_digit() && b.is_ascii_digit() && c.is_ascii_digit() && d.is_ascii_digit()
}

/// The number of a digit.
fn digit(byte: u8) -> u32
    requires { IsDigit byte }
    ensures { result ≡ byte - 48 }
{
    (byte - b'0') as u32
}

/// Appends the name of a number.
pub(crate) fn push_name(text: &mut String, what: EntryKind, number: u32) -> Result<(), AllocError>
    requires { number ≤ most }
    ensures { OnOk result (string_bytes text.new ≡ string_bytes text.old ++ entry_name what number) }
{
    match what {
        EntryKind::Chain => {
            text.push_str("c")?;
            push_digits(text, number)
        }
        EntryKind::Session => {
            text.push_str("s")?;
            push_digits(text, number)?;
            text.push_str(".mjrg")
        }
    }
}

/// Appends a number in four decimal digits.
fn push_digits(text: &mut String, number: u32) -> Result<(), AllocError>
    ensures { OnOk result (string_bytes text.new ≡ string_bytes text.old ++ four_digits number) }
{
    let thousands = number / 1000;
    let hundreds = number / 100 % 10;
    let tens = number / 10 % 10;
    let ones = number % 10;
    write!(text, "{thousands}{hundreds}{tens}{ones}")
}

//! Tests: numbers of codes, and orders worked by hand. How answers are printed is shown by golden tests.
use crate::made::name;
use mj_answer::{Code, ascending, find_by_name, name_set, position_by_name};
use ordered_names::Name;
use std::alloc::{AllocError, Global};

fn names(alloc: Global, texts: &[&str]) -> Result<Vec<Name>, AllocError> {
    let mut list = Vec::new(alloc);
    for text in texts {
        list.push(name(alloc, text)?)?;
    }
    Ok(list)
}

/// Whether some numbers are put in order, each once.
fn are_ascending(alloc: Global) -> Result<bool, AllocError> {
    let numbers = ascending(Vec::from_array(alloc, [3, 1, 3, 2])?);
    Ok(numbers.as_slice() == [1, 2, 3].as_slice())
}

#[test]
fn numbers_ascend(rt: HostRuntime) {
    assert!(rt; are_ascending(rt.alloc()) == Ok(true));
}

/// Codes with their numbers.
const CODES: &[(Code, u16)] = &[
    (Code::E101, 101),
    (Code::E207, 207),
    (Code::E301, 301),
    (Code::E319, 319),
];

#[test]
fn codes_have_numbers(rt: HostRuntime) {
    for (code, number) in CODES {
        let is_both_ways = code.number() == *number && Code::from_number(*number) == Some(*code);
        assert!(rt; is_both_ways);
    }
}

/// How many numbers below 1,000 are those of codes.
fn code_count() -> usize {
    let mut count = 0usize;
    for number in 0..1000u16 {
        if Code::from_number(number).is_some() {
            count = count.saturating_add(1);
        }
    }
    count
}

#[test]
fn codes_are_thirty(rt: HostRuntime) {
    assert!(rt; code_count() == 30);
    assert!(rt; Code::E104 < Code::E201);
}

/// Names in any order, one of them twice.
const NAMES: &[&str] = &["f", "b", "a1", "b", "a"];

/// Names, and where each stands in the set of the names.
const SOUGHT: &[(&str, Option<usize>)] = &[
    ("a", Some(0)),
    ("a1", Some(1)),
    ("b", Some(2)),
    ("f", Some(3)),
    ("B", None),
    ("c", None),
    ("g", None),
];

/// Whether the name stands just there in the set of the names.
fn is_found(alloc: Global, text: &str, want: Option<usize>) -> Result<bool, AllocError> {
    let list = name_set(names(alloc, NAMES)?);
    let sought = name(alloc, text)?;
    let position = position_by_name(list.as_slice(), &sought);
    let found = find_by_name(list.as_slice(), &sought);
    Ok(position == want && found.is_some() == want.is_some())
}

#[test]
fn rows_are_found(rt: HostRuntime) {
    for (text, want) in SOUGHT {
        assert!(rt; is_found(rt.alloc(), text, *want) == Ok(true));
    }
}

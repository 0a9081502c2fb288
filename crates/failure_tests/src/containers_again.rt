//! What std and the map of the table keep if they are refused memory.

use indexmap::IndexMap;
use std::alloc::Global;
use std::sync::Arc;
use std::test::*;

/// Whether the list is 0, 1 and so on up to so many.
fn counts(list: &[u64], many: u64) -> bool {
    let counts = list
        .iter()
        .enumerate()
        .all(|(at, number)| *number == at as u64);
    counts && list.len() as u64 == many
}

/// Whether the next number is pushed, and again if that is refused, which has to leave the list as it was.
fn is_pushed(list: &mut Vec<u64>, next: u64) -> bool {
    if list.push(next).is_err() && !(counts(list, next) && list.push(next).is_ok()) {
        return false;
    }
    counts(list, next.saturating_add(1))
}

#[test]
fn vectors_are_as_they_were(rt: HostRuntime) {
    let mut list = Vec::new(rt.alloc());
    for next in 0..40 {
        assert!(rt; is_pushed(&mut list, next));
    }
}

/// Whether the map has 0, 1 and so on up to so many, each with a number 100 times as great.
fn counts_up(map: &IndexMap<u64, u64>, many: u64) -> bool {
    let counts = (0..many).all(|at| map.get(&at) == Some(&at.saturating_mul(100)));
    counts && map.len() as u64 == many
}

/// Whether the next number is put into the map, and again if that is refused, which has to leave the map as it was.
fn is_put(map: &mut IndexMap<u64, u64>, next: u64) -> bool {
    let number = next.saturating_mul(100);
    if map.insert(next, number).is_err()
        && !(counts_up(map, next) && map.insert(next, number).is_ok())
    {
        return false;
    }
    counts_up(map, next.saturating_add(1))
}

#[test]
fn maps_are_as_they_were(rt: HostRuntime) {
    let mut map = IndexMap::new(rt.alloc());
    for next in 0..40 {
        assert!(rt; is_put(&mut map, next));
    }
}

/// Whether the number is shared, and again if that is refused, which has to give it back.
fn is_shared(alloc: Global, number: u64) -> bool {
    match Arc::new(alloc, number) {
        Ok(shared) => *shared == number,
        Err(failed) => failed.value == number && is_shared_again(alloc, number),
    }
}

fn is_shared_again(alloc: Global, number: u64) -> bool {
    match Arc::new(alloc, number) {
        Ok(shared) => *shared == number,
        Err(_) => false,
    }
}

#[test]
fn what_is_not_shared_is_given_back(rt: HostRuntime) {
    for number in 0..4 {
        assert!(rt; is_shared(rt.alloc(), number));
    }
}

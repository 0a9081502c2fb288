//! Sessions that are refused memory, and made again, and how often a gate is called meanwhile.

use crate::changes::{EXECUTED, GREEN_IN_FORM_2};
use crew_fixtures::{gates_are_called_once, run_again};
use session_fixtures::{FIRST, ONE, SECOND_FORM, SECOND_PROFILE};
use std::alloc::Global;
use std::sync::Wait;
use std::test::*;
use std::thread::Threads;
use table_fixtures::Change;

/// Sessions of the class that prints 1, one over the other: all ten queries are executed; in form 2 all are green; in
/// profile 2 the check of the class is executed again; in profile 1 and form 2 it is once more.
static CHAIN: [Change; 4] = [
    EXECUTED,
    GREEN_IN_FORM_2,
    Change {
        terms: SECOND_PROFILE,
        records: FIRST,
        executed: &[8],
        others: &[],
    },
    Change {
        terms: SECOND_FORM,
        records: FIRST,
        executed: &[8],
        others: &[],
    },
];

/// Whether the session of this number is made by 1, 2, 8 and 64 workers, and again if memory was refused.
fn is_made_again<T: Threads + Wait + Sync>(rt: &T, alloc: Global, number: usize) -> bool {
    let (Some(behind), Some(change)) = (CHAIN.get(..number), CHAIN.get(number)) else {
        return false;
    };
    for workers in [1, 2, 8, 64] {
        if run_again(rt, alloc, ONE, behind, change, workers) != Ok(true) {
            return false;
        }
    }
    true
}

#[test]
fn sessions_are_made_again(rt: HostRuntime) {
    assert!(rt; is_made_again(&rt, rt.alloc(), 0));
}

#[test]
fn sessions_of_form_2_are_made_again(rt: HostRuntime) {
    assert!(rt; is_made_again(&rt, rt.alloc(), 1));
}

#[test]
fn sessions_over_another_profile_are_made_again(rt: HostRuntime) {
    assert!(rt; is_made_again(&rt, rt.alloc(), 2));
}

#[test]
fn sessions_of_form_2_over_another_profile_are_made_again(rt: HostRuntime) {
    assert!(rt; is_made_again(&rt, rt.alloc(), 3));
}

/// Ten queries are run.
#[test]
fn a_gate_is_called_once_at_each_end(rt: HostRuntime) {
    for workers in [1, 2, 8] {
        assert!(rt; gates_are_called_once(&rt, rt.alloc(), ONE, workers, 10) == Ok(true));
    }
}

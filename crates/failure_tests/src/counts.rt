//! How often one worker runs the keys of a session: each that is executed just once.

use answer_fixtures::Unfit;
use crew_fixtures::{File, Runs, chain, one_body, runs_in, runs_of};
use session_fixtures::{ONE, TWO, TWO_EDITED};
use std::test::*;

/// The files of a first session, those of one behind it, and how many keys are executed in each.
struct Row {
    files: &'static [File],
    edited: &'static [File],
    first: usize,
    second: usize,
}

const ROWS: &[Row] = &[
    Row {
        files: &[File("M.java", ONE)],
        edited: &[File("M.java", ONE)],
        first: 10,
        second: 0,
    },
    Row {
        files: &[File("M.java", TWO)],
        edited: &[File("M.java", TWO_EDITED)],
        first: 21,
        second: 10,
    },
    Row {
        files: &[File("M.java", ONE), File("A.java", "class A { }")],
        edited: &[File("M.java", ONE), File("A.java", "")],
        first: 16,
        second: 6,
    },
];

/// Whether just so many keys are executed, and each is run once.
fn is_once(runs: Runs, executed: usize) -> bool {
    runs.executed == executed && runs.runs == executed as u64
}

#[test]
fn each_key_is_run_once(rt: HostRuntime) -> Result<(), Unfit> {
    for row in ROWS {
        let (first, second) = runs_of(&rt, rt.alloc(), row.files, row.edited)?;
        assert!(rt; is_once(first, row.first), "{first:?}");
        assert!(rt; is_once(second, row.second), "{second:?}");
    }
    Ok(())
}

/// Of a tree, the index, the class with main and its body, and 400 classes of a field and a method.
#[test]
fn each_key_of_a_chain_is_run_once(rt: HostRuntime) -> Result<(), Unfit> {
    let runs = runs_in(&rt, rt.alloc(), &chain(rt.alloc(), 400)?)?;
    assert!(rt; is_once(runs, 10 + 400 * 8), "{runs:?}");
    Ok(())
}

/// Of 2,000 classes of a method, and one whose body makes an object of each.
#[test]
fn each_key_that_a_long_body_reads_is_run_once(rt: HostRuntime) -> Result<(), Unfit> {
    let runs = runs_in(&rt, rt.alloc(), &one_body(rt.alloc(), 2000)?)?;
    assert!(rt; is_once(runs, 10 + 2001 * 8), "{runs:?}");
    Ok(())
}

//! Sessions by several workers: that they make the same files, that their runs go on at the same time, and that all end if one is
//! refused memory.

use answer_fixtures::Unfit;
use crew_fixtures::{
    BothTerms, Edit, File, Made, Steps, all_stop, digest_by, fault_of_failing, fault_of_worker,
    fellows_stop, made_by, made_of_empty_classes, made_while_held, seats_meet, workers_meet,
};
use item_ids::Kind;
use mini_java::DriveFault;
use session_fixtures::{FIRST_TERMS, ONE, SECOND_FORM, SECOND_PROFILE, TWO, TWO_EDITED};
use std::alloc::Global;
use std::sync::Wait;
use std::test::*;
use std::thread::Threads;

/// Profile 1 and form 1 both times.
const ALIKE: BothTerms = BothTerms {
    first: FIRST_TERMS,
    second: FIRST_TERMS,
};

/// A body is edited.
const EDIT: Edit = Edit {
    file: File("M.java", TWO),
    edited: TWO_EDITED,
};

/// A class overrides a method with one that returns a subclass. That is a fault in profile 1, and none in profile 2.
const COVARIANT: &str =
    "class M { public static void main(String[] a) { System.out.println(1); } } class A { public A g() { return this; } } class B extends A { public B g() { return this; } }";

/// Nothing is edited.
const COVARIANT_EDIT: Edit = Edit {
    file: File("M.java", COVARIANT),
    edited: COVARIANT,
};

/// A first session and the one over it, each of its terms, and how many events each has.
struct Row {
    terms: BothTerms,
    edit: Edit,
    first: usize,
    second: usize,
}

const ROWS: &[Row] = &[
    // Of the 21 queries all are executed, three events for each; then ten are, and eleven are green, two events for each.
    Row {
        terms: ALIKE,
        edit: EDIT,
        first: 63,
        second: 52,
    },
    Row {
        terms: BothTerms {
            first: SECOND_FORM,
            second: SECOND_FORM,
        },
        edit: EDIT,
        first: 63,
        second: 52,
    },
    // Over the other profile the checks of both classes are executed besides, and nine are green.
    Row {
        terms: BothTerms {
            first: SECOND_PROFILE,
            second: SECOND_FORM,
        },
        edit: EDIT,
        first: 63,
        second: 54,
    },
    // If nothing is edited these two alone are executed, and 19 are green.
    Row {
        terms: BothTerms {
            first: FIRST_TERMS,
            second: SECOND_PROFILE,
        },
        edit: Edit {
            file: File("M.java", TWO),
            edited: TWO,
        },
        first: 63,
        second: 44,
    },
    // Of the 26 queries the checks of three classes, all faults of one class and the answer are executed, and 21 are green.
    Row {
        terms: BothTerms {
            first: FIRST_TERMS,
            second: SECOND_PROFILE,
        },
        edit: COVARIANT_EDIT,
        first: 78,
        second: 57,
    },
    Row {
        terms: BothTerms {
            first: SECOND_PROFILE,
            second: SECOND_FORM,
        },
        edit: COVARIANT_EDIT,
        first: 78,
        second: 57,
    },
];

/// Whether the history has so many events, and all are counted.
fn has_events(made: &Made, count: usize) -> bool {
    made.history == count && made.events == count
}

/// Whether the sessions are those of one worker, and all events are counted.
fn are_alike(made: &(Made, Made), alone: &(Made, Made), row: &Row) -> bool {
    made.0 == alone.0
        && made.1 == alone.1
        && has_events(&made.0, row.first)
        && has_events(&made.1, row.second)
}

/// Whether so many workers make sessions with just the files that one makes.
fn are_same<T: Threads + Wait + Sync>(
    rt: &T,
    alloc: Global,
    row: &Row,
    workers: usize,
    alone: &(Made, Made),
) -> Result<bool, Unfit> {
    let made = made_by(rt, alloc, row.terms, &row.edit, workers)?;
    Ok(are_alike(&made, alone, row))
}

#[test]
fn workers_make_the_same_files(rt: HostRuntime) -> Result<(), Unfit> {
    for row in ROWS {
        let alone = made_by(&rt, rt.alloc(), row.terms, &row.edit, 1)?;
        for workers in [1, 2, 8, 64] {
            assert!(rt;
                are_same(&rt, rt.alloc(), row, workers, &alone) == Ok(true),
                "{workers}"
            );
        }
    }
    Ok(())
}

/// How many records of a session are executed and green, and how many events there are.
#[derive(Clone, Copy)]
struct Counts {
    executed: usize,
    green: usize,
    events: usize,
}

/// So many classes without members stand beside the one with main.
const EMPTY_CLASSES: usize = 200;

/// Three inputs; two trees, the index and the answer; five queries of each of the 201 classes; the method and the body of main.
const RECORDS: usize = 1014;

/// At first all but the inputs are executed, three events for each.
const FIRST: Counts = Counts {
    executed: 1011,
    green: 0,
    events: 3033,
};

/// No file is edited: all are green then, two events for each.
const UNCHANGED: Counts = Counts {
    executed: 0,
    green: 1011,
    events: 2022,
};

/// Whether all records of the session are counted, and all events by its workers.
fn has_counts(made: &Made, counts: Counts) -> bool {
    made.records == RECORDS
        && made.executed == counts.executed
        && made.green == counts.green
        && made.history == counts.events
        && made.events == counts.events
}

/// Whether the sessions are the same as others, and have these counts.
fn are_as_counted(made: &(Made, Made), others: &(Made, Made)) -> bool {
    made.0 == others.0
        && made.1 == others.1
        && has_counts(&made.0, FIRST)
        && has_counts(&made.1, UNCHANGED)
}

/// Whether so many workers make the same files as others, and count the same.
fn are_counted<T: Threads + Wait + Sync>(
    rt: &T,
    alloc: Global,
    workers: usize,
    others: &(Made, Made),
) -> Result<bool, Unfit> {
    let made = made_of_empty_classes(rt, alloc, ALIKE, EMPTY_CLASSES, workers)?;
    Ok(are_as_counted(&made, others))
}

#[test]
fn workers_count_each_event(rt: HostRuntime) -> Result<(), Unfit> {
    let by_one = made_of_empty_classes(&rt, rt.alloc(), ALIKE, EMPTY_CLASSES, 1)?;
    for workers in [1, 2, 8, 64] {
        assert!(rt;
            are_counted(&rt, rt.alloc(), workers, &by_one) == Ok(true),
            "{workers}"
        );
    }
    Ok(())
}

/// For so many turns a run waits for another one.
const TURNS: u64 = 100_000_000;

const EMPTY: File = File("A.java", "class A { }");

const MAIN: File = File("M.java", ONE);

/// Two classes of one method each.
const METHODS: File = File(
    "B.java",
    "class B { public int f() { return 1; } } class C { public int g() { return 2; } }",
);

#[test]
fn trees_are_run_at_once(rt: HostRuntime) {
    assert!(rt; workers_meet(&rt, rt.alloc(), &[EMPTY, MAIN], Kind::Tree, 2, TURNS) == Ok(true));
}

#[test]
fn bodies_are_checked_at_once(rt: HostRuntime) {
    assert!(rt;
        workers_meet(&rt, rt.alloc(), &[METHODS, MAIN], Kind::CheckBody, 2, TURNS) == Ok(true)
    );
}

#[test]
fn trees_are_evaluated_at_once(rt: HostRuntime) {
    assert!(rt; seats_meet(&rt, rt.alloc(), EMPTY, MAIN, TURNS) == Ok(true));
}

#[test]
fn one_worker_meets_nobody(rt: HostRuntime) {
    assert!(rt; workers_meet(&rt, rt.alloc(), &[EMPTY, MAIN], Kind::Tree, 1, 1000) == Ok(false));
}

#[test]
fn fellows_of_a_failed_worker_stop(rt: HostRuntime) {
    assert!(rt; fellows_stop(&rt, rt.alloc(), MAIN) == Ok(true));
}

/// By how many workers, and the number of the run that fails: a first session of this file has ten runs.
const FAILING: &[(usize, u64)] = &[
    (1, 0),
    (1, 4),
    (1, 9),
    (2, 0),
    (2, 9),
    (8, 0),
    (8, 5),
    (64, 0),
    (64, 9),
];

/// If a worker fails, all others stop, and there is no session.
#[test]
fn where_one_worker_fails_all_end(rt: HostRuntime) {
    for (workers, failing) in FAILING {
        let fault = fault_of_failing(&rt, rt.alloc(), MAIN, *workers, *failing);
        assert!(rt; fault == Ok(Some(DriveFault::OutOfMemory)));
    }
}

/// If no run fails there is a session.
#[test]
fn where_none_fails_there_is_a_session(rt: HostRuntime) {
    assert!(rt; fault_of_failing(&rt, rt.alloc(), MAIN, 1, 10) == Ok(None));
}

/// Workers who leave jobs out: how many workers there are, and by how many jobs each goes on.
const LEAVING: &[Steps] = &[
    Steps {
        workers: 1,
        step: 2,
    },
    Steps {
        workers: 2,
        step: 2,
    },
    Steps {
        workers: 8,
        step: 3,
    },
    Steps {
        workers: 8,
        step: 0,
    },
];

/// Jobs that are left out are done all the same.
#[test]
fn left_out_jobs_are_done(rt: HostRuntime) {
    let file = File("M.java", TWO);
    let each = digest_by(&rt, rt.alloc(), file, Steps::of(1));
    assert!(rt; each.is_ok());
    for steps in LEAVING {
        assert!(rt; digest_by(&rt, rt.alloc(), file, *steps) == each);
    }
}

/// The second session is of the other profile and in form 2.
const ACROSS: BothTerms = BothTerms {
    first: SECOND_PROFILE,
    second: SECOND_FORM,
};

/// Of so many classes is the project whose runs are held.
const CLASSES: usize = 40;

const SEEDS: [u64; 4] = [1, 2, 3, 4];

/// Whether the sessions that were made have the files of others, and all events are counted.
fn have_files_of(made: &(Made, Made), others: &(Made, Made)) -> bool {
    made.0.digest == others.0.digest
        && made.1.digest == others.1.digest
        && made.0.events == made.0.history
        && made.1.events == made.1.history
}

/// Whether the sessions of a project of many classes, each of its terms, made by so many workers whose runs are held as this
/// seed decides, have the files of these.
fn are_held_same<T: Threads + Wait + Sync>(
    rt: &T,
    alloc: Global,
    terms: BothTerms,
    workers: usize,
    seed: u64,
    others: &(Made, Made),
) -> Result<bool, Unfit> {
    let made = made_while_held(rt, alloc, terms, CLASSES, workers, seed)?;
    Ok(have_files_of(&made, others))
}

/// Whether these are the files by so many workers, however long their runs are held.
fn are_same_while_held<T: Threads + Wait + Sync>(
    rt: &T,
    alloc: Global,
    terms: BothTerms,
    workers: usize,
    others: &(Made, Made),
) -> Result<bool, Unfit> {
    for seed in SEEDS {
        if !are_held_same(rt, alloc, terms, workers, seed, others)? {
            return Ok(false);
        }
    }
    Ok(true)
}

/// The files are the same however long runs are held.
#[test]
fn held_workers_make_the_same_files(rt: HostRuntime) -> Result<(), Unfit> {
    for terms in [ALIKE, ACROSS] {
        let by_one = made_while_held(&rt, rt.alloc(), terms, CLASSES, 1, 0)?;
        for workers in [1, 2, 3, 8, 64] {
            assert!(rt;
                are_same_while_held(&rt, rt.alloc(), terms, workers, &by_one) == Ok(true),
                "{workers} workers"
            );
        }
    }
    Ok(())
}

/// If one worker is refused memory, all others stop.
#[test]
fn all_others_stop(rt: HostRuntime) {
    for workers in [2u32, 8, 64] {
        for failing in 0..workers {
            assert!(rt; all_stop(&rt, rt.alloc(), workers as usize, failing) == Ok(true));
        }
    }
}

#[test]
fn each_worker_in_turn_ends_the_session(rt: HostRuntime) {
    for workers in [2, 8, 64] {
        for failing in 0..workers {
            let fault = fault_of_worker(&rt, rt.alloc(), workers, failing as u64);
            assert!(rt; fault == Ok(Some(DriveFault::OutOfMemory)));
        }
    }
}

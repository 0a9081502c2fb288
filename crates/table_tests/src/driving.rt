//! What is reported of sessions that are run, why there is none, and the texts of those faults.

use mark_green::Fault;
use mini_java::DriveFault;
use session_fixtures::{FIRST_TERMS, ONE, SECOND_PROFILE};
use std::alloc::Global;
use std::sync::Wait;
use std::test::*;
use std::thread::Threads;
use table_fixtures::{Counts, Unmade, are_reported, drive_fault};

/// What is reported of a first session of this text and of one over it, by one worker.
struct Row {
    text: &'static str,
    first: Counts,
    again: Counts,
}

/// A class overrides a method with one that returns a subclass. That is a fault in profile 1, and none in profile 2.
const COVARIANT: &str =
    "class M { public static void main(String[] a) { System.out.println(1); } } class A { public A g() { return this; } } class B extends A { public B g() { return this; } }";

const ROWS: &[Row] = &[
    // Ten queries are executed, three events for each. They are green then, two events for each.
    Row {
        text: ONE,
        first: Counts {
            terms: FIRST_TERMS,
            workers: 1,
            events: &[30],
            history: 30,
        },
        again: Counts {
            terms: FIRST_TERMS,
            workers: 1,
            events: &[20],
            history: 20,
        },
    },
    // In the other profile the class is checked again, and nine are green.
    Row {
        text: ONE,
        first: Counts {
            terms: FIRST_TERMS,
            workers: 1,
            events: &[30],
            history: 30,
        },
        again: Counts {
            terms: SECOND_PROFILE,
            workers: 1,
            events: &[21],
            history: 21,
        },
    },
    Row {
        text: ONE,
        first: Counts {
            terms: SECOND_PROFILE,
            workers: 1,
            events: &[30],
            history: 30,
        },
        again: Counts {
            terms: FIRST_TERMS,
            workers: 1,
            events: &[21],
            history: 21,
        },
    },
    // Of 26 queries the checks of three classes, all faults of one class and the answer are executed, and 21 are green.
    Row {
        text: COVARIANT,
        first: Counts {
            terms: FIRST_TERMS,
            workers: 1,
            events: &[78],
            history: 78,
        },
        again: Counts {
            terms: SECOND_PROFILE,
            workers: 1,
            events: &[57],
            history: 57,
        },
    },
];

#[test]
fn sessions_are_reported(rt: HostRuntime) {
    for row in ROWS {
        let reported = are_reported(&rt, rt.alloc(), row.text, &row.first, &row.again);
        assert!(rt; reported == Ok(true));
    }
}

/// A session that is refused, and why.
struct Refused {
    past: Option<u32>,
    workers: usize,
    fault: DriveFault,
}

const REFUSED: &[Refused] = &[
    Refused {
        past: None,
        workers: 0,
        fault: DriveFault::Workers,
    },
    Refused {
        past: None,
        workers: 65,
        fault: DriveFault::Workers,
    },
    Refused {
        past: Some(9999),
        workers: 1,
        fault: DriveFault::ChainFull,
    },
    // The number of workers is looked at first.
    Refused {
        past: Some(9999),
        workers: 65,
        fault: DriveFault::Workers,
    },
];

fn is_refused<T: Threads + Wait + Sync>(rt: &T, alloc: Global, row: &Refused) -> bool {
    let unmade = Unmade {
        past: row.past,
        workers: row.workers,
    };
    drive_fault(rt, alloc, ONE, &unmade) == Ok(Some(row.fault))
}

#[test]
fn sessions_are_refused(rt: HostRuntime) {
    for row in REFUSED {
        assert!(rt; is_refused(&rt, rt.alloc(), row));
    }
}

const DRIVE_TEXTS: &[(DriveFault, &str)] = &[
    (DriveFault::Workers, "12.1 Workers"),
    (DriveFault::OutOfMemory, "12.2 OutOfMemory"),
    (DriveFault::ChainFull, "12.3 ChainFull"),
];

fn is_drive_text(alloc: Global, fault: DriveFault, want: &str) -> bool {
    match format!(in alloc; "{fault}") {
        Ok(text) => text.as_str() == want,
        Err(_) => false,
    }
}

#[test]
fn drive_faults_are_printed(rt: HostRuntime) {
    for (fault, want) in DRIVE_TEXTS {
        assert!(rt; is_drive_text(rt.alloc(), *fault, want));
    }
}

const GREEN_TEXTS: &[(Fault, &str)] = &[
    (Fault::Stopped, "10.1 Stopped"),
    (Fault::OutOfMemory, "10.2 OutOfMemory"),
    (Fault::Busy, "10.3 Busy"),
];

fn is_green_text(alloc: Global, fault: Fault, want: &str) -> bool {
    match format!(in alloc; "{fault}") {
        Ok(text) => text.as_str() == want,
        Err(_) => false,
    }
}

#[test]
fn green_faults_are_printed(rt: HostRuntime) {
    for (fault, want) in GREEN_TEXTS {
        assert!(rt; is_green_text(rt.alloc(), *fault, want));
    }
}

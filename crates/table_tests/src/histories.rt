//! Whole sessions: which keys are executed, how many events lead there, and what the table closes with.

use crate::records::{MISSING, SESSIONS_ACROSS, SESSIONS_OF_TWO, sessions_of_one};
use answer_fixtures::Unfit;
use session_fixtures::{FIRST_TERMS, Kept, ONE, SECOND_FORM, SECOND_PROFILE, TWO, TWO_EDITED};
use sessions::Terms;
use std::alloc::Global;
use std::test::*;
use table_fixtures::{ALL_QUERIES, Change, History, OF_EDIT, Other, PRINTS_2, is_history};

/// The text of `ONE`, but that it prints 2.
const ONE_EDITED: &str =
    "class M { public static void main(String[] a) { System.out.println(2); } }";

/// A session of these terms and of a project of this text behind so many sessions of a chain, with the keys and edges of
/// the chain's first: which records are executed, which have another result, what is run beside them and reached by
/// nothing, and how many events lead there.
struct Row {
    terms: Terms,
    behind: usize,
    text: &'static str,
    executed: &'static [usize],
    others: &'static [Other],
    beside: &'static [Kept],
    events: usize,
}

/// Whether the session of the case is made as it says.
fn is_led(alloc: Global, chain: &'static [Change], row: &Row) -> Result<bool, Unfit> {
    match (chain.first(), chain.get(..row.behind)) {
        (Some(first), Some(behind)) => {
            let history = History {
                chain: behind,
                text: row.text,
                change: Change {
                    terms: row.terms,
                    records: first.records,
                    executed: row.executed,
                    others: row.others,
                },
                beside: row.beside,
                events: row.events,
            };
            is_history(alloc, &history)
        }
        _ => Err(Unfit),
    }
}

static ROWS_OF_ONE: [Row; 6] = [
    // A first session: all ten queries are executed, three events for each.
    Row {
        terms: FIRST_TERMS,
        behind: 0,
        text: ONE,
        executed: ALL_QUERIES,
        others: &[],
        beside: &[],
        events: 30,
    },
    // One more query is executed, which nothing reaches, and is left out.
    Row {
        terms: FIRST_TERMS,
        behind: 0,
        text: ONE,
        executed: ALL_QUERIES,
        others: &[],
        beside: MISSING,
        events: 33,
    },
    // Nothing is changed: all ten are green, two events for each.
    Row {
        terms: FIRST_TERMS,
        behind: 1,
        text: ONE,
        executed: &[],
        others: &[],
        beside: &[],
        events: 20,
    },
    // A comment is added: the tree alone is executed, and is as it was. Nine are green.
    Row {
        terms: FIRST_TERMS,
        behind: 1,
        text: "class M { public static void main(String[] a) { System.out.println(1); } } // x",
        executed: &[2],
        others: &[Other {
            at: 1,
            digits: "0101000000000000004f636c617373204d207b207075626c69632073746174696320766f6964206d61696e28537472696e675b5d206129207b2053797374656d2e6f75742e7072696e746c6e2831293b207d207d202f2f2078",
        }],
        beside: &[],
        events: 21,
    },
    // The class prints 2: the tree, the index, the header, the method, the check of its body and the answer are executed.
    // Four are green.
    Row {
        terms: FIRST_TERMS,
        behind: 1,
        text: ONE_EDITED,
        executed: OF_EDIT,
        others: PRINTS_2,
        beside: &[],
        events: 26,
    },
    // It prints 1 again: the same are executed, since the previous session is looked at alone.
    Row {
        terms: FIRST_TERMS,
        behind: 2,
        text: ONE,
        executed: OF_EDIT,
        others: &[],
        beside: &[],
        events: 26,
    },
];

#[test]
fn sessions_of_one_class(rt: HostRuntime) {
    for row in &ROWS_OF_ONE {
        assert!(rt; is_led(rt.alloc(), sessions_of_one(), row) == Ok(true));
    }
}

static ROWS_OF_TWO: [Row; 2] = [
    // A first session: all twenty-one queries are executed.
    Row {
        terms: FIRST_TERMS,
        behind: 0,
        text: TWO,
        executed: &[
            2, 3, 4, 5, 6, 7, 8, 9, 10, 11, 12, 13, 14, 15, 16, 17, 18, 19, 20, 21, 22,
        ],
        others: &[],
        beside: &[],
        events: 63,
    },
    // One method returns 3: the tree, the index, both headers, the three methods, the types and the body of the edited
    // method, and the answer are executed. Eleven are green.
    Row {
        terms: FIRST_TERMS,
        behind: 1,
        text: TWO_EDITED,
        executed: &[2, 3, 4, 5, 6, 7, 8, 9, 17, 22],
        others: &[
            Other {
                at: 1,
                digits: "0101000000000000009a636c617373204d207b207075626c69632073746174696320766f6964206d61696e28537472696e675b5d206129207b2053797374656d2e6f75742e7072696e746c6e286e6577204128292e662829293b207d207d20636c6173732041207b207075626c696320696e7420662829207b2072657475726e20333b207d207075626c696320696e7420672829207b2072657475726e20323b207d207d",
            },
            Other {
                at: 2,
                digits: "020101014d030000000b07000000160e0000001101410166000000000000000000000000000000010141000000000000000000000000000000000201016600000000000000000000000000000000000000000000000000080000000700000003000000060101670000000000000000000000000000000000000000000000000008000000070000000200000006",
            },
            Other {
                at: 6,
                digits: "05010101660000000000000000000000000000000000000000000000000008000000070000000300000006",
            },
        ],
        beside: &[],
        events: 52,
    },
];

#[test]
fn sessions_of_two_classes(rt: HostRuntime) {
    for row in &ROWS_OF_TWO {
        assert!(rt; is_led(rt.alloc(), &SESSIONS_OF_TWO, row) == Ok(true));
    }
}

static ROWS_ACROSS: [Row; 6] = [
    // A first session in profile 2: all ten queries are executed.
    Row {
        terms: SECOND_PROFILE,
        behind: 0,
        text: ONE,
        executed: ALL_QUERIES,
        others: &[],
        beside: &[],
        events: 30,
    },
    // One in profile 2 over one in profile 1: the check of the class is executed, three events, and nine are green.
    Row {
        terms: SECOND_PROFILE,
        behind: 1,
        text: ONE,
        executed: &[8],
        others: &[],
        beside: &[],
        events: 21,
    },
    // The class prints 2 besides: the check of its declarations is executed besides the six others.
    Row {
        terms: SECOND_PROFILE,
        behind: 1,
        text: ONE_EDITED,
        executed: &[2, 3, 4, 5, 8, 9, 11],
        others: PRINTS_2,
        beside: &[],
        events: 27,
    },
    // One in form 2, of the same profile: all ten are green.
    Row {
        terms: SECOND_FORM,
        behind: 1,
        text: ONE,
        executed: &[],
        others: &[],
        beside: &[],
        events: 20,
    },
    // Profile 1 again, over the one in profile 2: the check of the class is executed again.
    Row {
        terms: FIRST_TERMS,
        behind: 2,
        text: ONE,
        executed: &[8],
        others: &[],
        beside: &[],
        events: 21,
    },
    // Profile 2 over profile 2: all ten are green, whatever the form is.
    Row {
        terms: SECOND_PROFILE,
        behind: 2,
        text: ONE,
        executed: &[],
        others: &[],
        beside: &[],
        events: 20,
    },
];

#[test]
fn sessions_over_another_profile(rt: HostRuntime) {
    for row in &ROWS_ACROSS {
        assert!(rt; is_led(rt.alloc(), &SESSIONS_ACROSS, row) == Ok(true));
    }
}

//! The calls of tables, each made again if it is refused memory.

use crate::changes::{executed, green, one_session};
use answer_fixtures::KeyParts;
use item_ids::Kind;
use job_table::{CloseFault, TableFault};
use session_fixtures::{FIRST_TERMS, ONE, twice};
use std::alloc::Global;
use std::test::*;
use table_fixtures::{Call, Calls, Change, History, Said, Saying, are_said, is_history};

const FILES: KeyParts<'static> = KeyParts(Kind::Files, "", "");

const ANSWER: KeyParts<'static> = KeyParts(Kind::Answer, "", "");

/// A table that was just opened has no event, and answers for the names of the files.
static OPENED: [Saying; 1] = [Saying {
    call: Call::Ask,
    worker: 0,
    key: FILES,
    said: Said::Done,
    events: 0,
}];

/// From the failure of a worker on, which needs no memory, each call is refused.
static FAILED: [Saying; 7] = [
    Saying {
        call: Call::Ask,
        worker: 0,
        key: ANSWER,
        said: Said::Yours,
        events: 1,
    },
    Saying {
        call: Call::Fail,
        worker: 1,
        key: ANSWER,
        said: Said::Done,
        events: 2,
    },
    Saying {
        call: Call::Ask,
        worker: 0,
        key: ANSWER,
        said: Said::Stopped,
        events: 2,
    },
    Saying {
        call: Call::Ask,
        worker: 1,
        key: FILES,
        said: Said::Stopped,
        events: 2,
    },
    Saying {
        call: Call::Begin,
        worker: 0,
        key: ANSWER,
        said: Said::Refused(TableFault::Failed),
        events: 2,
    },
    Saying {
        call: Call::Fail,
        worker: 0,
        key: ANSWER,
        said: Said::Refused(TableFault::Failed),
        events: 2,
    },
    Saying {
        call: Call::Close,
        worker: 0,
        key: ANSWER,
        said: Said::NotClosed(CloseFault::Failed),
        events: 2,
    },
];

/// Whether each call of a table behind the chain says what it should, in a second try if what the test makes was refused
/// memory.
fn are_answered(alloc: Global, chain: &'static [Change], sayings: &'static [Saying]) -> bool {
    let calls = Calls {
        terms: FIRST_TERMS,
        chain,
        text: ONE,
        sayings,
    };
    twice(&|| are_said(alloc, &calls)) == Ok(true)
}

#[test]
fn calls_are_made_again(rt: HostRuntime) {
    let alloc = rt.alloc();
    assert!(rt; are_answered(alloc, &[], &OPENED));
    assert!(rt; are_answered(alloc, one_session(), &OPENED));
    assert!(rt; are_answered(alloc, &[], &FAILED));
}

/// Whether the session behind the chain is made by so many events, in a second try if what the test makes was refused
/// memory.
fn is_made(alloc: Global, chain: &'static [Change], change: Change, events: usize) -> bool {
    let history = History {
        chain,
        text: ONE,
        change,
        beside: &[],
        events,
    };
    twice(&|| is_history(alloc, &history)) == Ok(true)
}

/// A first session: all queries are asked for, begun and finished.
#[test]
fn runs_are_made_again(rt: HostRuntime) {
    assert!(rt; is_made(rt.alloc(), &[], executed(), 30));
}

/// One of the same text behind it: all queries are asked for and marked.
#[test]
fn marks_are_made_again(rt: HostRuntime) {
    assert!(rt; is_made(rt.alloc(), one_session(), green(), 20));
}

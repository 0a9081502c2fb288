//! The calls of tables in turn, and what each says.

use crate::records::{COMMENTED, PLAIN, TRUE, sessions_of_one};
use answer_fixtures::{KeyParts, Unfit};
use item_ids::Kind;
use job_table::{CloseFault, ReplayFault, TableFault};
use profiles::Profile;
use session_fixtures::{FIRST_TERMS, ONE, SECOND_PROFILE};
use sessions::Terms;
use std::alloc::Global;
use std::test::*;
use table_fixtures::{Call, Calls, Replay, Said, Saying, are_said, replay_of};

pub(crate) const TREE: KeyParts<'static> = KeyParts(Kind::Tree, "M.java", "");

pub(crate) const INDEX: KeyParts<'static> = KeyParts(Kind::Index, "", "");

const ANSWER: KeyParts<'static> = KeyParts(Kind::Answer, "", "");

/// Two workers, no previous session, and one of them gives up.
const FAILED: &[Saying] = &[
    Saying {
        call: Call::Ask,
        worker: 0,
        key: ANSWER,
        said: Said::Yours,
        events: 1,
    },
    Saying {
        call: Call::Ask,
        worker: 0,
        key: TREE,
        said: Said::Yours,
        events: 2,
    },
    Saying {
        call: Call::Ask,
        worker: 0,
        key: INDEX,
        said: Said::Refused(TableFault::OutOfRank),
        events: 2,
    },
    Saying {
        call: Call::Ask,
        worker: 1,
        key: TREE,
        said: Said::Busy,
        events: 2,
    },
    Saying {
        call: Call::Begin,
        worker: 1,
        key: TREE,
        said: Said::Refused(TableFault::NotYours),
        events: 2,
    },
    Saying {
        call: Call::Mark,
        worker: 0,
        key: TREE,
        said: Said::Refused(TableFault::NotInPast),
        events: 2,
    },
    Saying {
        call: Call::Begin,
        worker: 0,
        key: TREE,
        said: Said::Done,
        events: 3,
    },
    Saying {
        call: Call::Close,
        worker: 0,
        key: ANSWER,
        said: Said::NotClosed(CloseFault::StillRunning),
        events: 3,
    },
    Saying {
        call: Call::Fail,
        worker: 1,
        key: ANSWER,
        said: Said::Done,
        events: 4,
    },
    Saying {
        call: Call::Ask,
        worker: 0,
        key: ANSWER,
        said: Said::Stopped,
        events: 4,
    },
    Saying {
        call: Call::Ask,
        worker: 1,
        key: TREE,
        said: Said::Stopped,
        events: 4,
    },
    Saying {
        call: Call::Begin,
        worker: 0,
        key: TREE,
        said: Said::Refused(TableFault::Failed),
        events: 4,
    },
    Saying {
        call: Call::Close,
        worker: 0,
        key: ANSWER,
        said: Said::NotClosed(CloseFault::Failed),
        events: 4,
    },
    Saying {
        call: Call::Fail,
        worker: 0,
        key: ANSWER,
        said: Said::Refused(TableFault::Failed),
        events: 4,
    },
];

/// A comment was added: the index waits for the tree, which has to run, and is as it was.
const BEHIND: &[Saying] = &[
    Saying {
        call: Call::Ask,
        worker: 0,
        key: INDEX,
        said: Said::Yours,
        events: 1,
    },
    Saying {
        call: Call::Ask,
        worker: 0,
        key: TREE,
        said: Said::Yours,
        events: 2,
    },
    Saying {
        call: Call::Mark,
        worker: 0,
        key: INDEX,
        said: Said::Refused(TableFault::EdgeOpen(1)),
        events: 2,
    },
    Saying {
        call: Call::Begin,
        worker: 0,
        key: INDEX,
        said: Said::Refused(TableFault::EdgeOpen(1)),
        events: 2,
    },
    Saying {
        call: Call::Mark,
        worker: 0,
        key: TREE,
        said: Said::Refused(TableFault::EdgeChanged(0)),
        events: 2,
    },
    Saying {
        call: Call::Begin,
        worker: 0,
        key: TREE,
        said: Said::Done,
        events: 3,
    },
    Saying {
        call: Call::Finish(Profile::One, COMMENTED),
        worker: 0,
        key: TREE,
        said: Said::Done,
        events: 4,
    },
    Saying {
        call: Call::Begin,
        worker: 0,
        key: INDEX,
        said: Said::Refused(TableFault::NothingChanged),
        events: 4,
    },
    Saying {
        call: Call::Mark,
        worker: 0,
        key: INDEX,
        said: Said::Done,
        events: 5,
    },
    Saying {
        call: Call::Ask,
        worker: 0,
        key: INDEX,
        said: Said::Done,
        events: 5,
    },
];

/// Nothing was asked.
const OPENED: &[Saying] = &[Saying {
    call: Call::Close,
    worker: 0,
    key: ANSWER,
    said: Said::NotClosed(CloseFault::NoAnswer),
    events: 0,
}];

/// An outcome over another source is refused, and one over the project's own isn't.
const STALE: &[Saying] = &[
    Saying {
        call: Call::Ask,
        worker: 0,
        key: TREE,
        said: Said::Yours,
        events: 1,
    },
    Saying {
        call: Call::Begin,
        worker: 0,
        key: TREE,
        said: Said::Done,
        events: 2,
    },
    Saying {
        call: Call::Finish(Profile::One, TRUE),
        worker: 0,
        key: TREE,
        said: Said::Refused(TableFault::StaleRead(0)),
        events: 2,
    },
    Saying {
        call: Call::Finish(Profile::One, PLAIN),
        worker: 0,
        key: TREE,
        said: Said::Done,
        events: 3,
    },
];

/// A table of these terms and of this text behind so many sessions of one class, and its calls.
pub(crate) struct Row {
    pub(crate) terms: Terms,
    pub(crate) behind: usize,
    pub(crate) text: &'static str,
    pub(crate) sayings: &'static [Saying],
}

static TABLES: [Row; 4] = [
    Row {
        terms: FIRST_TERMS,
        behind: 0,
        text: ONE,
        sayings: FAILED,
    },
    Row {
        terms: FIRST_TERMS,
        behind: 1,
        text: "class M { public static void main(String[] a) { System.out.println(1); } } // x",
        sayings: BEHIND,
    },
    Row {
        terms: FIRST_TERMS,
        behind: 0,
        text: ONE,
        sayings: OPENED,
    },
    Row {
        terms: FIRST_TERMS,
        behind: 0,
        text: ONE,
        sayings: STALE,
    },
];

/// Whether each call says what it should.
pub(crate) fn is_answered(alloc: Global, row: &Row) -> Result<bool, Unfit> {
    match sessions_of_one().get(..row.behind) {
        Some(chain) => {
            let calls = Calls {
                terms: row.terms,
                chain,
                text: row.text,
                sayings: row.sayings,
            };
            are_said(alloc, &calls)
        }
        None => Err(Unfit),
    }
}

#[test]
fn calls_say(rt: HostRuntime) {
    for row in &TABLES {
        assert!(rt; is_answered(rt.alloc(), row) == Ok(true));
    }
}

/// A claim, a begin and a finish of one key.
static RUN: Replay = Replay {
    terms: FIRST_TERMS,
    text: ONE,
    profile: Profile::One,
    records: PLAIN,
    begins: true,
};

/// A claim and then a finish.
static NOT_BEGUN: Replay = Replay {
    terms: FIRST_TERMS,
    text: ONE,
    profile: Profile::One,
    records: PLAIN,
    begins: false,
};

/// No event, in profile 2.
static NOTHING: Replay = Replay {
    terms: SECOND_PROFILE,
    text: ONE,
    profile: Profile::Two,
    records: &[],
    begins: true,
};

/// A run in profile 1, in a table of profile 2: the finish is no step.
static OTHERWISE: Replay = Replay {
    terms: SECOND_PROFILE,
    text: ONE,
    profile: Profile::One,
    records: PLAIN,
    begins: true,
};

/// Whether the replay ends so.
fn is_replay(rt: HostRuntime, replay: &Replay, end: Result<usize, ReplayFault>) -> bool {
    replay_of(rt.alloc(), replay) == Ok(end)
}

#[test]
fn events_are_replayed(rt: HostRuntime) {
    assert!(rt; is_replay(rt, &RUN, Ok(3)));
    assert!(rt; is_replay(rt, &NOT_BEGUN, Err(ReplayFault::Illegal(1))));
    assert!(rt; is_replay(rt, &NOTHING, Ok(0)));
    assert!(rt; is_replay(rt, &OTHERWISE, Err(ReplayFault::Illegal(2))));
}

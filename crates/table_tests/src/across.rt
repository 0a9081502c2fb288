//! The calls of tables in turn over a session of another profile, and with outcomes of another one. Of MiniJava's queries the
//! check of a class alone goes by the profile.

use crate::calls::{INDEX, Row, TREE, is_answered};
use crate::records::{CHECKED, PLAIN, TRUE};
use answer_fixtures::KeyParts;
use item_ids::Kind;
use job_table::TableFault;
use profiles::Profile;
use session_fixtures::{FIRST_TERMS, ONE, SECOND_PROFILE};
use std::test::*;
use table_fixtures::{Call, Said, Saying};

const HEADER: KeyParts<'static> = KeyParts(Kind::Header, "M", "");

const SUPERS: KeyParts<'static> = KeyParts(Kind::Supers, "M", "");

const CLASS: KeyParts<'static> = KeyParts(Kind::CheckClass, "M", "");

/// That of a class which the previous session lacks.
const NO_CLASS: KeyParts<'static> = KeyParts(Kind::CheckClass, "Z", "");

/// The check of a class isn't taken over from another profile. That comes behind whose key it is and whether the previous
/// session has it, and before any edge is looked at: it may be run at once.
const ACROSS: &[Saying] = &[
    Saying {
        call: Call::Ask,
        worker: 0,
        key: CLASS,
        said: Said::Yours,
        events: 1,
    },
    Saying {
        call: Call::Mark,
        worker: 0,
        key: CLASS,
        said: Said::Refused(TableFault::AcrossProfiles),
        events: 1,
    },
    Saying {
        call: Call::Mark,
        worker: 1,
        key: CLASS,
        said: Said::Refused(TableFault::NotYours),
        events: 1,
    },
    Saying {
        call: Call::Ask,
        worker: 1,
        key: NO_CLASS,
        said: Said::Yours,
        events: 2,
    },
    Saying {
        call: Call::Mark,
        worker: 1,
        key: NO_CLASS,
        said: Said::Refused(TableFault::NotInPast),
        events: 2,
    },
    Saying {
        call: Call::Begin,
        worker: 0,
        key: CLASS,
        said: Said::Done,
        events: 3,
    },
    Saying {
        call: Call::Begin,
        worker: 1,
        key: NO_CLASS,
        said: Said::Done,
        events: 4,
    },
];

/// So it is if all its edges are unchanged. What it reads is taken over.
const UNCHANGED: &[Saying] = &[
    Saying {
        call: Call::Ask,
        worker: 0,
        key: TREE,
        said: Said::Yours,
        events: 1,
    },
    Saying {
        call: Call::Mark,
        worker: 0,
        key: TREE,
        said: Said::Done,
        events: 2,
    },
    Saying {
        call: Call::Ask,
        worker: 0,
        key: INDEX,
        said: Said::Yours,
        events: 3,
    },
    Saying {
        call: Call::Mark,
        worker: 0,
        key: INDEX,
        said: Said::Done,
        events: 4,
    },
    Saying {
        call: Call::Ask,
        worker: 0,
        key: HEADER,
        said: Said::Yours,
        events: 5,
    },
    Saying {
        call: Call::Mark,
        worker: 0,
        key: HEADER,
        said: Said::Done,
        events: 6,
    },
    Saying {
        call: Call::Ask,
        worker: 0,
        key: SUPERS,
        said: Said::Yours,
        events: 7,
    },
    Saying {
        call: Call::Mark,
        worker: 0,
        key: SUPERS,
        said: Said::Done,
        events: 8,
    },
    Saying {
        call: Call::Ask,
        worker: 0,
        key: CLASS,
        said: Said::Yours,
        events: 9,
    },
    Saying {
        call: Call::Mark,
        worker: 0,
        key: CLASS,
        said: Said::Refused(TableFault::AcrossProfiles),
        events: 9,
    },
    Saying {
        call: Call::Begin,
        worker: 0,
        key: CLASS,
        said: Said::Done,
        events: 10,
    },
    Saying {
        call: Call::Finish(Profile::Two, CHECKED),
        worker: 0,
        key: CLASS,
        said: Said::Done,
        events: 11,
    },
    Saying {
        call: Call::Ask,
        worker: 0,
        key: CLASS,
        said: Said::Done,
        events: 11,
    },
];

/// In the profile of the previous session it is taken over, and isn't run.
const SAME: &[Saying] = &[
    Saying {
        call: Call::Ask,
        worker: 0,
        key: TREE,
        said: Said::Yours,
        events: 1,
    },
    Saying {
        call: Call::Mark,
        worker: 0,
        key: TREE,
        said: Said::Done,
        events: 2,
    },
    Saying {
        call: Call::Ask,
        worker: 0,
        key: INDEX,
        said: Said::Yours,
        events: 3,
    },
    Saying {
        call: Call::Mark,
        worker: 0,
        key: INDEX,
        said: Said::Done,
        events: 4,
    },
    Saying {
        call: Call::Ask,
        worker: 0,
        key: HEADER,
        said: Said::Yours,
        events: 5,
    },
    Saying {
        call: Call::Mark,
        worker: 0,
        key: HEADER,
        said: Said::Done,
        events: 6,
    },
    Saying {
        call: Call::Ask,
        worker: 0,
        key: SUPERS,
        said: Said::Yours,
        events: 7,
    },
    Saying {
        call: Call::Mark,
        worker: 0,
        key: SUPERS,
        said: Said::Done,
        events: 8,
    },
    Saying {
        call: Call::Ask,
        worker: 0,
        key: CLASS,
        said: Said::Yours,
        events: 9,
    },
    Saying {
        call: Call::Begin,
        worker: 0,
        key: CLASS,
        said: Said::Refused(TableFault::NothingChanged),
        events: 9,
    },
    Saying {
        call: Call::Mark,
        worker: 0,
        key: CLASS,
        said: Said::Done,
        events: 10,
    },
];

/// An outcome of profile 2 is refused behind whose key it is, and before its reads are looked at.
const OTHERWISE: &[Saying] = &[
    Saying {
        call: Call::Ask,
        worker: 0,
        key: TREE,
        said: Said::Yours,
        events: 1,
    },
    Saying {
        call: Call::Finish(Profile::Two, PLAIN),
        worker: 0,
        key: TREE,
        said: Said::Refused(TableFault::NotYours),
        events: 1,
    },
    Saying {
        call: Call::Begin,
        worker: 0,
        key: TREE,
        said: Said::Done,
        events: 2,
    },
    Saying {
        call: Call::Finish(Profile::Two, TRUE),
        worker: 0,
        key: TREE,
        said: Said::Refused(TableFault::OtherProfile),
        events: 2,
    },
    Saying {
        call: Call::Finish(Profile::Two, PLAIN),
        worker: 0,
        key: TREE,
        said: Said::Refused(TableFault::OtherProfile),
        events: 2,
    },
    Saying {
        call: Call::Finish(Profile::One, TRUE),
        worker: 0,
        key: TREE,
        said: Said::Refused(TableFault::StaleRead(0)),
        events: 2,
    },
    Saying {
        call: Call::Finish(Profile::One, PLAIN),
        worker: 0,
        key: TREE,
        said: Said::Done,
        events: 3,
    },
];

/// In profile 2 one of profile 1 is.
const SECOND: &[Saying] = &[
    Saying {
        call: Call::Ask,
        worker: 0,
        key: TREE,
        said: Said::Yours,
        events: 1,
    },
    Saying {
        call: Call::Begin,
        worker: 0,
        key: TREE,
        said: Said::Done,
        events: 2,
    },
    Saying {
        call: Call::Finish(Profile::One, PLAIN),
        worker: 0,
        key: TREE,
        said: Said::Refused(TableFault::OtherProfile),
        events: 2,
    },
    Saying {
        call: Call::Finish(Profile::Two, TRUE),
        worker: 0,
        key: TREE,
        said: Said::Refused(TableFault::StaleRead(0)),
        events: 2,
    },
    Saying {
        call: Call::Finish(Profile::Two, PLAIN),
        worker: 0,
        key: TREE,
        said: Said::Done,
        events: 3,
    },
];

static TABLES: [Row; 5] = [
    Row {
        terms: SECOND_PROFILE,
        behind: 1,
        text: ONE,
        sayings: ACROSS,
    },
    Row {
        terms: SECOND_PROFILE,
        behind: 1,
        text: ONE,
        sayings: UNCHANGED,
    },
    Row {
        terms: FIRST_TERMS,
        behind: 1,
        text: ONE,
        sayings: SAME,
    },
    Row {
        terms: FIRST_TERMS,
        behind: 0,
        text: ONE,
        sayings: OTHERWISE,
    },
    Row {
        terms: SECOND_PROFILE,
        behind: 0,
        text: ONE,
        sayings: SECOND,
    },
];

#[test]
fn calls_across_profiles_say(rt: HostRuntime) {
    for row in &TABLES {
        assert!(rt; is_answered(rt.alloc(), row) == Ok(true));
    }
}

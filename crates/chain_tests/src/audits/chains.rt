//! What audits say of chains of one session and of two.

use crate::audits::files::Turned;
use crate::audits::said::{
    Said, is_accepted_with, said_of_none, said_of_one, said_of_second, said_of_two, said_of_two_as,
};
use answer_fixtures::KeyParts;
use audit_graph::AuditFault;
use item_ids::Kind;
use session_fixtures::{Kept, SECOND_PROFILE};
use sessions::Mark;
use std::test::*;

const HEADER: KeyParts<'static> = KeyParts(Kind::Header, "a", "");

const CHECK: KeyParts<'static> = KeyParts(Kind::CheckClass, "a", "");

const ANSWER: KeyParts<'static> = KeyParts(Kind::Answer, "", "");

const NO_FIELDS: &str = "0401000000000000000000000000000000000000";

const NO_HEADER: &str = "0400";

const NO_FAULTS: &str = "090000000000000000";

const NO_CLASSES: &str = "0c00000000000000000000000000000000";

/// The answer of no class, executed.
const ANSWERED: Kept = Kept {
    key: ANSWER,
    mark: Mark::Executed,
    edges: &[],
    digits: NO_CLASSES,
};

/// The check of the class, green.
const GREEN_CHECK: Kept = Kept {
    key: CHECK,
    mark: Mark::Green,
    edges: &[0, 2],
    digits: NO_FAULTS,
};

/// A first session, and what is said of it.
struct Row {
    turned: Turned,
    said: Said,
}

// Of sessions without the files of a project: no records, a source without bytes, and a source of no file.
const STRAYS: &[Row] = &[
    Row {
        turned: Turned {
            front: 0,
            others: &[],
        },
        said: Said::Refused(AuditFault::NoFiles(0)),
    },
    Row {
        turned: Turned {
            front: 1,
            others: &[Kept {
                key: KeyParts(Kind::Source, "a", ""),
                mark: Mark::Input,
                edges: &[],
                digits: "0100",
            }],
        },
        said: Said::Refused(AuditFault::MissingSource(0, 0)),
    },
    Row {
        turned: Turned {
            front: 2,
            others: &[Kept {
                key: KeyParts(Kind::Source, "z", ""),
                mark: Mark::Input,
                edges: &[],
                digits: "0100",
            }],
        },
        said: Said::Refused(AuditFault::StraySource(0, 2)),
    },
];

#[test]
fn a_session_holds_the_files_of_a_project(rt: HostRuntime) {
    for row in STRAYS {
        assert!(rt; said_of_one(rt.alloc(), &row.turned) == row.said);
    }
}

// The first session as it is; the check reads the header first; it reads the names alone; the answer reads the names;
// the file has no header; the check is green, with no previous session; and there is no answer.
const ONES: &[Row] = &[
    Row {
        turned: Turned {
            front: 5,
            others: &[],
        },
        said: Said::Accepted(1, 3),
    },
    Row {
        turned: Turned {
            front: 3,
            others: &[
                Kept {
                    key: CHECK,
                    mark: Mark::Executed,
                    edges: &[2, 0],
                    digits: NO_FAULTS,
                },
                ANSWERED,
            ],
        },
        said: Said::Refused(AuditFault::OtherRead(0, 3, 0)),
    },
    Row {
        turned: Turned {
            front: 3,
            others: &[
                Kept {
                    key: CHECK,
                    mark: Mark::Executed,
                    edges: &[0],
                    digits: NO_FAULTS,
                },
                ANSWERED,
            ],
        },
        said: Said::Refused(AuditFault::OtherRead(0, 3, 1)),
    },
    Row {
        turned: Turned {
            front: 4,
            others: &[Kept {
                key: ANSWER,
                mark: Mark::Executed,
                edges: &[0],
                digits: NO_CLASSES,
            }],
        },
        said: Said::Refused(AuditFault::UnreadEdges(0, 4)),
    },
    Row {
        turned: Turned {
            front: 2,
            others: &[
                Kept {
                    key: HEADER,
                    mark: Mark::Executed,
                    edges: &[1],
                    digits: NO_HEADER,
                },
                Kept {
                    key: CHECK,
                    mark: Mark::Executed,
                    edges: &[0, 2],
                    digits: NO_FAULTS,
                },
                ANSWERED,
            ],
        },
        said: Said::Refused(AuditFault::OtherResult(0, 2)),
    },
    Row {
        turned: Turned {
            front: 3,
            others: &[GREEN_CHECK, ANSWERED],
        },
        said: Said::Refused(AuditFault::GreenWithoutPast(0, 3)),
    },
    Row {
        turned: Turned {
            front: 4,
            others: &[],
        },
        said: Said::Refused(AuditFault::NoAnswer),
    },
];

#[test]
fn a_first_session_is_accepted_where_each_run_gives_its_records(rt: HostRuntime) {
    for row in ONES {
        assert!(rt; said_of_one(rt.alloc(), &row.turned) == row.said);
    }
}

// The first session.
const FIRST: &Turned = &Turned {
    front: 5,
    others: &[],
};

// All of it again behind that session.
const UNCHANGED: &Turned = &Turned {
    front: 2,
    others: &[
        Kept {
            key: HEADER,
            mark: Mark::Green,
            edges: &[1],
            digits: NO_FIELDS,
        },
        GREEN_CHECK,
        Kept {
            key: ANSWER,
            mark: Mark::Green,
            edges: &[],
            digits: NO_CLASSES,
        },
    ],
};

#[test]
fn an_unchanged_session_is_accepted_and_nothing_of_it_is_run(rt: HostRuntime) {
    assert!(rt; said_of_two(rt.alloc(), FIRST, UNCHANGED) == Said::Accepted(2, 3));
}

#[test]
fn what_does_not_go_by_the_profile_is_taken_over_from_another_one(rt: HostRuntime) {
    assert!(rt;
        said_of_two_as(rt.alloc(), SECOND_PROFILE, FIRST, UNCHANGED) == Said::Accepted(2, 3)
    );
}

// The check is green, with other edges than in that session.
const OTHER_EDGES: &Turned = &Turned {
    front: 3,
    others: &[Kept {
        key: CHECK,
        mark: Mark::Green,
        edges: &[0],
        digits: NO_FAULTS,
    }],
};

#[test]
fn a_green_record_has_the_edges_of_the_session_before(rt: HostRuntime) {
    assert!(rt;
        said_of_two(rt.alloc(), FIRST, OTHER_EDGES) == Said::Refused(AuditFault::OtherEdges(1, 3))
    );
}

#[test]
fn an_accepted_session_tells_its_answer_and_just_its_executed_records_are_run(rt: HostRuntime) {
    assert!(rt; is_accepted_with(rt.alloc(), FIRST, NO_CLASSES, &[HEADER, CHECK, ANSWER]));
}

#[test]
fn a_chain_begins_with_the_first_session(rt: HostRuntime) {
    assert!(rt; said_of_none(rt.alloc()) == Said::Refused(AuditFault::EmptyChain));
    assert!(rt;
        said_of_second(rt.alloc(), FIRST, UNCHANGED) == Said::Refused(AuditFault::BrokenLink(0))
    );
}

//! The chains, members, checks and diagnostics of classes, and the answer of a project. More cases of each kind, those
//! of the main class among them, stand with the queries of whole projects.

use crate::answers::{
    FILE_A, HEADER_Z, INDEX_OF_ONE, NO_HEADER_A, NO_HEADER_B, NO_TREE, SIG_F, SUPERS_B, SUPERS_Z,
    are_right,
};
use answer_fixtures::KeyParts;
use item_ids::Kind;
use query_fixtures::Row;
use run_fixtures::Given;
use std::test::*;

const HEADER_B: Given<'static> = Given(
    KeyParts(Kind::Header, "B", ""),
    "040100010141000000000000000000000000000000010167",
);

const HEADER_WITH_FIELD: Given<'static> = Given(
    KeyParts(Kind::Header, "A", ""),
    "040100000000000000000001017800000000000000000201660167",
);

const SUPERS_C: Given<'static> = Given(
    KeyParts(Kind::Supers, "C", ""),
    "07010000000000000001014301015a",
);

const INDEX_OF_C: Given<'static> = Given(
    KeyParts(Kind::Index, "", ""),
    "03000000000000000101430161",
);

const HEADER_C: Given<'static> = Given(
    KeyParts(Kind::Header, "C", ""),
    "04010001015a00000000000000000000000000000000",
);

const SUPERS_D: Given<'static> = Given(
    KeyParts(Kind::Supers, "D", ""),
    "070100000000000000010144020144",
);

const HEADER_D: Given<'static> = Given(
    KeyParts(Kind::Header, "D", ""),
    "04010001014400000000000000000000000000000000",
);

const WRONG_CLASS_B: Given<'static> = Given(
    KeyParts(Kind::CheckClass, "B", ""),
    "090000000000000001020000000000cd",
);

const MEMBERS_B: Given<'static> = Given(
    KeyParts(Kind::Members, "B", ""),
    "08010000000000000001017801410000000000000000020166014100000000000000000001670142000000000000000000",
);

const MEMBERS_WITH_FIELD: Given<'static> = Given(
    KeyParts(Kind::Members, "A", ""),
    "08010000000000000001017801410000000000000000020166014100000000000000000001670141000000000000000000",
);

// In order: the chains of a class that isn't declared, of one below another, of one that extends a class which isn't
// declared, and of one that extends itself; the members of one that overrides a method.
static CHAINS_AND_MEMBERS: [Row; 5] = [
    Row {
        query: SUPERS_Z,
        reads: &[INDEX_OF_ONE],
    },
    Row {
        query: SUPERS_B,
        reads: &[
            Given(
                KeyParts(Kind::Index, "", ""),
                "0300000000000000020141016101420161",
            ),
            HEADER_B,
            HEADER_WITH_FIELD,
        ],
    },
    Row {
        query: SUPERS_C,
        reads: &[INDEX_OF_C, HEADER_C],
    },
    Row {
        query: SUPERS_D,
        reads: &[
            Given(KeyParts(Kind::Index, "", ""), "03000000000000000101440161"),
            HEADER_D,
        ],
    },
    Row {
        query: MEMBERS_B,
        reads: &[
            SUPERS_B,
            HEADER_B,
            HEADER_WITH_FIELD,
            SIG_F,
            Given(KeyParts(Kind::Sig, "B", "g"), "0601000000000000000000"),
        ],
    },
];

// In order: the checks of a class that overrides rightly, of one with another type, of one above which none is declared, of
// one that extends itself, and of one with a field whose class isn't declared and a second field of that name.
static CHECKS: [Row; 5] = [
    Row {
        query: Given(KeyParts(Kind::CheckClass, "B", ""), "090000000000000000"),
        reads: &[HEADER_B, SUPERS_B, MEMBERS_B, MEMBERS_WITH_FIELD],
    },
    Row {
        query: WRONG_CLASS_B,
        reads: &[
            HEADER_B,
            SUPERS_B,
            Given(
                KeyParts(Kind::Members, "B", ""),
                "08010000000000000001017801410000000000000000020166014100000000000000000001670142000000000000000001",
            ),
            MEMBERS_WITH_FIELD,
        ],
    },
    Row {
        query: Given(
            KeyParts(Kind::CheckClass, "C", ""),
            "0900000000000000010000c9",
        ),
        reads: &[HEADER_C, SUPERS_C],
    },
    Row {
        query: Given(
            KeyParts(Kind::CheckClass, "D", ""),
            "0900000000000000010000ca",
        ),
        reads: &[HEADER_D, SUPERS_D],
    },
    Row {
        query: Given(
            KeyParts(Kind::CheckClass, "F", ""),
            "090000000000000002010000000000ce010000000100cb",
        ),
        reads: &[
            Given(
                KeyParts(Kind::Header, "F", ""),
                "040100000000000000000002017a03015a017a000000000000000000",
            ),
            Given(
                KeyParts(Kind::Supers, "F", ""),
                "07010000000000000001014600",
            ),
            HEADER_Z,
        ],
    },
];

// In order: the diagnostics of a class with diagnostics of both kinds, and of one with two methods of a name; the
// answer for a file that is no sentence.
static FAULTS: [Row; 3] = [
    Row {
        query: Given(
            KeyParts(Kind::Diags, "B", ""),
            "0b0000000000000002020000000000cd03016700000008012f",
        ),
        reads: &[
            HEADER_B,
            WRONG_CLASS_B,
            Given(
                KeyParts(Kind::CheckBody, "B", "g"),
                "0a000000000000000103016700000008012f",
            ),
        ],
    },
    Row {
        query: Given(
            KeyParts(Kind::Diags, "G", ""),
            "0b0000000000000001020000000100cc",
        ),
        reads: &[
            Given(
                KeyParts(Kind::Header, "G", ""),
                "040100000000000000000000000000000000000201660166",
            ),
            Given(
                KeyParts(Kind::CheckClass, "G", ""),
                "090000000000000001020000000100cc",
            ),
            Given(KeyParts(Kind::CheckBody, "G", "f"), "0a0000000000000000"),
        ],
    },
    Row {
        query: Given(
            KeyParts(Kind::Answer, "", ""),
            "0c000000000000000200006601016100650000000000000000",
        ),
        reads: &[
            FILE_A,
            NO_TREE,
            Given(KeyParts(Kind::Index, "", ""), "030000000000000000"),
        ],
    },
];

// Answers that no project gives, in order: a chain of a class without header and a method without types, which are passed
// over; a class of the index without header, which is its whole chain; a class with a header and without chain; a class of
// the index without table, which has an empty one.
static OF_NO_PROJECT: [Row; 4] = [
    Row {
        query: Given(
            KeyParts(Kind::Members, "B", ""),
            "080100000000000000000000000000000000",
        ),
        reads: &[
            SUPERS_B,
            HEADER_B,
            NO_HEADER_A,
            Given(KeyParts(Kind::Sig, "B", "g"), "0600"),
        ],
    },
    Row {
        query: Given(
            KeyParts(Kind::Supers, "B", ""),
            "07010000000000000001014200",
        ),
        reads: &[
            Given(KeyParts(Kind::Index, "", ""), "03000000000000000101420161"),
            NO_HEADER_B,
        ],
    },
    Row {
        query: Given(KeyParts(Kind::CheckClass, "B", ""), "090000000000000000"),
        reads: &[HEADER_B, Given(KeyParts(Kind::Supers, "B", ""), "0700")],
    },
    Row {
        query: Given(
            KeyParts(Kind::Answer, "", ""),
            "0c0000000000000002000066010161006500000000000000010143000000000000000000000000000000000000000000000000",
        ),
        reads: &[
            FILE_A,
            NO_TREE,
            INDEX_OF_C,
            Given(KeyParts(Kind::Members, "C", ""), "0800"),
            Given(KeyParts(Kind::Diags, "C", ""), "0b0000000000000000"),
        ],
    },
];

#[test]
fn chains_and_members(rt: HostRuntime) -> Result<(), Fail> {
    assert!(rt; are_right(rt.alloc(), &CHAINS_AND_MEMBERS)?);
    Ok(())
}

#[test]
fn checks_of_classes(rt: HostRuntime) -> Result<(), Fail> {
    assert!(rt; are_right(rt.alloc(), &CHECKS)?);
    Ok(())
}

#[test]
fn faults_and_the_answer_of_no_sentence(rt: HostRuntime) -> Result<(), Fail> {
    assert!(rt; are_right(rt.alloc(), &FAULTS)?);
    Ok(())
}

#[test]
fn values_that_no_project_gives(rt: HostRuntime) -> Result<(), Fail> {
    assert!(rt; are_right(rt.alloc(), &OF_NO_PROJECT)?);
    Ok(())
}

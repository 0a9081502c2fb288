//! The checks of classes whose methods override one with another return type, in both profiles.
use crate::answers::{SUPERS_B, are_right, are_right_in};
use answer_fixtures::KeyParts;
use item_ids::Kind;
use profiles::Profile;
use query_fixtures::Row;
use run_fixtures::Given;
use std::test::*;

// The class B below A, which has a method g.
const HEADER_B: Given<'static> = Given(
    KeyParts(Kind::Header, "B", ""),
    "040100010141000000000000000000000000000000010167",
);

// A's g gives an A.
const MEMBERS_A: Given<'static> = Given(
    KeyParts(Kind::Members, "A", ""),
    "080100000000000000000000000000000001016701410000000000000000030141",
);

// B's g gives a B, an A, an int or a C, or takes an int and gives a C.
const GIVES_B: Given<'static> = Given(
    KeyParts(Kind::Members, "B", ""),
    "080100000000000000000000000000000001016701420000000000000000030142",
);

const GIVES_A: Given<'static> = Given(
    KeyParts(Kind::Members, "B", ""),
    "080100000000000000000000000000000001016701420000000000000000030141",
);

const GIVES_INT: Given<'static> = Given(
    KeyParts(Kind::Members, "B", ""),
    "08010000000000000000000000000000000101670142000000000000000000",
);

const GIVES_C: Given<'static> = Given(
    KeyParts(Kind::Members, "B", ""),
    "080100000000000000000000000000000001016701420000000000000000030143",
);

const TAKES_INT: Given<'static> = Given(
    KeyParts(Kind::Members, "B", ""),
    "08010000000000000000000000000000000101670142000000000000000100030143",
);

// A chain of C with A in it, and one without.
const CHAIN_WITH_A: Given<'static> = Given(
    KeyParts(Kind::Supers, "C", ""),
    "070100000000000000020143014100",
);

const CHAIN_OF_C: Given<'static> = Given(
    KeyParts(Kind::Supers, "C", ""),
    "07010000000000000001014300",
);

const FINE: Given<'static> = Given(KeyParts(Kind::CheckClass, "B", ""), "090000000000000000");

const WRONG: Given<'static> = Given(
    KeyParts(Kind::CheckClass, "B", ""),
    "090000000000000001020000000000cd",
);

// In profile 1 each type but an equal one is wrong, and no chain is read but that of the class.
static IN_PROFILE_1: [Row; 3] = [
    Row {
        query: FINE,
        reads: &[HEADER_B, SUPERS_B, GIVES_A, MEMBERS_A],
    },
    Row {
        query: WRONG,
        reads: &[HEADER_B, SUPERS_B, GIVES_B, MEMBERS_A],
    },
    Row {
        query: WRONG,
        reads: &[HEADER_B, SUPERS_B, GIVES_C, MEMBERS_A],
    },
];

// In profile 2 the chain of a return type is read, if it was not read before: of neither an equal type, nor one that is
// no class, nor with other parameters.
static IN_PROFILE_2: [Row; 6] = [
    Row {
        query: FINE,
        reads: &[HEADER_B, SUPERS_B, GIVES_A, MEMBERS_A],
    },
    Row {
        query: FINE,
        reads: &[HEADER_B, SUPERS_B, GIVES_B, MEMBERS_A],
    },
    Row {
        query: FINE,
        reads: &[HEADER_B, SUPERS_B, GIVES_C, MEMBERS_A, CHAIN_WITH_A],
    },
    Row {
        query: WRONG,
        reads: &[HEADER_B, SUPERS_B, GIVES_C, MEMBERS_A, CHAIN_OF_C],
    },
    Row {
        query: WRONG,
        reads: &[HEADER_B, SUPERS_B, GIVES_INT, MEMBERS_A],
    },
    Row {
        query: WRONG,
        reads: &[HEADER_B, SUPERS_B, TAKES_INT, MEMBERS_A],
    },
];

#[test]
fn overrides_in_profile_1(rt: HostRuntime) -> Result<(), Fail> {
    assert!(rt; are_right(rt.alloc(), &IN_PROFILE_1)?);
    Ok(())
}

#[test]
fn overrides_in_profile_2(rt: HostRuntime) -> Result<(), Fail> {
    assert!(rt; are_right_in(rt.alloc(), Profile::Two, &IN_PROFILE_2)?);
    Ok(())
}

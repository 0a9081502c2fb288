//! The checks of bodies. One that calls a method which is there, and what is kept if a read of it is refused, stand with
//! the queries of whole projects.

use crate::answers::{BODY_F, BODY_H, HEADER_Z, NO_HEADER_A, SUPERS_B, are_right};
use answer_fixtures::KeyParts;
use item_ids::Kind;
use query_fixtures::{Row, is_checked};
use run_fixtures::Given;
use std::test::*;

const BARE_HEADER_B: Given<'static> = Given(
    KeyParts(Kind::Header, "B", ""),
    "04010001014100000000000000000000000000000000",
);

const METHOD_OF_B: Given<'static> = Given(
    KeyParts(Kind::Method, "B", "f"),
    "05010101660000000000000000000000000000000000000000000000000104000000070161000000060e000000080141080000000e000000000000000d",
);

const MEMBERS_OF_B: Given<'static> = Given(
    KeyParts(Kind::Members, "B", ""),
    "0801000000000000000101610142030141000000000000000101660142000000000000000000",
);

// In order: a field assigned a new object; an argument of a class below the formal's; values of classes below a field's and
// the return's, and one of a local's own.
static WELL: [Row; 3] = [
    Row {
        query: Given(KeyParts(Kind::CheckBody, "B", "f"), "0a0000000000000000"),
        reads: &[
            METHOD_OF_B,
            MEMBERS_OF_B,
            Given(
                KeyParts(Kind::Header, "A", ""),
                "0401000000000000000000000000000000000000",
            ),
        ],
    },
    Row {
        query: BODY_H,
        reads: &[
            Given(
                KeyParts(Kind::Method, "A", "h"),
                "05010101680000000000000000000000000000000000000000000000000007000000090c00000007016700000000000000010e0000000b014200000006",
            ),
            BARE_HEADER_B,
            Given(
                KeyParts(Kind::Members, "A", ""),
                "0801000000000000000000000000000000020167014100000000000000010301410001680141000000000000000000",
            ),
            SUPERS_B,
        ],
    },
    Row {
        query: BODY_F,
        reads: &[
            Given(
                KeyParts(Kind::Method, "A", "f"),
                "05010101660301410000000000000002016203014200000004016303014300000007000000000000000101780301410000000b0000000000000002040000000f01610000000e0b00000010016204000000130178000000120b0000001401610b00000017016300000016",
            ),
            Given(
                KeyParts(Kind::Header, "A", ""),
                "040100000000000000000001016103014100000000000000010166",
            ),
            BARE_HEADER_B,
            Given(
                KeyParts(Kind::Header, "C", ""),
                "04010001014100000000000000000000000000000000",
            ),
            Given(
                KeyParts(Kind::Members, "A", ""),
                "08010000000000000001016101410301410000000000000001016601410000000000000002030142030143030141",
            ),
            SUPERS_B,
            Given(
                KeyParts(Kind::Supers, "C", ""),
                "070100000000000000020143014100",
            ),
        ],
    },
];

// In order: a field assigned a new object whose class isn't declared; a sum and a name at fault, and nothing said of the
// comparison; two arguments of other classes than their formals, of which the first isn't accepted; an element of a name
// that isn't there, assigned a new object.
static AT_FAULT: [Row; 4] = [
    Row {
        query: Given(
            KeyParts(Kind::CheckBody, "B", "f"),
            "0a0000000000000001030166000000080131",
        ),
        reads: &[METHOD_OF_B, MEMBERS_OF_B, NO_HEADER_A],
    },
    Row {
        query: Given(
            KeyParts(Kind::CheckBody, "M", "main"),
            "0a000000000000000203046d61696e00000013013003046d61696e00000017012f",
        ),
        reads: &[Given(
            KeyParts(Kind::Method, "M", "main"),
            "050100030000000b01000000161000000011020000001308000000120000000109000000140b000000170178",
        )],
    },
    Row {
        query: Given(
            KeyParts(Kind::CheckBody, "A", "h"),
            "0a00000000000000020301680000000400ce0301680000000b0139",
        ),
        reads: &[
            Given(
                KeyParts(Kind::Method, "A", "h"),
                "0501010168000000000000000001017a03015a0000000400000000000000000000000000000000070000000b0c00000009016700000000000000020e0000000d01430e00000012014200000008",
            ),
            HEADER_Z,
            Given(
                KeyParts(Kind::Header, "C", ""),
                "0401000000000000000000000000000000000000",
            ),
            BARE_HEADER_B,
            Given(
                KeyParts(Kind::Members, "A", ""),
                "0801000000000000000000000000000000020167014100000000000000020301420301410001680141000000000000000103015a00",
            ),
            Given(
                KeyParts(Kind::Supers, "C", ""),
                "07010000000000000001014300",
            ),
        ],
    },
    Row {
        query: Given(
            KeyParts(Kind::CheckBody, "A", "f"),
            "0a000000000000000103016600000006012f",
        ),
        reads: &[
            Given(
                KeyParts(Kind::Method, "A", "f"),
                "050101016600000000000000000000000000000000000000000000000001050000000a0178000000060800000008000000000e0000000b014108000000110000000000000010",
            ),
            Given(
                KeyParts(Kind::Members, "A", ""),
                "08010000000000000000000000000000000101660141000000000000000000",
            ),
            Given(
                KeyParts(Kind::Header, "A", ""),
                "04010000000000000000000000000000000000010166",
            ),
        ],
    },
];

#[test]
fn bodies_that_are_well(rt: HostRuntime) -> Result<(), Fail> {
    assert!(rt; are_right(rt.alloc(), &WELL)?);
    Ok(())
}

#[test]
fn bodies_without_a_runner(rt: HostRuntime) -> Result<(), Fail> {
    for row in &AT_FAULT {
        assert!(rt; is_checked(rt.alloc(), *row)?);
    }
    Ok(())
}

#[test]
fn bodies_at_fault(rt: HostRuntime) -> Result<(), Fail> {
    assert!(rt; are_right(rt.alloc(), &AT_FAULT)?);
    Ok(())
}

//! The queries that read texts and trees.

use crate::answers::{FILE_A, NO_HEADER_A, NO_HEADER_B, NO_TREE, are_right};
use answer_fixtures::KeyParts;
use item_ids::Kind;
use profiles::Profile;
use query_fixtures::{Row, is_lacking};
use recorder::ReadFault;
use run_fixtures::{Given, KeptReads};
use std::test::*;

const INDEX_OF_A: Given<'static> = Given(
    KeyParts(Kind::Index, "", ""),
    "03000000000000000101410161",
);

const NO_METHOD_G: Given<'static> = Given(KeyParts(Kind::Method, "A", "g"), "0500");

const TREE_OF_A: Given<'static> = Given(
    KeyParts(Kind::Tree, "a", ""),
    "0201000000000000000001014101014200000000000000010179000000000000000001010166000000000000000002016102000000040162010000000900000000000000000000000000000000080000000e000000010000000d",
);

const METHOD_OF_A: Given<'static> = Given(
    KeyParts(Kind::Method, "A", "f"),
    "0501010166000000000000000002016102000000040162010000000900000000000000000000000000000000080000000e000000010000000d",
);

// In order: a sentence, a text that is none, and a file that isn't there; classes of three files, of which one is no
// sentence, with names that repeat; the header of a class, of the first of two of a name, and of a class that isn't
// declared; a method, one that isn't there, and one of no class; the types of a method, and of none; last, what no project
// gives: a class that the index has in a file without tree. The same of the main class and of `main` stands with the
// queries of whole projects.
static TABLE: [Row; 13] = [
    Row {
        query: TREE_OF_A,
        reads: &[Given(
            KeyParts(Kind::Source, "a", ""),
            "0101000000000000004b636c617373204120657874656e64732042207b20696e7420793b207075626c696320696e74206628696e745b5d20612c20626f6f6c65616e206229207b2072657475726e20313b207d207d",
        )],
    },
    Row {
        query: NO_TREE,
        reads: &[Given(
            KeyParts(Kind::Source, "a", ""),
            "01010000000000000005636c617373",
        )],
    },
    Row {
        query: NO_TREE,
        reads: &[Given(KeyParts(Kind::Source, "a", ""), "0100")],
    },
    Row {
        query: Given(
            KeyParts(Kind::Index, "", ""),
            "030000000000000003014101610142016101430163",
        ),
        reads: &[
            Given(
                KeyParts(Kind::Files, "", ""),
                "000000000000000003016101620163",
            ),
            Given(
                KeyParts(Kind::Tree, "a", ""),
                "0201000000000000000003014200000000000000000000000000000000000141000000000000000000000000000000000001420000000000000000000000000000000000",
            ),
            Given(KeyParts(Kind::Tree, "b", ""), "0200"),
            Given(
                KeyParts(Kind::Tree, "c", ""),
                "02010000000000000000020143000000000000000000000000000000000001410000000000000000000000000000000000",
            ),
        ],
    },
    Row {
        query: Given(
            KeyParts(Kind::Header, "A", ""),
            "040100010142000000000000000101790000000000000000010166",
        ),
        reads: &[INDEX_OF_A, TREE_OF_A],
    },
    Row {
        query: Given(
            KeyParts(Kind::Header, "A", ""),
            "04010001014300000000000000000000000000000000",
        ),
        reads: &[
            INDEX_OF_A,
            Given(
                KeyParts(Kind::Tree, "a", ""),
                "0201000000000000000002014101014300000000000000000000000000000000014101014200000000000000010179000000000000000001010166000000000000000002016102000000040162010000000900000000000000000000000000000000080000000e000000010000000d",
            ),
        ],
    },
    Row {
        query: NO_HEADER_B,
        reads: &[INDEX_OF_A],
    },
    Row {
        query: METHOD_OF_A,
        reads: &[INDEX_OF_A, TREE_OF_A],
    },
    Row {
        query: NO_METHOD_G,
        reads: &[INDEX_OF_A, TREE_OF_A],
    },
    Row {
        query: Given(KeyParts(Kind::Method, "B", "f"), "0500"),
        reads: &[INDEX_OF_A],
    },
    Row {
        query: Given(KeyParts(Kind::Sig, "A", "f"), "06010000000000000002020100"),
        reads: &[METHOD_OF_A],
    },
    Row {
        query: Given(KeyParts(Kind::Sig, "A", "g"), "0600"),
        reads: &[NO_METHOD_G],
    },
    Row {
        query: NO_HEADER_A,
        reads: &[INDEX_OF_A, NO_TREE],
    },
];

#[test]
fn values_of_texts_and_trees(rt: HostRuntime) -> Result<(), Fail> {
    assert!(rt; are_right(rt.alloc(), &TABLE)?);
    Ok(())
}

// Runs whose last answer is missing: the query, and what is kept of its run.
static LACKING: [(KeyParts, KeptReads); 2] = [
    (
        KeyParts(Kind::Index, "", ""),
        KeptReads {
            reads: &[FILE_A],
            fault: Some(ReadFault::NotHeld),
            refused: Some(KeyParts(Kind::Tree, "a", "")),
        },
    ),
    (
        KeyParts(Kind::Header, "A", ""),
        KeptReads {
            reads: &[INDEX_OF_A],
            fault: Some(ReadFault::NotHeld),
            refused: Some(KeyParts(Kind::Tree, "a", "")),
        },
    ),
];

#[test]
fn trees_that_are_refused(rt: HostRuntime) -> Result<(), Fail> {
    for (query, kept) in &LACKING {
        assert!(rt; is_lacking(rt.alloc(), Profile::One, *query, *kept)?);
    }
    Ok(())
}

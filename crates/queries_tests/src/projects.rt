//! The queries of whole projects, by the runner of MiniJava and by a driver: each kind for classes and methods that are
//! there, for a class that isn't declared, and for a method that is missing.

use crate::answers::{
    ANSWER_OF_ONE, BODY_F, BODY_H, BODY_MAIN, CLASS_M, CLASS_Z, DIAGS_M, DIAGS_Z, FILES, HEADER_A,
    HEADER_M, HEADER_Z, INDEX_OF_ONE, MAIN_OF_ONE, MEMBERS_A, MEMBERS_M, MEMBERS_Z, METHOD_MAIN,
    SIG_F, SIG_MAIN, SUPERS_M, SUPERS_Z, TREE_OF_ONE, are_right,
};
use answer_fixtures::{KeyParts, Unfit};
use item_ids::Kind;
use profiles::Profile;
use query_fixtures::{Row, brings_each, is_answer, is_lacking};
use recorder::ReadFault;
use run_fixtures::{Given, KeptReads};
use std::alloc::Global;
use std::test::*;

// A main class that prints what a method of a second class returns, which has two methods.
const TEXT: &str =
    "class M { public static void main(String[] a) { System.out.println(new A().f()); } } class A { public int f() { return 1; } public int g() { return 2; } }";

const SOURCE: Given<'static> = Given(
    KeyParts(Kind::Source, "M.java", ""),
    "0101000000000000009a636c617373204d207b207075626c69632073746174696320766f6964206d61696e28537472696e675b5d206129207b2053797374656d2e6f75742e7072696e746c6e286e6577204128292e662829293b207d207d20636c6173732041207b207075626c696320696e7420662829207b2072657475726e20313b207d207075626c696320696e7420672829207b2072657475726e20323b207d207d",
);

const TREE: Given<'static> = Given(
    KeyParts(Kind::Tree, "M.java", ""),
    "020101014d030000000b07000000160e0000001101410166000000000000000000000000000000010141000000000000000000000000000000000201016600000000000000000000000000000000000000000000000000080000000700000001000000060101670000000000000000000000000000000000000000000000000008000000070000000200000006",
);

const INDEX: Given<'static> = Given(
    KeyParts(Kind::Index, "", ""),
    "0300000000000000020141064d2e6a617661014d064d2e6a617661",
);

const METHOD_F: Given<'static> = Given(
    KeyParts(Kind::Method, "A", "f"),
    "05010101660000000000000000000000000000000000000000000000000008000000070000000100000006",
);

const METHOD_G: Given<'static> = Given(
    KeyParts(Kind::Method, "A", "g"),
    "05010101670000000000000000000000000000000000000000000000000008000000070000000200000006",
);

const METHOD_H: Given<'static> = Given(KeyParts(Kind::Method, "A", "h"), "0500");

const METHOD_Z: Given<'static> = Given(KeyParts(Kind::Method, "Z", "f"), "0500");

const SIG_G: Given<'static> = Given(KeyParts(Kind::Sig, "A", "g"), "0601000000000000000000");

const SIG_H: Given<'static> = Given(KeyParts(Kind::Sig, "A", "h"), "0600");

const SIG_Z: Given<'static> = Given(KeyParts(Kind::Sig, "Z", "f"), "0600");

const SUPERS_A: Given<'static> = Given(
    KeyParts(Kind::Supers, "A", ""),
    "07010000000000000001014100",
);

const CLASS_A: Given<'static> = Given(KeyParts(Kind::CheckClass, "A", ""), "090000000000000000");

const BODY_G: Given<'static> = Given(KeyParts(Kind::CheckBody, "A", "g"), "0a0000000000000000");

const BODY_Z: Given<'static> = Given(KeyParts(Kind::CheckBody, "Z", "f"), "0a0000000000000000");

const DIAGS_A: Given<'static> = Given(KeyParts(Kind::Diags, "A", ""), "0b0000000000000000");

const ANSWER: Given<'static> = Given(
    KeyParts(Kind::Answer, "", ""),
    "0c0000000000000000000000000000000201410000000000000000000000000000000201660141000000000000000000016701410000000000000000000000000000000000014d000000000000000000000000000000000000000000000000",
);

// What is read of a class that an index leads to, in the project of two classes and in that of one.
const OF_A_TREE: &[Given<'static>] = &[INDEX, TREE];

const OF_THE_TREE: &[Given<'static>] = &[INDEX_OF_ONE, TREE_OF_ONE];

// The tree, the index, headers and methods, with the answers that they read.
static TEXTS: [Row; 10] = [
    Row {
        query: TREE,
        reads: &[SOURCE],
    },
    Row {
        query: INDEX,
        reads: &[FILES, TREE],
    },
    Row {
        query: HEADER_A,
        reads: OF_A_TREE,
    },
    Row {
        query: HEADER_M,
        reads: OF_A_TREE,
    },
    Row {
        query: HEADER_Z,
        reads: &[INDEX],
    },
    Row {
        query: METHOD_F,
        reads: OF_A_TREE,
    },
    Row {
        query: METHOD_G,
        reads: OF_A_TREE,
    },
    Row {
        query: METHOD_H,
        reads: OF_A_TREE,
    },
    Row {
        query: METHOD_MAIN,
        reads: OF_A_TREE,
    },
    Row {
        query: METHOD_Z,
        reads: &[INDEX],
    },
];

// Types of methods, chains and members of classes, with the answers that they read.
static MEMBERS: [Row; 11] = [
    Row {
        query: SIG_F,
        reads: &[METHOD_F],
    },
    Row {
        query: SIG_G,
        reads: &[METHOD_G],
    },
    Row {
        query: SIG_H,
        reads: &[METHOD_H],
    },
    Row {
        query: SIG_MAIN,
        reads: &[METHOD_MAIN],
    },
    Row {
        query: SIG_Z,
        reads: &[METHOD_Z],
    },
    Row {
        query: SUPERS_A,
        reads: &[INDEX, HEADER_A],
    },
    Row {
        query: SUPERS_M,
        reads: &[INDEX, HEADER_M],
    },
    Row {
        query: SUPERS_Z,
        reads: &[INDEX],
    },
    Row {
        query: MEMBERS_A,
        reads: &[SUPERS_A, HEADER_A, SIG_F, SIG_G],
    },
    Row {
        query: MEMBERS_M,
        reads: &[SUPERS_M, HEADER_M],
    },
    Row {
        query: MEMBERS_Z,
        reads: &[SUPERS_Z],
    },
];

// Checks of classes and of bodies, with the answers that they read.
static CHECKS: [Row; 8] = [
    Row {
        query: CLASS_A,
        reads: &[HEADER_A, SUPERS_A],
    },
    Row {
        query: CLASS_M,
        reads: &[HEADER_M, SUPERS_M],
    },
    Row {
        query: CLASS_Z,
        reads: &[HEADER_Z],
    },
    Row {
        query: BODY_F,
        reads: &[METHOD_F],
    },
    Row {
        query: BODY_G,
        reads: &[METHOD_G],
    },
    Row {
        query: BODY_H,
        reads: &[METHOD_H],
    },
    Row {
        query: BODY_MAIN,
        reads: &[METHOD_MAIN, HEADER_A, MEMBERS_A],
    },
    Row {
        query: BODY_Z,
        reads: &[METHOD_Z],
    },
];

// The diagnostics of classes, and the answer, with the answers that they read.
static DIAGS: [Row; 4] = [
    Row {
        query: DIAGS_A,
        reads: &[HEADER_A, CLASS_A, BODY_F, BODY_G],
    },
    Row {
        query: DIAGS_M,
        reads: &[HEADER_M, CLASS_M, BODY_MAIN],
    },
    Row {
        query: DIAGS_Z,
        reads: &[HEADER_Z],
    },
    Row {
        query: ANSWER,
        reads: &[FILES, TREE, INDEX, MEMBERS_A, DIAGS_A, MEMBERS_M, DIAGS_M],
    },
];

// A main class that prints a number.
const ONE_LITERAL: &str =
    "class M { public static void main(String[] a) { System.out.println(1); } }";

const NO_METHOD: Given<'static> = Given(KeyParts(Kind::Method, "M", "f"), "0500");

// Queries of its project, in which there is no other class.
static OF_ONE_LITERAL: [Row; 14] = [
    Row {
        query: TREE_OF_ONE,
        reads: &[Given(
            KeyParts(Kind::Source, "M.java", ""),
            "0101000000000000004a636c617373204d207b207075626c69632073746174696320766f6964206d61696e28537472696e675b5d206129207b2053797374656d2e6f75742e7072696e746c6e2831293b207d207d",
        )],
    },
    Row {
        query: INDEX_OF_ONE,
        reads: &[FILES, TREE_OF_ONE],
    },
    Row {
        query: HEADER_M,
        reads: OF_THE_TREE,
    },
    Row {
        query: MAIN_OF_ONE,
        reads: OF_THE_TREE,
    },
    Row {
        query: NO_METHOD,
        reads: OF_THE_TREE,
    },
    Row {
        query: SIG_MAIN,
        reads: &[MAIN_OF_ONE],
    },
    Row {
        query: Given(KeyParts(Kind::Sig, "M", "f"), "0600"),
        reads: &[NO_METHOD],
    },
    Row {
        query: SUPERS_M,
        reads: &[INDEX_OF_ONE, HEADER_M],
    },
    Row {
        query: MEMBERS_M,
        reads: &[SUPERS_M, HEADER_M],
    },
    Row {
        query: CLASS_M,
        reads: &[HEADER_M, SUPERS_M],
    },
    Row {
        query: BODY_MAIN,
        reads: &[MAIN_OF_ONE],
    },
    Row {
        query: Given(KeyParts(Kind::CheckBody, "M", "f"), "0a0000000000000000"),
        reads: &[NO_METHOD],
    },
    Row {
        query: DIAGS_M,
        reads: &[HEADER_M, CLASS_M, BODY_MAIN],
    },
    Row {
        query: ANSWER_OF_ONE,
        reads: &[FILES, TREE_OF_ONE, INDEX_OF_ONE, MEMBERS_M, DIAGS_M],
    },
];

/// The cases of the project of two classes, of each kind. One static of all of them would be dearer to prove.
fn rows_of_two() -> [&'static [Row<'static>]; 4] {
    [&TEXTS, &MEMBERS, &CHECKS, &DIAGS]
}

/// The cases of the project of one class.
fn rows_of_one() -> &'static [Row<'static>] {
    &OF_ONE_LITERAL
}

#[test]
fn runs_of_the_runner(rt: HostRuntime) -> Result<(), Fail> {
    for rows in &rows_of_two() {
        assert!(rt; are_right(rt.alloc(), rows)?);
    }
    assert!(rt; are_right(rt.alloc(), rows_of_one())?);
    Ok(())
}

// What is kept if the list lacks the members of the second class, which the body of `main` calls.
const LACKING_MEMBERS: KeptReads = KeptReads {
    reads: &[METHOD_MAIN, HEADER_A],
    fault: Some(ReadFault::NotHeld),
    refused: Some(KeyParts(Kind::Members, "A", "")),
};

/// Whether the case's run, over each beginning of its reads, is refused the read that comes next.
fn is_refused_each(alloc: Global, row: &Row) -> Result<bool, Unfit> {
    for (count, next) in row.reads.iter().enumerate() {
        let kept = KeptReads {
            reads: &row.reads[..count],
            fault: Some(ReadFault::NotHeld),
            refused: Some(next.0),
        };
        if !is_lacking(alloc, Profile::One, row.query.0, kept)? {
            return Ok(false);
        }
    }
    Ok(true)
}

/// Whether this is so of each of the cases.
fn are_refused_each(alloc: Global, rows: &[Row]) -> Result<bool, Unfit> {
    for row in rows {
        if !is_refused_each(alloc, row)? {
            return Ok(false);
        }
    }
    Ok(true)
}

#[test]
fn reads_that_are_refused(rt: HostRuntime) -> Result<(), Fail> {
    assert!(rt; is_lacking(rt.alloc(), Profile::One, BODY_MAIN.0, LACKING_MEMBERS)?);
    for rows in &rows_of_two() {
        assert!(rt; are_refused_each(rt.alloc(), rows)?);
    }
    assert!(rt; are_refused_each(rt.alloc(), rows_of_one())?);
    Ok(())
}

#[test]
fn results_of_the_driver(rt: HostRuntime) -> Result<(), Fail> {
    for rows in &rows_of_two() {
        assert!(rt; brings_each(rt.alloc(), TEXT, rows)?);
    }
    assert!(rt; brings_each(rt.alloc(), ONE_LITERAL, rows_of_one())?);
    Ok(())
}

#[test]
fn answers_of_the_driver(rt: HostRuntime) -> Result<(), Fail> {
    assert!(rt; is_answer(rt.alloc(), TEXT, ANSWER.1)?);
    Ok(())
}

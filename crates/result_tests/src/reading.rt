use answer_fixtures::KeyParts;
use item_ids::Kind;
use recorder::ReadFault;
use run_fixtures::{
    Ask, Given, KeptReads, answers_after, count_after, has_read_copy, is_copy_of, keeps_after,
};
use std::test::*;

const A: KeyParts = KeyParts(Kind::Source, "a", "");

const B: KeyParts = KeyParts(Kind::Source, "b", "");

const MISSING: KeyParts = KeyParts(Kind::Source, "c", "");

const FIRST: Given = Given(A, "0101000000000000000141");

const SECOND: Given = Given(B, "0100");

// What the recorder's reader answers.
const ANSWERS: &[Given] = &[FIRST, SECOND];

// Both keys, each again and again.
const REPEATED: &[Ask] = &[Ask::Again(B), Ask::Again(A), Ask::Again(B), Ask::Again(A)];

// A refused read, whose fault is the answer from then on, also for a key that was read.
const REFUSED: &[Ask] = &[
    Ask::Answered(A),
    Ask::NotHeld(MISSING),
    Ask::NotHeld(B),
    Ask::GivesUp(A),
];

/// What a recorder is asked, what it keeps then, and how often its reader was asked.
struct Row {
    asks: &'static [Ask<'static>],
    kept: KeptReads<'static>,
    count: u64,
}

// A new recorder; the reader is asked once for each key; it isn't asked after a refused read.
const TABLE: &[Row] = &[
    Row {
        asks: &[],
        kept: KeptReads {
            reads: &[],
            fault: None,
            refused: None,
        },
        count: 0,
    },
    Row {
        asks: REPEATED,
        kept: KeptReads {
            reads: &[SECOND, FIRST],
            fault: None,
            refused: None,
        },
        count: 2,
    },
    Row {
        asks: REFUSED,
        kept: KeptReads {
            reads: &[FIRST],
            fault: Some(ReadFault::NotHeld),
            refused: Some(MISSING),
        },
        count: 2,
    },
];

#[test]
fn what_is_kept(rt: HostRuntime) -> Result<(), Fail> {
    for row in TABLE {
        assert!(rt; keeps_after(rt.alloc(), ANSWERS, row.asks, row.kept)?);
    }
    Ok(())
}

#[test]
fn what_the_reader_was_asked(rt: HostRuntime) -> Result<(), Fail> {
    for row in TABLE {
        assert!(rt; count_after(rt.alloc(), ANSWERS, row.asks)? == row.count);
    }
    Ok(())
}

// It answers still.
#[test]
fn reader_after_a_refused_read(rt: HostRuntime) -> Result<(), Fail> {
    assert!(rt; answers_after(rt.alloc(), ANSWERS, REFUSED, B)?);
    Ok(())
}

#[test]
fn a_read_and_its_copy(rt: HostRuntime) -> Result<(), Fail> {
    assert!(rt; is_copy_of(rt.alloc(), FIRST, A)?);
    assert!(rt; !is_copy_of(rt.alloc(), FIRST, B)?);
    Ok(())
}

#[test]
fn a_copy_has_key_and_answer(rt: HostRuntime) -> Result<(), Fail> {
    assert!(rt; has_read_copy(rt.alloc(), FIRST)?);
    Ok(())
}

use answer_fixtures::{Unfit, bytes_of, is_printed, is_spelling, is_tight, refusal_of, spells};
use item_ids::Kind;
use result_bytes::Refusal;
use std::alloc::AllocError;
use std::test::*;

// What spells a value. The project of the first cases is the file M.java with the main class M, whose statement prints
// 1.
const SPELLINGS: &[(Kind, &str)] = &[
    (Kind::Files, "000000000000000001064d2e6a617661"),
    (Kind::Source, "0100"),
    (Kind::Source, "01010000000000000003000aff"),
    (
        Kind::Tree,
        "020101014d030000000b0800000011000000010000000000000000",
    ),
    (Kind::Tree, "0200"),
    (Kind::Index, "030000000000000001014d064d2e6a617661"),
    (Kind::Header, "0401010000000000000000000000000000000000"),
    (Kind::Method, "050100030000000b080000001100000001"),
    (Kind::Sig, "06010000000000000003000103014102"),
    (Kind::Supers, "07010000000000000001014d00"),
    (Kind::Supers, "07010000000000000001014d01014e"),
    (Kind::Supers, "07010000000000000001014d02014d"),
    (
        Kind::Members,
        "08010000000000000001017801410000000000000000010166014100000000000000020003014102",
    ),
    (Kind::CheckClass, "0900000000000000020000ca020000000100cd"),
    (Kind::CheckBody, "0a0000000000000001030166000000080131"),
    (Kind::Diags, "0b0000000000000000"),
    (
        Kind::Answer,
        "0c00000000000000000000000000000001014d000000000000000000000000000000000000000000000000",
    ),
];

// What spells nothing, and why.
const REFUSALS: &[(Kind, &str, Refusal)] = &[
    (Kind::Files, "", Refusal::Short),
    (Kind::CheckClass, "09", Refusal::Short),
    (Kind::CheckClass, "09ffffffffffffffff", Refusal::Short),
    (Kind::CheckClass, "09000000000000000000", Refusal::Trailing),
    (Kind::Supers, "0702", Refusal::NotCanonical(1)),
    (Kind::Supers, "090000000000000000", Refusal::WrongKind),
    (
        Kind::Index,
        "0300000000000000020142064d2e6a6176610141064d2e6a617661",
        Refusal::NotCanonical(18),
    ),
    (
        Kind::Index,
        "0300000000000000020141064d2e6a6176610141064d2e6a617661",
        Refusal::NotCanonical(18),
    ),
    // No file, too many files, and a file that stands there twice.
    (Kind::Files, "000000000000000000", Refusal::NotCanonical(1)),
    (Kind::Files, "000000000000001001", Refusal::NotCanonical(1)),
    (
        Kind::Files,
        "000000000000000003014101420141",
        Refusal::NotCanonical(13),
    ),
    // A name of no bytes, and one that isn't UTF-8.
    (
        Kind::Files,
        "00000000000000000100",
        Refusal::NotCanonical(9),
    ),
    (
        Kind::Files,
        "00000000000000000101ff",
        Refusal::NotCanonical(9),
    ),
    // Unknown tags of a type, a statement, an expression and the end of a chain.
    (
        Kind::Sig,
        "0601000000000000000004",
        Refusal::NotCanonical(10),
    ),
    (Kind::Method, "05010006", Refusal::NotCanonical(3)),
    (Kind::Method, "050100030000000b11", Refusal::NotCanonical(8)),
    (
        Kind::Supers,
        "0701000000000000000003",
        Refusal::NotCanonical(10),
    ),
    // A literal over 2147483648.
    (
        Kind::Method,
        "050100030000000b080000001180000001",
        Refusal::NotCanonical(13),
    ),
    // A code that isn't one, a place of the project in a class, and diagnostics that don't ascend.
    (
        Kind::Diags,
        "0b0000000000000001000069",
        Refusal::NotCanonical(10),
    ),
    (
        Kind::Diags,
        "0b000000000000000104",
        Refusal::NotCanonical(9),
    ),
    (
        Kind::Diags,
        "0b00000000000000020000ca0000c9",
        Refusal::NotCanonical(12),
    ),
    // Diagnostics of the project that don't ascend, and classes that don't.
    (
        Kind::Answer,
        "0c00000000000000020101610065000066",
        Refusal::NotCanonical(14),
    ),
    (
        Kind::Answer,
        "0c0000000000000000000000000000000201420000000000000000000000000000000000000000000000000141000000000000000000000000000000000000000000000000",
        Refusal::NotCanonical(43),
    ),
    // The statement of `main` as a method of a class.
    (
        Kind::Tree,
        "0201000000000000000001014100000000000000000000000000000000010003",
        Refusal::NotCanonical(30),
    ),
];

// A method f with every form of type, statement and expression, and a class A that has it.
pub const EVERY_PHRASE: &str =
    "0501010166030141000000000000000101610200000004000000000000000101620100000009000000000000000b00000000070000000000000002030000000708000000070000000500000000070000000000000000010000000709000000070300000007080000000700000005030000000708000000070000000502000000070a0000000703000000070400000007080000000700000005080000000700000005030000000706000000070b000000070178040000000701780000000307000000070c00000007016d0000000000000002080000000700000005090000000705000000070178000000030d0000000708000000070000000505000000070b00000007017808000000070000000503000000070f0000000710000000070e0000000701410300000007000000000708000000070000000508000000070000000503000000070100000007080000000700000005080000000700000005030000000702000000070800000007000000050800000007000000050300000007030000000708000000070000000508000000070000000508000000070000000500000063";

pub const CLASS_OF_EVERY_PHRASE: &str =
    "0201000000000000000001014101014200000000000000010179000000000000000001010166030141000000000000000101610200000004000000000000000101620100000009000000000000000b00000000070000000000000002030000000708000000070000000500000000070000000000000000010000000709000000070300000007080000000700000005030000000708000000070000000502000000070a0000000703000000070400000007080000000700000005080000000700000005030000000706000000070b000000070178040000000701780000000307000000070c00000007016d0000000000000002080000000700000005090000000705000000070178000000030d0000000708000000070000000505000000070b00000007017808000000070000000503000000070f0000000710000000070e0000000701410300000007000000000708000000070000000508000000070000000503000000070100000007080000000700000005080000000700000005030000000702000000070800000007000000050800000007000000050300000007030000000708000000070000000508000000070000000508000000070000000500000063";

const EVERY_PHRASES: &[(Kind, &str)] = &[
    (Kind::Method, EVERY_PHRASE),
    (Kind::Tree, CLASS_OF_EVERY_PHRASE),
];

// The answers of example projects: their bytes, and the text that is printed for them.
pub const ANSWERS: &[(&str, &str)] = &[
    // one-literal, and all that answer as it does
    (
        "0c00000000000000000000000000000001014d000000000000000000000000000000000000000000000000",
        "class M\n",
    ),
    ("0c00000000000000010000660000000000000000", "E102 project\n"),
    // body-edit
    (
        "0c0000000000000000000000000000000201410000000000000000000000000000000201660141000000000000000000016701410000000000000000000000000000000000014d000000000000000000000000000000000000000000000000",
        "class A\n  method f(): int from A\n  method g(): int from A\nclass M\n",
    ),
    // self-extends
    (
        "0c0000000000000000000000000000000201410000000000000000000000000000000000000000000000010000ca014d000000000000000000000000000000000000000000000000",
        "class A\n  E202 class\nclass M\n",
    ),
    // extends-cycle
    (
        "0c0000000000000000000000000000000401420000000000000001016b014300000000000000000000000000000000010000ca01430000000000000001016b014300000000000000000000000000000000010000ca01440000000000000001016b014300000000000000000000000000000000010000ca014d000000000000000000000000000000000000000000000000",
        "class B\n  field k: int from C\n  E202 class\nclass C\n  field k: int from C\n  E202 class\nclass D\n  field k: int from C\n  E202 class\nclass M\n",
    ),
    // outer-phrase-silent
    (
        "0c00000000000000000000000000000001014d00000000000000000000000000000000000000000000000203046d61696e00000013013003046d61696e00000017012f",
        "class M\n  E304 in main at 19\n  E303 in main at 23\n",
    ),
    // override-mismatch
    (
        "0c000000000000000000000000000000030141000000000000000000000000000000010166014100000000000000010000000000000000000001420000000000000000000000000000000101660142000000000000000101000000000000000001020000000000cd014d000000000000000000000000000000000000000000000000",
        "class A\n  method f(int): int from A\nclass B\n  method f(boolean): int from B\n  E205 method 0\nclass M\n",
    ),
    (
        "0c0000000000000000000000000000000301410000000000000000000000000000000101670141000000000000000003014100000000000000000142000000000000000000000000000000010167014200000000000000000301420000000000000001020000000000cd014d000000000000000000000000000000000000000000000000",
        "class A\n  method g(): A from A\nclass B\n  method g(): B from B\n  E205 method 0\nclass M\n",
    ),
    // array-index
    (
        "0c000000000000000200006601064d2e6a61766100650000000000000000",
        "E102 project\nE101 file M.java\n",
    ),
    (
        "0c0000000000000000000000000000000201410000000000000001066c656e6774680141000000000000000001066c656e67746801410000000000000000000000000000000000014d000000000000000000000000000000000000000000000000",
        "class A\n  field length: int from A\n  method length(): int from A\nclass M\n",
    ),
    // class-vanishes
    (
        "0c00000000000000000000000000000003014100000000000000000000000000000000000000000000000001420000000000000001016101420301410000000000000001016601420000000000000000000000000000000000014d000000000000000000000000000000000000000000000000",
        "class A\nclass B\n  field a: A from B\n  method f(): int from B\nclass M\n",
    ),
    (
        "0c0000000000000000000000000000000201420000000000000001016101420301410000000000000001016601420000000000000000000000000000000002010000000000ce030166000000080131014d000000000000000000000000000000000000000000000000",
        "class B\n  field a: A from B\n  method f(): int from B\n  E206 field 0\n  E305 in f at 8\nclass M\n",
    ),
    // duplicates
    (
        "0c00000000000000010206622e6a617661000000010068000000000000000201410000000000000001017801410000000000000000000000000000000000014d000000000000000000000000000000000000000000000000",
        "E104 file b.java class 1\nclass A\n  field x: int from A\nclass M\n",
    ),
    (
        "0c00000000000000010106622e6a61766100670000000000000002014d000000000000000000000000000000000000000000000000014e000000000000000000000000000000000000000000000000",
        "E103 file b.java\nclass M\nclass N\n",
    ),
    (
        "0c000000000000000101086261642e6a61766100650000000000000001014d000000000000000000000000000000000000000000000000",
        "E101 file bad.java\nclass M\n",
    ),
    // shadowed-field
    (
        "0c000000000000000000000000000000030141000000000000000101780141000000000000000000000000000000000001420000000000000001017801420100000000000000000000000000000000014d000000000000000000000000000000000000000000000000",
        "class A\n  field x: int from A\nclass B\n  field x: boolean from B\nclass M\n",
    ),
    // literals-and-comments
    (
        "0c00000000000000000000000000000001014d00000000000000000000000000000000000000000000000103046d61696e00000011013b",
        "class M\n  E315 in main at 17\n",
    ),
    // results-emptied
    (
        "0c00000000000000000000000000000001014d00000000000000000000000000000000000000000000000103046d61696e0000000b013d",
        "class M\n  E317 in main at 11\n",
    ),
    // factorial
    (
        "0c0000000000000000000000000000000203466163000000000000000000000000000000010a436f6d707574654661630346616300000000000000010000000000000000000009466163746f7269616c000000000000000000000000000000000000000000000000",
        "class Fac\n  method ComputeFac(int): int from Fac\nclass Factorial\n",
    ),
];

#[test]
fn spellings(rt: HostRuntime) -> Result<(), Fail> {
    for (kind, digits) in SPELLINGS.iter().chain(EVERY_PHRASES) {
        assert!(rt; is_spelling(rt.alloc(), *kind, digits)?, "{digits}");
    }
    Ok(())
}

// Whether the bytes are refused so.
fn is_refused(rt: HostRuntime, kind: Kind, digits: &str, want: Refusal) -> Result<bool, Unfit> {
    let bytes = bytes_of(rt.alloc(), digits)?;
    Ok(refusal_of(rt.alloc(), kind, &bytes) == Some(want))
}

#[test]
fn refusals(rt: HostRuntime) -> Result<(), Fail> {
    for (kind, digits, refusal) in REFUSALS {
        assert!(rt; is_refused(rt, *kind, digits, *refusal)?, "{digits}");
    }
    Ok(())
}

// The bytes were made from the text that is printed for each example, by another program.
#[test]
fn answers(rt: HostRuntime) -> Result<(), Fail> {
    for (digits, text) in ANSWERS {
        assert!(rt; is_spelling(rt.alloc(), Kind::Answer, digits)?, "{digits}");
        assert!(rt; is_printed(rt.alloc(), digits, text)?, "{digits}");
    }
    Ok(())
}

// No byte of a tree can be another one without a refusal or another value.
#[test]
fn each_byte_of_a_tree(rt: HostRuntime) -> Result<(), Fail> {
    for (kind, digits) in EVERY_PHRASES {
        assert!(rt; is_tight(rt.alloc(), *kind, digits)?, "{kind:?}");
    }
    Ok(())
}

// The bytes of a main class whose statement prints 1 behind so many `!`.
fn negated_statement(rt: HostRuntime, levels: usize) -> Result<Vec<u8>, AllocError> {
    let mut bytes = [0x05, 0x01, 0x00, 0x03, 0, 0, 0, 0x0b].to_vec(rt.alloc())?;
    for _ in 0..levels {
        bytes.extend_from_slice(&[0x0f, 0, 0, 0, 1])?;
    }
    bytes.extend_from_slice(&[0x08, 0, 0, 0, 1, 0, 0, 0, 1])?;
    Ok(bytes)
}

#[test]
fn deepest_tree(rt: HostRuntime) -> Result<(), Fail> {
    let deepest = negated_statement(rt, 498)?;
    assert!(rt; spells(rt.alloc(), Kind::Method, &deepest)?);
    Ok(())
}

#[test]
fn tree_that_is_too_deep(rt: HostRuntime) -> Result<(), Fail> {
    let deeper = negated_statement(rt, 499)?;
    let refusal = refusal_of(rt.alloc(), Kind::Method, &deeper);
    assert!(rt; refusal == Some(Refusal::NotCanonical(2503)));
    Ok(())
}

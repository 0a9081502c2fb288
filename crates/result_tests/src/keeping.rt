use answer_fixtures::KeyParts;
use fingerprint::SealedFault;
use item_ids::Kind;
use recorder::{ReadFault, RunFault};
use result_bytes::Refusal;
use run_fixtures::{Given, are_apart, are_same, holds};
use std::fmt::Display;
use std::test::*;

const FULL: Given = Given(KeyParts(Kind::Source, "a", ""), "0101000000000000000141");

const EMPTY: Given = Given(KeyParts(Kind::Source, "b", ""), "01010000000000000000");

const MISSING: Given = Given(KeyParts(Kind::Source, "c", ""), "0100");

#[test]
fn same_results(rt: HostRuntime) -> Result<(), Fail> {
    assert!(rt; are_same(rt.alloc(), FULL, FULL)?);
    assert!(rt; are_apart(rt.alloc(), FULL, EMPTY)?);
    Ok(())
}

#[test]
fn answers_found_by_key(rt: HostRuntime) -> Result<(), Fail> {
    for given in [FULL, EMPTY, MISSING] {
        assert!(rt; holds(rt.alloc(), &[MISSING, EMPTY, FULL], given)?);
    }
    Ok(())
}

#[test]
fn answers_that_are_not_there(rt: HostRuntime) -> Result<(), Fail> {
    assert!(rt; !holds(rt.alloc(), &[MISSING, EMPTY], FULL)?);
    Ok(())
}

/// Whether the diagnostic is written so.
fn is_written<F: Display>(rt: HostRuntime, fault: &F, text: &str) -> Result<bool, Fail> {
    let written = format!(in rt.alloc(); "{fault}")?;
    Ok(written.as_str() == text)
}

const REFUSALS: &[(Refusal, &str)] = &[
    (Refusal::Short, "5.1 Short"),
    (Refusal::Trailing, "5.2 Trailing"),
    (Refusal::NotCanonical(17), "5.3 NotCanonical(17)"),
    (Refusal::WrongKind, "5.4 WrongKind"),
    (Refusal::OutOfMemory, "out of memory"),
];

const OPEN_FAULTS: &[(SealedFault, &str)] = &[
    (SealedFault::Refused(Refusal::Short), "5.1 Short"),
    (SealedFault::WrongPrint, "6.1 WrongPrint"),
];

const RUN_FAULTS: &[(RunFault, &str)] = &[
    (RunFault::Read(ReadFault::Stopped), "8.1 Read(7.1 Stopped)"),
    (
        RunFault::Read(ReadFault::OutOfMemory),
        "8.1 Read(7.2 OutOfMemory)",
    ),
    (RunFault::Read(ReadFault::NotHeld), "8.1 Read(7.3 NotHeld)"),
    (RunFault::OutOfMemory, "8.2 OutOfMemory"),
];

/// Whether all of them are written so.
fn are_written<F: Display>(rt: HostRuntime, table: &[(F, &str)]) -> Result<bool, Fail> {
    for (fault, text) in table {
        if !is_written(rt, fault, text)? {
            return Ok(false);
        }
    }
    Ok(true)
}

#[test]
fn texts_of_faults(rt: HostRuntime) -> Result<(), Fail> {
    assert!(rt; are_written(rt, REFUSALS)?);
    assert!(rt; are_written(rt, OPEN_FAULTS)?);
    assert!(rt; are_written(rt, RUN_FAULTS)?);
    Ok(())
}

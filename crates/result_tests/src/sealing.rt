use answer_fixtures::{is_opened, is_print, is_sealed, is_sealed_beside, open_fault, sealed_of};
use fingerprint::{Print, SealedFault};
use item_ids::Kind;
use result_bytes::Refusal;
use std::test::*;

// The header of a main class without anything, and the SHA-256 of its bytes by another program.
const DIGITS: &str = "0401010000000000000000000000000000000000";

const BYTES: &[u8] = &[
    0x04, 0x01, 0x01, 0, 0, 0, 0, 0, 0, 0, 0, 0, 0, 0, 0, 0, 0, 0, 0, 0,
];

const PRINT: &str = "5603f464e62d0ee9b83adcef05c37be471164ec3a036663119d6551a2fdd60c7";

#[test]
fn a_value_is_sealed(rt: HostRuntime) -> Result<(), Fail> {
    assert!(rt; is_sealed(rt.alloc(), Kind::Header, DIGITS, PRINT)?);
    Ok(())
}

// The superclasses of M, which has none.
const SUPERS: &str = "07010000000000000001014d00";

#[test]
fn a_value_is_sealed_beside_a_known_result(rt: HostRuntime) -> Result<(), Fail> {
    let alloc = rt.alloc();
    let same = sealed_of(alloc, Kind::Header, DIGITS)?;
    assert!(rt; is_sealed_beside(alloc, Some(&same), Kind::Header, DIGITS, PRINT)?);
    let other = sealed_of(alloc, Kind::Supers, SUPERS)?;
    assert!(rt; is_sealed_beside(alloc, Some(&other), Kind::Header, DIGITS, PRINT)?);
    Ok(())
}

#[test]
fn bytes_have_a_print(rt: HostRuntime) -> Result<(), Fail> {
    assert!(rt; is_print(rt.alloc(), Print::of(BYTES), PRINT)?);
    Ok(())
}

#[test]
fn sealed_bytes_are_opened(rt: HostRuntime) -> Result<(), Fail> {
    assert!(rt; is_opened(rt.alloc(), Kind::Header, BYTES, Print::of(BYTES))?);
    Ok(())
}

// Kinds, fingerprints and why the header's bytes aren't opened so.
const FAULTS: &[(Kind, SealedFault)] = &[
    (Kind::Header, SealedFault::WrongPrint),
    (Kind::Supers, SealedFault::Refused(Refusal::WrongKind)),
];

#[test]
fn other_prints_and_bytes_are_refused(rt: HostRuntime) -> Result<(), Fail> {
    let print = Print::of(b"".as_slice());
    for (kind, fault) in FAULTS {
        assert!(rt; open_fault(rt.alloc(), *kind, BYTES, print)? == Some(*fault));
    }
    Ok(())
}

use byte_readers::{
    Breach, NameFormat, ReadError, put_eight, put_four, put_list, put_option, put_two, read_byte,
    read_eight, read_four, read_list, read_option, read_two,
};
use ordered_names::Name;
use std::alloc::AllocError;
use std::test::*;

// 202 in two bytes, 11 in four bytes, 1 in eight bytes.
const NUMBERS: [u8; 14] = [0x00, 0xca, 0, 0, 0, 0x0b, 0, 0, 0, 0, 0, 0, 0, 1];

// Two names, `M.java` and `B`.
const NAMES: [u8; 17] = *b"\x00\x00\x00\x00\x00\x00\x00\x02\x06M.java\x01B";

// No name, and the name `A`.
const OPTIONS: [u8; 4] = [0x00, 0x01, 0x01, 0x41];

fn written_numbers(rt: HostRuntime) -> Result<Vec<u8>, AllocError> {
    let mut out = Vec::new(rt.alloc());
    put_two(&mut out, 202)?;
    put_four(&mut out, 11)?;
    put_eight(&mut out, 1)?;
    Ok(out)
}

#[test]
fn numbers_are_written(rt: HostRuntime) -> Result<(), Fail> {
    assert_eq!(rt; written_numbers(rt)?.as_slice(), NUMBERS.as_slice());
    Ok(())
}

fn is_end(bytes: &[u8]) -> bool {
    matches!(read_byte(bytes), Err(ReadError::Breach(Breach::Short)))
}

fn is_one(bytes: &[u8]) -> bool {
    match read_eight(bytes) {
        Ok((number, rest)) => number == 1 && is_end(rest),
        Err(_) => false,
    }
}

fn is_eleven(bytes: &[u8]) -> bool {
    match read_four(bytes) {
        Ok((number, rest)) => number == 11 && is_one(rest),
        Err(_) => false,
    }
}

fn are_numbers(bytes: &[u8]) -> bool {
    match read_two(bytes) {
        Ok((number, rest)) => number == 202 && is_eleven(rest),
        Err(_) => false,
    }
}

#[test]
fn numbers_are_read(rt: HostRuntime) {
    assert!(rt; are_numbers(&NUMBERS));
}

// Whether there are so many names, which are written as they were read.
fn are_names(rt: HostRuntime, bytes: &[u8], count: usize) -> Result<bool, AllocError> {
    let mut out = Vec::new(rt.alloc());
    match read_list::<NameFormat>(rt.alloc(), bytes) {
        Ok((names, rest)) => {
            put_list::<NameFormat>(&mut out, &names)?;
            Ok(rest.is_empty() && names.len() == count && out.as_slice() == bytes)
        }
        Err(_) => Ok(false),
    }
}

#[test]
fn lists_of_names(rt: HostRuntime) -> Result<(), Fail> {
    assert!(rt; are_names(rt, &NAMES, 2)?);
    Ok(())
}

#[test]
fn a_list_that_is_too_short(rt: HostRuntime) {
    let short = read_list::<NameFormat>(rt.alloc(), &[0xff; 8]);
    assert!(rt; matches!(short, Err(ReadError::Breach(Breach::Short))));
}

fn written_options(rt: HostRuntime) -> Result<Vec<u8>, AllocError> {
    let mut out = Vec::new(rt.alloc());
    put_option::<NameFormat>(&mut out, &None)?;
    let there = Some(Name::new(rt.alloc(), "A")?);
    put_option::<NameFormat>(&mut out, &there)?;
    Ok(out)
}

#[test]
fn names_that_may_be_missing(rt: HostRuntime) -> Result<(), Fail> {
    assert_eq!(rt; written_options(rt)?.as_slice(), OPTIONS.as_slice());
    Ok(())
}

// Whether this is the name, or there is none if it is empty.
fn is_named(name: &Option<Name>, want: &str) -> bool {
    match name {
        None => want.is_empty(),
        Some(name) => name.as_str() == want,
    }
}

// Whether there is just this name, or none if it is empty.
fn is_option(rt: HostRuntime, bytes: &[u8], want: &str) -> bool {
    match read_option::<NameFormat>(rt.alloc(), bytes) {
        Ok((name, rest)) => rest.is_empty() && is_named(&name, want),
        Err(_) => false,
    }
}

#[test]
fn missing_names_are_read(rt: HostRuntime) {
    assert!(rt; is_option(rt, &OPTIONS[..1], ""));
    assert!(rt; is_option(rt, &OPTIONS[1..], "A"));
}

#[test]
fn an_unknown_tag(rt: HostRuntime) {
    let unknown = read_option::<NameFormat>(rt.alloc(), &[0x02]);
    assert!(rt; matches!(unknown, Err(ReadError::Breach(Breach::NotCanonical(1)))));
}

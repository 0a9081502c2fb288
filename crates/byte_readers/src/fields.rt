//! Numbers, big endian.
ghost use Rattle.std.specs.Prelude.{◌≡◌, ◌++◌, ◌∷◌, List, ℕ, length, OnOk};
ghost use Rattle.byte_readers.specs.Spelling.{two, four, eight};
ghost use Rattle.byte_readers.specs.Reading.{Decodes, byte_at, two_at, four_at, eight_at};

use crate::breach::{Breach, ReadError};
use byteorder::{BigEndian, ByteOrder};
use std::alloc::AllocError;

/// What isn't canonical, from its first byte on.
pub fn not_canonical(bytes: &[u8]) -> ReadError
    ensures { result ≡ ReadError.Breach (Breach.NotCanonical (length bytes.now)) }
{
    ReadError::Breach(Breach::NotCanonical(bytes.len()))
}

/// One byte.
pub fn read_byte(bytes: &[u8]) -> Result<(u8, &[u8]), ReadError>
    ensures { Decodes (λ x. x) result (byte_at bytes.now) }
{
    match bytes {
        [] => Err(ReadError::Breach(Breach::Short)),
        [first, rest @ ..] => Ok((*first, rest)),
    }
}

/// A number of two bytes.
#[tactic(auto, unfolding(crate::specs::Reading::two_at), using(crate::proofs::Numbers::two_of))]
pub fn read_two(bytes: &[u8]) -> Result<(u16, &[u8]), ReadError>
    ensures { Decodes (λ x. x) result (two_at bytes.now) }
{
    if bytes.len() < 2 {
        return Err(ReadError::Breach(Breach::Short));
    }
    Ok((BigEndian::read_u16(bytes), &bytes[2..]))
}

/// A number of four bytes.
#[tactic(auto, unfolding(crate::specs::Reading::four_at), using(crate::proofs::Numbers::four_of))]
pub fn read_four(bytes: &[u8]) -> Result<(u32, &[u8]), ReadError>
    ensures { Decodes (λ x. x) result (four_at bytes.now) }
{
    if bytes.len() < 4 {
        return Err(ReadError::Breach(Breach::Short));
    }
    Ok((BigEndian::read_u32(bytes), &bytes[4..]))
}

/// A number of eight bytes.
#[tactic(auto, unfolding(crate::specs::Reading::eight_at), using(crate::proofs::Numbers::eight_of))]
pub fn read_eight(bytes: &[u8]) -> Result<(u64, &[u8]), ReadError>
    ensures { Decodes (λ x. x) result (eight_at bytes.now) }
{
    if bytes.len() < 8 {
        return Err(ReadError::Breach(Breach::Short));
    }
    Ok((BigEndian::read_u64(bytes), &bytes[8..]))
}

/// The bytes of a number.
#[tactic(auto, unfolding(crate::specs::Spelling::eight))]
pub fn eight_bytes(number: u64) -> [u8; 8]
    ensures { result ≡ eight number }
{
    let mut bytes = [0; 8];
    BigEndian::write_u64(&mut bytes, number);
    bytes
}

/// The bytes of a number below 2^32.
#[tactic(auto, unfolding(crate::specs::Spelling::four))]
pub fn four_bytes(number: u32) -> [u8; 4]
    ensures { result ≡ four number }
{
    let mut bytes = [0; 4];
    BigEndian::write_u32(&mut bytes, number);
    bytes
}

/// Writes a number of two bytes.
#[tactic(auto, unfolding(crate::specs::Spelling::two))]
pub fn put_two(out: &mut Vec<u8>, number: u16) -> Result<(), AllocError>
    ensures { OnOk result (out.new.items ≡ out.old.items ++ two number) }
{
    let mut bytes = [0; 2];
    BigEndian::write_u16(&mut bytes, number);
    out.extend_from_slice(&bytes)
}

/// Writes a number below 2^32 in four bytes.
#[tactic(auto, unfolding(crate::specs::Spelling::four, crate::specs::Spelling::eight))]
pub fn put_four(out: &mut Vec<u8>, number: usize) -> Result<(), AllocError>
    ensures { OnOk result (out.new.items ≡ out.old.items ++ four number) }
{
    out.extend_from_slice(&eight_bytes(number as u64)[4..])
}

/// Writes a number of eight bytes.
pub fn put_eight(out: &mut Vec<u8>, number: usize) -> Result<(), AllocError>
    ensures { OnOk result (out.new.items ≡ out.old.items ++ eight number) }
{
    out.extend_from_slice(&eight_bytes(number as u64))
}

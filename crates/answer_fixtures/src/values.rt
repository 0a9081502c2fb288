//! Values from the bytes that spell them, given as hexadecimal digits.
ghost use Rattle.std.specs.Prelude.{◌≡◌, ◌↔◌, ◌<◌, ℕ, length, IsTrue, IfOk, IfErr, MatchOption, Err};
ghost use Rattle.std.specs.Arc.{arc_value};
ghost use Rattle.result_bytes.specs.declared.value.Value.{Value};
ghost use Rattle.result_bytes.specs.Values.{canon, kind_of_value, decoding, IsDecodedUnlessMemory};
ghost use Rattle.answer_fixtures.specs.Telling.{Tell, Spell, IsSpelling, IsSpelledValue, IsPrintedAs, IsPrintOf, IsToldSpelling, IsTightness, AreSpellings, CountsTurns, AllCount, flipped};

use crate::unfit::Unfit;
use item_ids::Kind;
use mj_answer::render;
use result_bytes::{Refusal, Value, decode, encode};
use std::alloc::{AllocError, AllocFailed, Global};
use std::sync::Arc;

/// The bytes of hexadecimal digits.
pub fn bytes_of(alloc: Global, digits: &str) -> Result<Vec<u8>, Unfit>
    ensures { IfOk result (λ bytes. Tell digits.now bytes.items) }
{
    match hex::decode(alloc, digits) {
        Ok(bytes) => Ok(bytes),
        Err(_) => Err(Unfit),
    }
}

/// The value, shared.
pub(crate) fn share(alloc: Global, value: Value) -> Result<Arc<Value>, AllocError>
    ensures { IfOk result (λ shared. arc_value shared ≡ value) }
{
    Ok(Arc::new(alloc, value)?)
}

fn share_read(alloc: Global, value: Value) -> Result<Arc<Value>, Refusal>
    ensures found { IfOk result (λ shared. arc_value shared ≡ value) }
    ensures memory { IfErr result (λ refusal. refusal ≡ Refusal.OutOfMemory) }
{
    match share(alloc, value) {
        Ok(shared) => Ok(shared),
        Err(_) => Err(Refusal::OutOfMemory),
    }
}

/// The value of the kind that the bytes spell.
fn read(alloc: Global, kind: Kind, bytes: &[u8]) -> Result<Arc<Value>, Refusal>
    ensures found { IfOk result (λ shared. Spell kind bytes.now (arc_value shared)) }
    ensures only { (v : Value) → Spell kind bytes.now v
        → IfErr result (λ refusal. refusal ≡ Refusal.OutOfMemory) }
    ensures refused { IfErr result (λ refusal.
        IsDecodedUnlessMemory (Err refusal) (decoding kind bytes.now)) }
{
    match decode(alloc, kind, bytes) {
        Ok(value) => share_read(alloc, value),
        Err(refusal) => Err(refusal),
    }
}

/// The value of the kind that these digits spell.
pub fn value_of(alloc: Global, kind: Kind, digits: &str) -> Result<Value, Unfit>
    ensures kind { IfOk result (λ value. kind_of_value value ≡ kind) }
    ensures told { IfOk result (IsSpelledValue kind digits.now) }
{
    let bytes = bytes_of(alloc, digits)?;
    match decode(alloc, kind, bytes.as_slice()) {
        Ok(value) => Ok(value),
        Err(_) => Err(Unfit),
    }
}

/// The same, shared.
pub(crate) fn shared_of(alloc: Global, kind: Kind, digits: &str) -> Result<Arc<Value>, Unfit>
    ensures { IfOk result (λ shared. IsSpelledValue kind digits.now (arc_value shared)) }
{
    let value = value_of(alloc, kind, digits)?;
    Ok(share(alloc, value)?)
}

/// Whether the value's canonical bytes are these.
pub(crate) fn is_encoded(alloc: Global, value: &Value, want: &[u8]) -> Result<bool, AllocError>
    ensures { IfOk result (λ b. IsTrue b ↔ (want.now ≡ canon value.now)) }
{
    let bytes = encode(alloc, value)?;
    Ok(bytes.as_slice() == want)
}

/// Whether the bytes spell a value of the kind, and `want` is its spelling.
fn is_spelled_as(alloc: Global, kind: Kind, bytes: &[u8], want: &[u8]) -> Result<bool, Unfit>
    ensures { IfOk result (λ b. IsTrue b ↔ AreSpellings kind bytes.now want.now) }
{
    match read(alloc, kind, bytes) {
        Ok(value) => Ok(is_encoded(alloc, &value, want)?),
        Err(Refusal::OutOfMemory) => Err(Unfit),
        Err(_) => Ok(false),
    }
}

/// Whether the bytes spell a value of the kind, and are its spelling.
pub fn spells(alloc: Global, kind: Kind, bytes: &[u8]) -> Result<bool, Unfit>
    ensures { IfOk result (λ b. IsTrue b ↔ IsSpelling kind bytes.now) }
{
    is_spelled_as(alloc, kind, bytes, bytes)
}

/// Whether the digits spell a value of the kind.
pub fn is_spelling(alloc: Global, kind: Kind, digits: &str) -> Result<bool, Unfit>
    ensures { IfOk result (λ b. IsTrue b ↔ IsToldSpelling kind digits.now) }
{
    let bytes = bytes_of(alloc, digits)?;
    spells(alloc, kind, bytes.as_slice())
}

/// Why the bytes spell no value of the kind, or `None` if they spell one.
pub fn refusal_of(alloc: Global, kind: Kind, bytes: &[u8]) -> Option<Refusal>
    ensures { MatchOption result (IsSpelling kind bytes.now)
        (λ refusal. IsDecodedUnlessMemory (Err refusal) (decoding kind bytes.now)) }
{
    match read(alloc, kind, bytes) {
        Ok(_) => None,
        Err(refusal) => Some(refusal),
    }
}

/// Whether the value is an answer that is printed as this text.
fn is_text(alloc: Global, value: &Value, text: &str) -> Result<bool, AllocError>
    ensures { IfOk result (λ b. IsTrue b ↔ IsPrintedAs value.now text.now) }
{
    match value {
        Value::Answer(whole) => Ok(render(alloc, whole.answer())?.as_str() == text),
        _ => Ok(false),
    }
}

/// Whether the digits spell an answer that is printed as this text.
pub fn is_printed(alloc: Global, digits: &str, text: &str) -> Result<bool, Unfit>
    ensures { IfOk result (IsPrintOf digits.now text.now) }
{
    let value = shared_of(alloc, Kind::Answer, digits)?;
    Ok(is_text(alloc, &value, text)?)
}

/// The bytes with one byte changed.
fn flip_bits(alloc: Global, bytes: &[u8], at: usize, flip: u8) -> Result<Vec<u8>, AllocError>
    requires { at < length bytes.now }
    ensures { IfOk result (λ other. other.items ≡ flipped bytes.now at flip) }
{
    let mut other = bytes.to_vec(alloc)?;
    other[at] ^= flip;
    Ok(other)
}

/// Whether the value stays as it was if these bits of a byte are turned.
fn is_idle(alloc: Global, kind: Kind, bytes: &[u8], at: usize, flip: u8) -> Result<bool, Unfit>
    requires { at < length bytes.now }
    ensures { IfOk result (λ b. IsTrue b
        ↔ AreSpellings kind (flipped bytes.now at flip) bytes.now) }
{
    let other = flip_bits(alloc, bytes, at, flip)?;
    is_spelled_as(alloc, kind, other.as_slice(), bytes)
}

/// Whether another value, or none, is spelled if a byte's lowest bit is turned, its highest, or all of them.
fn counts(alloc: Global, kind: Kind, bytes: &[u8], at: usize) -> Result<bool, Unfit>
    requires { at < length bytes.now }
    ensures { IfOk result (λ b. IsTrue b ↔ CountsTurns kind bytes.now at) }
{
    Ok(
        !is_idle(alloc, kind, bytes, at, 0x01)?
            && !is_idle(alloc, kind, bytes, at, 0x80)?
            && !is_idle(alloc, kind, bytes, at, 0xff)?,
    )
}

/// Whether each byte counts.
fn all_count(alloc: Global, kind: Kind, bytes: &[u8]) -> Result<bool, Unfit>
    ensures { IfOk result (λ b. IsTrue b ↔ AllCount kind bytes.now) }
{
    for at in 0..bytes.len() {
        if !counts(alloc, kind, bytes, at)? {
            return Ok(false);
        }
    }
    Ok(true)
}

/// Whether each change of one byte that the digits spell makes another value, or none.
pub fn is_tight(alloc: Global, kind: Kind, digits: &str) -> Result<bool, Unfit>
    ensures { IfOk result (IsTightness kind digits.now) }
{
    let bytes = bytes_of(alloc, digits)?;
    all_count(alloc, kind, bytes.as_slice())
}

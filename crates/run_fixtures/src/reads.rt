//! Keys that were read, with their answers.
ghost use Rattle.std.specs.Prelude.{◌≡◌, ◌↔◌, IsTrue, IfOk};
ghost use Rattle.answer_fixtures.specs.Telling.{IsKeyOf, AreAlike};
ghost use Rattle.run_fixtures.specs.Reading.{IsReadOf, AreReadsOf};

use answer_fixtures::{KeyParts, Unfit, is_key, is_spelled, key_of, sealed_of};
use item_ids::keys_in_order;
use recorder::Read;
use std::alloc::Global;

/// A key, and the canonical bytes of its answer in hexadecimal digits.
#[derive(Clone, Copy, Debug)]
pub struct Given<'a>(pub KeyParts<'a>, pub &'a str);

/// Whether just this key was read, and so answered.
pub fn is_read(alloc: Global, read: &Read, given: Given) -> Result<bool, Unfit>
    ensures { IfOk result (λ b. IsTrue b ↔ IsReadOf given.entry read.now) }
{
    let Given(asked, digits) = given;
    Ok(is_key(read.key(), asked) && is_spelled(alloc, read.answer(), digits)?)
}

/// Whether just these keys were read, in this order, and so answered.
pub fn are_reads(alloc: Global, reads: &[Read], given: &[Given]) -> Result<bool, Unfit>
    ensures { IfOk result (λ b. IsTrue b ↔ AreReadsOf given.now reads.now) }
{
    if reads.len() != given.len() {
        return Ok(false);
    }
    for (at, one) in given.iter().enumerate() {
        if !is_read(alloc, &reads[at], *one)? {
            return Ok(false);
        }
    }
    Ok(true)
}

/// The read of the key.
fn read_of(alloc: Global, given: Given) -> Result<Read, Unfit>
    ensures { IfOk result (IsReadOf given.entry) }
{
    let Given(asked, digits) = given;
    let answer = sealed_of(alloc, asked.0, digits)?;
    Ok(Read::new(key_of(alloc, asked)?, answer))
}

/// A copy of the read of the key.
fn copy_of(alloc: Global, given: Given) -> Result<Read, Unfit>
    ensures { IfOk result (IsReadOf given.entry) }
{
    let read = read_of(alloc, given)?;
    Ok(read.copy(alloc)?)
}

/// Whether the read is of the key.
fn is_of(alloc: Global, read: &Read, asked: KeyParts) -> Result<bool, Unfit>
    ensures { IfOk result (λ b. IsTrue b ↔ IsKeyOf asked.entry read.now.key) }
{
    // Keys are equal if their kinds, classes and members are.
    keys_in_order();
    let key = key_of(alloc, asked)?;
    Ok(read.is_of(&key))
}

/// Whether a copy of the read is of this key.
pub fn is_copy_of(alloc: Global, given: Given, asked: KeyParts) -> Result<bool, Unfit>
    ensures { IfOk result (λ b. IsTrue b ↔ AreAlike given.entry.0 asked.entry) }
{
    let copy = copy_of(alloc, given)?;
    is_of(alloc, &copy, asked)
}

/// Whether a copy of the read has its key and its answer.
pub fn has_read_copy(alloc: Global, given: Given) -> Result<bool, Unfit>
    ensures { IfOk result (λ b. IsTrue b) }
{
    let copy = copy_of(alloc, given)?;
    is_read(alloc, &copy, given)
}

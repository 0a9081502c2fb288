//! Values from bytes.
ghost use Rattle.std.specs.Prelude.{◌≡◌, IfOk};
ghost use Rattle.byte_readers.specs.Reading.{Decodes};
ghost use Rattle.steps_values.specs.declared.value.Value.{Value};
ghost use Rattle.steps_values.specs.Values.{IsValue, canon, kind_of_value, content_at, decoding, refusal, IsDecodedUnlessMemory};

use crate::files::{TextFormat, read_file_names};
use crate::plan::PlanFormat;
use crate::refusal::Refusal;
use crate::value::Value;
use byte_readers::{Breach, ReadError, read_option};
use std::alloc::Global;
use steps_keys::Kind;

/// The value of a kind that the bytes spell, all of them.
pub fn decode(alloc: Global, kind: Kind, bytes: &[u8]) -> Result<Value, Refusal>
    // What is read is a value of the kind, spelled so.
    ensures found { IfOk result (λ v. IsValue v × (kind_of_value v ≡ kind) × (bytes.now ≡ canon v)) }
    // What is spelled so is read, unless memory runs out.
    ensures only { (v : Value) → IsValue v → kind_of_value v ≡ kind → bytes.now ≡ canon v
        → IsDecodedUnlessMemory result (Ok v) }
    // Which refusal it is.
    ensures exact { IsDecodedUnlessMemory result (decoding kind bytes.now) }
{
    read_value(alloc, kind, bytes)
}

#[tactic(auto, unfolding(crate::specs::Values::decoding))]
fn read_value(alloc: Global, kind: Kind, bytes: &[u8]) -> Result<Value, Refusal>
    ensures { IsDecodedUnlessMemory result (decoding kind bytes.now) }
{
    let [first, rest @ ..] = bytes else {
        return Err(Refusal::Short);
    };
    if *first != kind.number() {
        return Err(Refusal::WrongKind);
    }
    match read_content(alloc, kind, rest) {
        Ok((value, rest)) => {
            if !rest.is_empty() {
                return Err(Refusal::Trailing);
            }
            Ok(value)
        }
        Err(ReadError::Memory) => Err(Refusal::OutOfMemory),
        Err(ReadError::Breach(breach)) => Err(refusal(bytes.len(), breach)),
    }
}

/// Reads the bytes that follow the kind's number.
#[tactic(auto, unfolding(crate::specs::Values::content_at))]
fn read_content(alloc: Global, kind: Kind, bytes: &[u8]) -> Result<(Value, &[u8]), ReadError>
    ensures { Decodes (λ x. x) result (content_at kind bytes.now) }
{
    match kind {
        Kind::Files => {
            let (files, rest) = read_file_names(alloc, bytes)?;
            Ok((Value::Files(files), rest))
        }
        Kind::Source => {
            let (text, rest) = read_option::<TextFormat>(alloc, bytes)?;
            Ok((Value::Source(text), rest))
        }
        Kind::Plan => {
            let (plan, rest) = read_option::<PlanFormat>(alloc, bytes)?;
            Ok((Value::Plan(plan), rest))
        }
        Kind::Compile => {
            let (text, rest) = read_option::<TextFormat>(alloc, bytes)?;
            Ok((Value::Compile(text), rest))
        }
        Kind::Link => {
            let (text, rest) = read_option::<TextFormat>(alloc, bytes)?;
            Ok((Value::Link(text), rest))
        }
        Kind::Answer => {
            let (text, rest) = read_option::<TextFormat>(alloc, bytes)?;
            Ok((Value::Answer(text), rest))
        }
    }
}

/// A breach as a refusal, with the place of the item at fault.
fn refusal(len: usize, breach: Breach) -> Refusal
    ensures { result ≡ refusal len breach }
{
    match breach {
        Breach::Short => Refusal::Short,
        Breach::NotCanonical(left) => Refusal::NotCanonical(len.saturating_sub(left)),
    }
}

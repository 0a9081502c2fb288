//! Values from bytes.
ghost use Rattle.std.specs.Prelude.{◌≡◌, IfOk};
ghost use Rattle.byte_readers.specs.Reading.{Decodes};
ghost use Rattle.result_bytes.specs.declared.value.Value.{Value};
ghost use Rattle.result_bytes.specs.Values.{IsValue, canon, kind_of_value, content_at, decoding, refusal, IsDecodedUnlessMemory};

use crate::class::{HeaderFormat, SignatureFormat, SupersFormat};
use crate::files::{TextFormat, read_file_names, read_index};
use crate::refusal::Refusal;
use crate::value::Value;
use answer_bytes::{MembersFormat, read_answer, read_faults};
use byte_readers::{Breach, ReadError, read_option};
use item_ids::Kind;
use std::alloc::Global;
use tree_bytes::{BodyFormat, TreeFormat};

/// The value of a kind that the bytes spell, all of them.
pub fn decode(alloc: Global, kind: Kind, bytes: &[u8]) -> Result<Value, Refusal>
    // What is read is a value of the kind, spelled so.
    ensures found { IfOk result (λ v. IsValue v × (kind_of_value v ≡ kind) × (bytes.now ≡ canon v)) }
    // What is spelled so is read, unless memory runs out.
    ensures only { (v : Value) → IsValue v → kind_of_value v ≡ kind → bytes.now ≡ canon v
        → IsDecodedUnlessMemory result (Ok v) }
    // Which refusal it is.
    ensures exact { IsDecodedUnlessMemory result (decoding kind bytes.now) }
{
    read_value(alloc, kind, bytes)
}

#[tactic(auto, unfolding(crate::specs::Values::decoding))]
fn read_value(alloc: Global, kind: Kind, bytes: &[u8]) -> Result<Value, Refusal>
    ensures { IsDecodedUnlessMemory result (decoding kind bytes.now) }
{
    let [first, rest @ ..] = bytes else {
        return Err(Refusal::Short);
    };
    if *first != kind.number() {
        return Err(Refusal::WrongKind);
    }
    match read_content(alloc, kind, rest) {
        Ok((value, rest)) => {
            if !rest.is_empty() {
                return Err(Refusal::Trailing);
            }
            Ok(value)
        }
        Err(ReadError::Memory) => Err(Refusal::OutOfMemory),
        Err(ReadError::Breach(breach)) => Err(refusal(bytes.len(), breach)),
    }
}

/// Reads the bytes that follow the kind's number.
#[tactic(auto, unfolding(crate::specs::Values::content_at))]
fn read_content(alloc: Global, kind: Kind, bytes: &[u8]) -> Result<(Value, &[u8]), ReadError>
    ensures { Decodes (λ x. x) result (content_at kind bytes.now) }
{
    match kind {
        Kind::Files => {
            let (files, rest) = read_file_names(alloc, bytes)?;
            Ok((Value::Files(files), rest))
        }
        Kind::Source => {
            let (text, rest) = read_option::<TextFormat>(alloc, bytes)?;
            Ok((Value::Source(text), rest))
        }
        Kind::Tree => {
            let (tree, rest) = read_option::<TreeFormat>(alloc, bytes)?;
            Ok((Value::Tree(tree), rest))
        }
        Kind::Index => {
            let (index, rest) = read_index(alloc, bytes)?;
            Ok((Value::Index(index), rest))
        }
        Kind::Header => {
            let (header, rest) = read_option::<HeaderFormat>(alloc, bytes)?;
            Ok((Value::Header(header), rest))
        }
        Kind::Method => {
            let (body, rest) = read_option::<BodyFormat>(alloc, bytes)?;
            Ok((Value::Method(body), rest))
        }
        Kind::Sig => {
            let (signature, rest) = read_option::<SignatureFormat>(alloc, bytes)?;
            Ok((Value::Sig(signature), rest))
        }
        Kind::Supers => {
            let (chain, rest) = read_option::<SupersFormat>(alloc, bytes)?;
            Ok((Value::Supers(chain), rest))
        }
        Kind::Members => {
            let (members, rest) = read_option::<MembersFormat>(alloc, bytes)?;
            Ok((Value::Members(members), rest))
        }
        Kind::CheckClass => {
            let (faults, rest) = read_faults(alloc, bytes)?;
            Ok((Value::CheckClass(faults), rest))
        }
        Kind::CheckBody => {
            let (faults, rest) = read_faults(alloc, bytes)?;
            Ok((Value::CheckBody(faults), rest))
        }
        Kind::Diags => {
            let (faults, rest) = read_faults(alloc, bytes)?;
            Ok((Value::Diags(faults), rest))
        }
        Kind::Answer => {
            let (whole, rest) = read_answer(alloc, bytes)?;
            Ok((Value::Answer(whole), rest))
        }
    }
}

/// A breach as a refusal, with the place of the item at fault.
fn refusal(len: usize, breach: Breach) -> Refusal
    ensures { result ≡ refusal len breach }
{
    match breach {
        Breach::Short => Refusal::Short,
        Breach::NotCanonical(left) => Refusal::NotCanonical(len.saturating_sub(left)),
    }
}

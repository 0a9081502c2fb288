//! Sealed results, and fingerprints.
ghost use Rattle.std.specs.Prelude.{◌≡◌, ◌↔◌, IsTrue, IfOk, MatchOption, Err};
ghost use Rattle.std.specs.Arc.{arc_value};
ghost use Rattle.hex.specs.Hex.{encode_lower};
ghost use Rattle.result_bytes.specs.Values.{IsValue, canon, kind_of_value};
ghost use Rattle.fingerprint.specs.Opening.{IsOpened};
ghost use Rattle.fingerprint.specs.Prints.{print_of};
ghost use Rattle.answer_fixtures.specs.Telling.{Tell, IsSpelledValue, IsOpenable, IsSealedAs};

use crate::unfit::Unfit;
use crate::values::{bytes_of, value_of};
use fingerprint::{Print, Sealed, SealedFault, open_sealed, seal_or_share};
use item_ids::Kind;
use result_bytes::{Refusal, Value};
use std::alloc::{AllocError, AllocFailed, Global};
use std::sync::Arc;

/// The result of the kind that these digits spell.
pub fn sealed_of(alloc: Global, kind: Kind, digits: &str) -> Result<Arc<Sealed>, Unfit>
    ensures kind { IfOk result (λ answer. kind_of_value (arc_value answer) ≡ kind) }
    ensures told { IfOk result (λ answer. IsSpelledValue kind digits.now (arc_value answer)) }
{
    sealed_beside(alloc, None, kind, digits)
}

/// The result of the kind that these digits spell, sealed if this one is known.
fn sealed_beside(
    alloc: Global,
    known: Option<&Arc<Sealed>>,
    kind: Kind,
    digits: &str,
) -> Result<Arc<Sealed>, Unfit>
    ensures kind { IfOk result (λ answer. kind_of_value (arc_value answer) ≡ kind) }
    ensures told { IfOk result (λ answer. IsSpelledValue kind digits.now (arc_value answer)) }
{
    let value = value_of(alloc, kind, digits)?;
    Ok(seal_or_share(alloc, value, known)?)
}

/// Whether these digits spell the result.
pub fn is_spelled(alloc: Global, sealed: &Sealed, digits: &str) -> Result<bool, Unfit>
    ensures { IfOk result (λ b. IsTrue b ↔ Tell digits.now (canon sealed.now)) }
{
    let bytes = bytes_of(alloc, digits)?;
    Ok(sealed.bytes() == bytes.as_slice())
}

/// Whether the fingerprint has these digits.
pub fn is_print(alloc: Global, print: Print, digits: &str) -> Result<bool, AllocError>
    ensures { IfOk result (λ b. IsTrue b ↔ (encode_lower print.0 ≡ digits.now)) }
{
    Ok(print.text(alloc)?.as_str() == digits)
}

/// Whether what the digits spell is sealed with its kind and these bytes, and its fingerprint has these digits.
pub fn is_sealed(alloc: Global, kind: Kind, digits: &str, print: &str) -> Result<bool, Unfit>
    ensures { IfOk result (IsSealedAs kind digits.now print.now) }
{
    is_sealed_beside(alloc, None, kind, digits, print)
}

/// Whether it is so if this result is known.
pub fn is_sealed_beside(
    alloc: Global,
    known: Option<&Arc<Sealed>>,
    kind: Kind,
    digits: &str,
    print: &str,
) -> Result<bool, Unfit>
    ensures { IfOk result (IsSealedAs kind digits.now print.now) }
{
    let sealed = sealed_beside(alloc, known, kind, digits)?;
    let is_whole = sealed.value().kind() == kind && is_spelled(alloc, &sealed, digits)?;
    Ok(is_whole && is_print(alloc, sealed.print(), print)?)
}

/// Whether it is a result of the kind, with these bytes and this fingerprint.
fn is_result(
    alloc: Global,
    sealed: Sealed,
    kind: Kind,
    bytes: &[u8],
    print: Print,
) -> Result<bool, AllocError>
    ensures { IfOk result (λ b. IsTrue b
        ↔ ((bytes.now ≡ canon sealed) × (kind_of_value sealed ≡ kind) × (print.0 ≡ print_of sealed))) }
{
    let shared = Arc::new(alloc, sealed)?;
    Ok(shared.bytes() == bytes && shared.value().kind() == kind && shared.print() == print)
}

/// Whether the bytes and the fingerprint are opened as a result of the kind with these bytes and this fingerprint.
pub fn is_opened(alloc: Global, kind: Kind, bytes: &[u8], print: Print) -> Result<bool, Unfit>
    ensures { IfOk result (λ b. IsTrue b ↔ IsOpenable kind bytes.now print.0) }
{
    let copy = bytes.to_vec(alloc)?;
    match open_sealed(alloc, kind, copy, print) {
        Ok(sealed) => Ok(is_result(alloc, sealed, kind, bytes, print)?),
        Err(SealedFault::Refused(Refusal::OutOfMemory)) => Err(Unfit),
        Err(_) => Ok(false),
    }
}

/// Why the bytes and the fingerprint aren't opened, or `None` if they are.
pub fn open_fault(
    alloc: Global,
    kind: Kind,
    bytes: &[u8],
    print: Print,
) -> Result<Option<SealedFault>, AllocError>
    ensures { IfOk result (λ fault. MatchOption fault
        (IsOpenable kind bytes.now print.0)
        (λ why. IsOpened kind bytes.now print.0 (Err why))) }
{
    let copy = bytes.to_vec(alloc)?;
    Ok(open_sealed(alloc, kind, copy, print).err())
}

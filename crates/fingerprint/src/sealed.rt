//! Sealed results.
ghost use Rattle.std.specs.Prelude.{◌≡◌, ◌↔◌, IsTrue, IfOk};
ghost use Rattle.std.specs.Arc.{arc_value};
ghost use Rattle.result_bytes.specs.declared.value.Value.{Value};
ghost use Rattle.result_bytes.specs.Values.{IsValue, canon, kind_of_value};
ghost use Rattle.fingerprint.specs.Prints.{print_of};
ghost use Rattle.fingerprint.specs.Opening.{IsOpened, IsOkUnlessMemory};

use crate::print::Print;
use item_ids::Kind;
use result_bytes::{Refusal, Value, decode, encode, is_value, one_spelling};
use std::alloc::{AllocError, Global};
use std::marker::Model;
use std::sync::Arc;
use thiserror::Error;

/// A value with its canonical bytes and their fingerprint. Contracts see the value.
pub struct Sealed {
    value: Value,
    bytes: Vec<u8>,
    print: Print,
}

impl Drop for Sealed {
    fn drop(self) {
        let Sealed {
            value: _,
            bytes: _,
            print: _,
        } = self;
    }
}

impl Model for Sealed {
    ghost use Rattle.result_bytes.specs.declared.value.Value.{Value as Content};
    ghost use Rattle.result_bytes.specs.contracts.value.Value as value_contracts;

    ghost Value = { Content };

    ghost coded = { value_contracts.the_row.coded };

    ghost use Rattle.std.specs.Prelude.{◌≡◌};
    ghost use Rattle.result_bytes.specs.Values.{canon};
    ghost use Rattle.fingerprint.specs.Prints.{print_of};

    ghost view = { λ s. s.value };

    ghost invariant = { λ s. (s.bytes.items ≡ canon s.value) × (s.print.0 ≡ print_of s.value) };
}

/// Why bytes and a fingerprint are no sealed value of a kind.
#[derive(Clone, Copy, Debug, PartialEq, Eq, Error)]
pub enum SealedFault {
    /// The bytes are refused.
    #[error("{0}")]
    Refused(Refusal),
    /// The bytes spell a value, and the fingerprint is that of others.
    #[error("6.1 WrongPrint")]
    WrongPrint,
}

impl Sealed {
    /// The value, which keeps what its bytes demand.
    pub fn value(&self) -> &Value
        ensures value { result.now ≡ self.now }
        ensures kept { IsValue self.now }
    {
        // A value keeps in its type what its spelling demands.
        is_value(&self.value);
        &self.value
    }

    /// Its canonical bytes.
    pub fn bytes(&self) -> &[u8]
        ensures { result.now ≡ canon self.now }
    {
        self.bytes.as_slice()
    }

    /// The fingerprint of its canonical bytes.
    pub fn print(&self) -> Print
        ensures { result.0 ≡ print_of self.now }
    {
        self.print
    }

    /// Whether the other one is the same result, by their bytes.
    pub fn same_result(&self, other: &Sealed) -> bool
        ensures { IsTrue result ↔ (self.now ≡ other.now) }
    {
        // No spelling has two values, and both values keep what theirs demands.
        one_spelling();
        is_value(self.value());
        is_value(other.value());
        self.bytes() == other.bytes()
    }

    /// Whether the other one has the same fingerprint.
    pub fn same_print(&self, other: &Sealed) -> bool
        ensures { IsTrue result ↔ (print_of self.now ≡ print_of other.now) }
    {
        other.print() == self.print()
    }
}

/// The value with its bytes and fingerprint.
pub fn seal(alloc: Global, value: Value) -> Result<Sealed, AllocError>
    ensures sealed { IfOk result (λ sealed. sealed ≡ value) }
    ensures kept { IfOk result IsValue }
{
    // A value keeps in its type what its spelling demands.
    is_value(&value);
    let bytes = encode(alloc, &value)?;
    Ok(with_bytes(value, bytes))
}

/// The value with its bytes and fingerprint, to be shared. If a known result has the same bytes it is that, and nothing
/// is hashed.
pub fn seal_or_share(
    alloc: Global,
    value: Value,
    known: Option<&Arc<Sealed>>,
) -> Result<Arc<Sealed>, AllocError>
    ensures sealed { IfOk result (λ sealed. arc_value sealed ≡ value) }
    ensures kept { IfOk result (λ sealed. IsValue (arc_value sealed)) }
{
    // A value keeps in its type what its spelling demands, and no spelling has two values.
    one_spelling();
    is_value(&value);
    let bytes = encode(alloc, &value)?;
    if let Some(known) = known {
        is_value(known.value());
        if known.bytes() == bytes.as_slice() {
            return Ok(Arc::try_clone(known)?);
        }
    }
    Ok(Arc::new(alloc, with_bytes(value, bytes))?)
}

/// The value with its bytes, and with their fingerprint.
#[tactic(auto, unfolding(crate::specs::Prints::print_of))]
fn with_bytes(value: Value, bytes: Vec<u8>) -> Sealed
    requires { bytes.items ≡ canon value }
    ensures { result ≡ value }
{
    let print = Print::of(&bytes);
    Sealed {
        value,
        bytes,
        print,
    }
}

/// The value of a kind that the bytes spell, whose fingerprint is this one.
#[tactic(auto, unfolding(crate::specs::Prints::print_of))]
pub fn open_sealed(
    alloc: Global,
    kind: Kind,
    bytes: Vec<u8>,
    print: Print,
) -> Result<Sealed, SealedFault>
    // What is opened is a value of the kind, with these bytes and this fingerprint.
    ensures found { IfOk result (λ v. IsValue v × (kind_of_value v ≡ kind) × (bytes.items ≡ canon v)
        × (print.0 ≡ print_of v)) }
    // The bytes and the fingerprint of a value are opened, unless memory runs out.
    ensures only { (v : Value) → IsValue v → kind_of_value v ≡ kind → bytes.items ≡ canon v
        → print.0 ≡ print_of v
        → IsOkUnlessMemory result v }
    // Which fault it is.
    ensures cases { IsOpened kind bytes.items print.0 result }
{
    let value = match decode(alloc, kind, bytes.as_slice()) {
        Ok(value) => value,
        Err(refusal) => return Err(SealedFault::Refused(refusal)),
    };
    if Print::of(bytes.as_slice()) != print {
        return Err(SealedFault::WrongPrint);
    }
    Ok(Sealed {
        value,
        bytes,
        print,
    })
}

//! A client that answers each key with the key itself: it reads the key without its first byte, and puts that byte before
//! the answer.
ghost use Rattle.std.specs.Prelude.{◌≡◌, ◌∷◌, Err, map, OnOk, IfOk, ℕ};
ghost use Rattle.redgreen_rules.specs.Sessions.{IsFresh, last_of};
ghost use Rattle.redgreen_sessions.specs.Views.{session_of};
ghost use Rattle.redgreen_audit.specs.declared.fault.Fault.TheVariants.{Wrong};
ghost use Rattle.redgreen_audit.specs.declared.fault.RecordFault.{RecordFault};
ghost use Rattle.redgreen_audit.specs.Right.{IsRightChain};
ghost use Rattle.redgreen_example.specs.Echoes.{echo_of, IsEcho};

use redgreen_audit::{Answers, Client, Fault, Stop, audit};
use redgreen_sessions::{Bytes, Session};
use std::alloc::{AllocError, Global};

/// The client.
pub struct Echo {}

impl Drop for Echo {
    fn drop(self) {
        let Echo {} = self;
    }
}

/// The byte, followed by the bytes.
fn before(alloc: Global, first: u8, rest: &[u8]) -> Result<Bytes, AllocError>
    ensures { IfOk result (λ b. b ≡ first ∷ rest.now) }
{
    let mut bytes = Vec::new(alloc);
    bytes.push(first)?;
    bytes.extend_from_slice(rest)?;
    Bytes::copy_of(alloc, bytes.as_slice())
}

impl Client for Echo {
    ghost makes = { λ s run t. IsEcho run };

    fn run(&mut self, alloc: Global, key: &[u8], answers: &mut Answers<'_>) -> Result<Bytes, Stop> {
        let [first, rest @ ..] = key else {
            return match Bytes::copy_of(alloc, key) {
                Ok(none) => Ok(none),
                Err(_) => Err(Stop::OutOfMemory),
            };
        };
        match answers.read(alloc, rest) {
            Ok(Some(value)) => match before(alloc, *first, value) {
                Ok(bytes) => Ok(bytes),
                Err(_) => Err(Stop::OutOfMemory),
            },
            Ok(None) => Err(Stop::Broken),
            Err(_) => Err(Stop::OutOfMemory),
        }
    }
}

/// Audits a chain of this client. Nothing is left to believe of a client whose programs are known.
pub fn audit_echo(alloc: Global, chain: &[Session]) -> Result<(), Fault>
    ensures fresh { OnOk result (IsFresh echo_of (last_of (map session_of chain.now))) }
    ensures accepts { IsRightChain echo_of chain.now → (k n : ℕ) (record_fault : RecordFault)
        → result ≡ Err (Wrong k n record_fault) → ⊥ }
{
    let mut client = Echo {};
    audit(alloc, &mut client, chain)
}

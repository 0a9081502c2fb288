//! Fingerprints.
ghost use Rattle.std.specs.Prelude.{◌≡◌, IfOk, string_bytes};
ghost use Rattle.hex.specs.Hex.{encode_lower};
ghost use Rattle.sha2.specs.Sha256.{sha256};

use sha2::{Digest, Sha256};
use std::alloc::{AllocError, Global};

/// The SHA-256 of a result's canonical bytes.
#[derive(Clone, Copy, Debug, PartialEq, Eq)]
pub struct Print(pub [u8; 32]);

impl Print {
    /// The fingerprint of these bytes.
    pub fn of(bytes: &[u8]) -> Self
        ensures { result.0 ≡ sha256 bytes.now }
    {
        Print(Sha256::digest(bytes))
    }

    /// The fingerprint as 64 lower case hexadecimal digits.
    pub fn text(&self, alloc: Global) -> Result<String, AllocError>
        ensures { IfOk result (λ text. string_bytes text ≡ encode_lower self.now.0) }
    {
        hex::encode(alloc, self.0.as_slice())
    }
}

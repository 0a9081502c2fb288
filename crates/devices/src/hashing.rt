//! A sink that keeps the SHA-256 of its bytes alone.
ghost use Rattle.std.specs.Prelude.{◌≡◌, ◌++◌, ℕ, List, []};
ghost use Rattle.sha2.specs.Sha256.{sha256};
ghost use Rattle.sha2.specs.Hashers.{Holds256};

use crate::device::{DeviceFault, Sink};
use sha2::{Digest, Sha256};

/// A sink that keeps the SHA-256 of its bytes alone. It takes no memory and never fails.
#[derive(Drop)]
pub struct HashingSink {
    hasher: Sha256,
}

impl HashingSink {
    /// A sink that holds nothing.
    pub fn new() -> Self
        ensures { Holds256 result.hasher [] }
    {
        HashingSink {
            hasher: Sha256::new(),
        }
    }

    /// A sink that holds these bytes.
    pub fn of(bytes: &[u8]) -> Self
        ensures { Holds256 result.hasher bytes.now }
    {
        HashingSink {
            hasher: Sha256::new_with_prefix(bytes),
        }
    }

    /// Appends the bytes.
    pub fn add(&mut self, bytes: &[u8])
        ensures { (front : List ℕ) → Holds256 self.old.hasher front
            → Holds256 self.new.hasher (front ++ bytes.now) }
    {
        self.hasher.update(bytes);
    }

    /// The SHA-256 of the bytes that it holds. It still holds them afterwards.
    pub fn so_far(&self) -> [u8; 32]
        ensures { (bytes : List ℕ) → Holds256 self.now.hasher bytes → result ≡ sha256 bytes }
    {
        match self.hasher.clone() {
            Ok(copy) => copy.finalize(),
            Err(_) => unreachable!(),
        }
    }

    /// Appends the SHA-256 of the bytes that it holds, and answers it.
    pub fn close(&mut self) -> [u8; 32]
        ensures holds { (bytes : List ℕ) → Holds256 self.old.hasher bytes
            → Holds256 self.new.hasher (bytes ++ sha256 bytes) }
        ensures end { (bytes : List ℕ) → Holds256 self.old.hasher bytes → result ≡ sha256 bytes }
    {
        match self.hasher.clone() {
            Ok(copy) => {
                let end = copy.finalize();
                self.hasher.update(end.as_slice());
                end
            }
            Err(_) => unreachable!(),
        }
    }

    /// The SHA-256 of the bytes that it holds.
    pub fn digest(self) -> [u8; 32]
        ensures { (bytes : List ℕ) → Holds256 self.hasher bytes → result ≡ sha256 bytes }
    {
        self.hasher.finalize()
    }
}

/// The SHA-256 of a body, and that of the body with its SHA-256 at its end. The body is hashed once.
pub fn digests(body: &[u8]) -> ([u8; 32], [u8; 32])
    ensures body { result.0 ≡ sha256 body.now }
    ensures file { result.1 ≡ sha256 (body.now ++ sha256 body.now) }
{
    let mut hash = HashingSink::of(body);
    let end = hash.close();
    (end, hash.digest())
}

impl Sink for HashingSink {
    ghost use Rattle.sha2.specs.Hashers.{Holds256};

    ghost holds = { λ s bytes. Holds256 s.hasher bytes };

    ghost failed = { λ s. 0 };

    fn put(&mut self, bytes: &[u8]) -> Result<usize, DeviceFault> {
        if bytes.is_empty() {
            return Ok(0);
        }
        self.hasher.update(bytes);
        Ok(bytes.len())
    }

    fn failures(&self) -> u64 {
        0
    }
}

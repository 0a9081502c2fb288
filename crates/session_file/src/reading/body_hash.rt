//! The hash of what is read.
ghost use Rattle.std.specs.Prelude.{◌≡◌, ◌++◌, ℕ, List, [], None};
ghost use Rattle.session_file.specs.Hashing.{HashHolds};

use devices::HashingSink;

/// The hash of what is read, if this thread computes it.
#[derive(Drop)]
pub struct BodyHash {
    sink: Option<HashingSink>,
}

impl BodyHash {
    /// A hash of nothing yet, which this thread computes.
    pub(crate) fn here() -> Self
        ensures { HashHolds result [] }
    {
        BodyHash {
            sink: Some(HashingSink::new()),
        }
    }

    /// No hash, since another thread computes it, or nobody needs it.
    pub(crate) fn elsewhere() -> Self
        ensures { result.sink ≡ None }
    {
        BodyHash { sink: None }
    }

    /// Appends the bytes, if this thread computes the hash.
    pub(crate) fn add(&mut self, bytes: &[u8])
        ensures { (front : List ℕ) → HashHolds self.old front
            → HashHolds self.new (front ++ bytes.now) }
    {
        if let Some(sink) = &mut self.sink {
            sink.add(bytes);
        }
    }

    /// The sink that holds what was read, if this thread hashed it.
    pub(crate) fn into_sink(self) -> Option<HashingSink>
        ensures { result ≡ self.sink }
    {
        self.sink
    }
}

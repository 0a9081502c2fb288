//! Records and sessions.
ghost use Rattle.std.specs.Prelude.{◌≡◌};
ghost use Rattle.redgreen_sessions.specs.Marks.{previous_of};

use crate::bytes::Bytes;

/// How a key became done. An index is that of the record of the previous session that has the same key and the same value,
/// if the session says so.
#[derive(Clone, Copy, Debug, PartialEq, Eq)]
pub enum Mark {
    /// It is an input.
    Input(Option<usize>),
    /// It was taken over from the previous session, and nothing was run.
    Green(usize),
    /// Its query was run. With an index it came to its old value, which is early cut-off.
    Executed(Option<usize>),
}

impl Mark {
    /// The index of the unchanged record of the previous session, if there is said to be one.
    pub fn previous(&self) -> Option<usize>
        ensures { result ≡ previous_of self.now }
    {
        match *self {
            Mark::Input(previous) | Mark::Executed(previous) => previous,
            Mark::Green(place) => Some(place),
        }
    }
}

/// A key, how it became done, the indices of the records that it read, in the order of the first reads, and its value.
#[derive(Drop)]
pub struct Record {
    pub key: Bytes,
    pub mark: Mark,
    pub reads: Vec<usize>,
    pub value: Bytes,
}

/// A session, as its file has it.
#[derive(Drop)]
pub struct Session {
    /// How many sessions of the chain are before it.
    pub number: u64,
    /// The SHA-256 of the file of the previous session; of the first session 32 zero bytes.
    pub link: [u8; 32],
    /// The keys that were asked for.
    pub roots: Vec<Bytes>,
    /// The records, in the order in which they were done.
    pub records: Vec<Record>,
}

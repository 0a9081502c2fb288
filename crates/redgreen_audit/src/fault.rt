//! Why a chain isn't accepted.

/// What is wrong with a record: the first of these.
#[derive(Clone, Copy, Debug, PartialEq, Eq)]
pub enum RecordFault {
    /// An earlier record has its key.
    RepeatedKey,
    /// It is an input and has reads.
    InputWithReads,
    /// It reads a record that isn't an earlier one.
    LaterRead,
    /// It is executed and has the same read twice.
    RepeatedRead,
    /// It names a record of the previous session that isn't there, or has another key or another value.
    Changed,
    /// It is green, and the record of the previous session that it names is an input, or has other reads, or one of these
    /// isn't the unchanged record that is read now.
    NotGreen,
    /// Its run read a key that isn't the next of its reads, nor one that was read before.
    OtherRead,
    /// Its run ended before all of its reads were read.
    MissingRead,
    /// Its run gave another value.
    OtherValue,
    /// Its run failed.
    FailedRun,
}

/// Why a chain isn't accepted.
#[derive(Clone, Copy, Debug, PartialEq, Eq)]
pub enum Fault {
    /// There is no session.
    NoSession,
    /// In the session of this index the record of this index has this fault.
    Wrong(usize, usize, RecordFault),
    /// The client broke off, or answered what is no answer.
    Client,
    /// Memory ran out.
    OutOfMemory,
}

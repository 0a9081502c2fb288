//! What is said of a key of two sessions.
use item_ids::Key;

/// Why the query of a key was executed, or what else became of it.
#[derive(Clone, Copy)]
pub enum Cause<'a> {
    /// The session before has no record of it.
    New,
    /// It is an input, and has another value.
    Changed,
    /// The session has no record of it any more.
    Gone,
    /// It is an input, and has the value that it had.
    Same,
    /// It was taken over.
    Green,
    /// It was executed again since this key, which it had read, hasn't the same result in both sessions.
    Red(&'a Key),
    /// It was executed again since it goes by the profile, and the session before is of another one.
    OtherProfile,
    /// It was executed again without need.
    NothingChanged,
}

/// What is said of a key.
#[derive(Clone, Copy)]
pub struct Why<'a> {
    pub key: &'a Key,
    pub cause: Cause<'a>,
    /// Whether both sessions have a record of the key, with one fingerprint.
    pub is_same_result: bool,
}

//! What answers the reads of a run.
ghost use Rattle.std.specs.Prelude.{◌≡◌, ◌≢◌, ◌<◌, ◌≤◌, EachIndex, slice_index, MatchOption, List, ◌++◌, ◌∷◌, [], length, take, None, Some, IfOk, OnErr, IfSome, IfNone, IsTrue, IsSome, MatchBool, ◌⊎◌};
ghost use Rattle.redgreen_rules.specs.Programs.{Key};
ghost use Rattle.redgreen_rules.specs.Runs.{IsIn, Told};
ghost use Rattle.redgreen_sessions.specs.Views.{tell_at, told_at};
ghost use Rattle.redgreen_audit.specs.Answering.{Tells, told_first, IsStrange, AreInside, AreOnce};

use redgreen_sessions::{Bytes, Record};
use std::alloc::{AllocError, Global};

/// What a run may read: the records of its session, the places of its reads in order, how many of these it has read, and
/// the first key that it read and that wasn't the next of them.
#[derive(Drop)]
pub struct Answers<'a> {
    records: &'a [Record],
    reads: &'a [usize],
    count: usize,
    other: Option<Bytes>,
    ghost within: { count ≤ length reads.now },
    ghost inside: { AreInside records.now reads.now },
    ghost once: { AreOnce records.now reads.now },
    ghost strange: { (k : Key) → other ≡ Some k → IsStrange records.now reads.now count k },
}

/// The value of the record at a place, if it has this key.
fn value_at<'a>(records: &'a [Record], place: usize, key: &[u8]) -> Option<&'a [u8]>
    requires { place < length records.now }
    ensures { MatchOption result ((tell_at records.now place).key ≢ key.now)
        (λ v. tell_at records.now place ≡ record { key = key.now; value = v.now }) }
{
    let item = &records[place];
    if !item.key.equals(key) {
        return None;
    }
    Some(item.value.as_slice())
}

/// The value of the first record at one of these places that has this key.
fn value_among<'a>(records: &'a [Record], places: &[usize], key: &[u8]) -> Option<&'a [u8]>
    requires { AreInside records.now places.now }
    ensures { MatchOption result
        (EachIndex places.now (λ j. (tell_at records.now (slice_index places.now j)).key ≢ key.now))
        (λ v. IsIn (told_at records.now places.now) (record { key = key.now; value = v.now })) }
{
    for place in places {
        if let Some(value) = value_at(records, *place, key) {
            return Some(value);
        }
    }
    None
}

/// The value of the next read, if it is of this key.
fn next_value<'a>(
    records: &'a [Record],
    reads: &[usize],
    count: usize,
    key: &[u8],
) -> Option<&'a [u8]>
    requires { AreInside records.now reads.now }
    ensures { MatchOption result
        (count < length reads.now
        → (tell_at records.now (slice_index reads.now count)).key ≢ key.now)
        (λ v. (count < length reads.now)
        × (tell_at records.now (slice_index reads.now count) ≡ record { key = key.now; value = v.now })) }
{
    if count >= reads.len() {
        return None;
    }
    value_at(records, reads[count], key)
}

impl<'a> Answers<'a> {
    /// Nothing was read yet.
    pub(crate) fn new(records: &'a [Record], reads: &'a [usize]) -> Answers<'a>
        requires inside { AreInside records.now reads.now }
        requires once { AreOnce records.now reads.now }
        ensures records { result.records.now ≡ records.now }
        ensures reads { result.reads.now ≡ reads.now }
        ensures count { result.count ≡ 0 }
        ensures other { result.other ≡ None }
    {
        Answers {
            records,
            reads,
            count: 0,
            other: None,
        }
    }

    /// Answers a read from the next of the recorded reads, or from one that was read before. None for any other key, and
    /// from then on.
    pub fn read(&mut self, alloc: Global, key: &[u8]) -> Result<Option<&'a [u8]>, AllocError>
        ensures records { self.new.records.now ≡ self.old.records.now }
        ensures reads { self.new.reads.now ≡ self.old.reads.now }
        ensures told { IfOk result (λ o. IfSome o (λ v. Tells
            (told_first self.old.records.now self.old.reads.now self.old.count) key.now v.now
            (told_first self.new.records.now self.new.reads.now self.new.count))) }
        ensures other { IfOk result (λ o. IfSome o (λ v. (self.old.other ≡ None) × (self.new.other ≡ None))) }
        ensures refused { IfOk result (λ o. IfNone o ((self.new.count ≡ self.old.count)
            × ((self.new.other ≡ self.old.other) ⊎ (self.new.other ≡ Some key.now)))) }
        ensures failed { OnErr result ((self.new.count ≡ self.old.count)
            × (self.new.other ≡ self.old.other)) }
    {
        if self.other.is_some() {
            return Ok(None);
        }
        if let Some(value) = next_value(self.records, self.reads, self.count, key) {
            self.count += 1;
            return Ok(Some(value));
        }
        if let Some(value) = value_among(self.records, &self.reads[..self.count], key) {
            return Ok(Some(value));
        }
        let other = Bytes::copy_of(alloc, key)?;
        self.other = Some(other);
        Ok(None)
    }

    /// Whether all of the recorded reads were read.
    pub(crate) fn are_all(&self) -> bool
        ensures all { IsTrue result → take self.now.count self.now.reads.now ≡ self.now.reads.now }
        ensures count { MatchBool result (self.now.count ≡ length self.now.reads.now)
            (self.now.count < length self.now.reads.now) }
    {
        self.count == self.reads.len()
    }

    /// Whether a key was read that isn't recorded there.
    pub(crate) fn is_other(&self) -> bool
        ensures { MatchBool result ((k : Key) × (self.now.other ≡ Some k)) (self.now.other ≡ None) }
    {
        self.other.is_some()
    }

    /// No more was read than is recorded, and the other key is neither one that was read nor the next one.
    pub(crate) fn facts(&self)
        ensures within { self.now.count ≤ length self.now.reads.now }
        ensures strange { (k : Key) → self.now.other ≡ Some k
            → IsStrange self.now.records.now self.now.reads.now self.now.count k }
    {}
}

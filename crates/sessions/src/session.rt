//! Sessions.
ghost use Rattle.std.specs.Prelude.{◌≡◌, ◌≢◌, ◌≤◌, ◌<◌, Some, None, IfOk, IfErr, IfSome, IfNone, IsTrue, MatchOption, All, HoldsAt, length};
ghost use Rattle.sessions.specs.Sessions.{most_number, AreRecords, AreInside, IsSession, entry_at, entry_of, has_mark, many_of, session_in};
ghost use Rattle.sessions.specs.Refusals.{IsRefused};
ghost use Rattle.sessions.specs.Spelling.{digest_of};
ghost use Rattle.sessions.specs.Terms.{first_terms};

use crate::checks::check_records;
use crate::fault::SessionFault;
use crate::mark::Mark;
use crate::record::Record;
use crate::terms::Terms;
use item_ids::Key;
use std::alloc::{AllocError, Global};
use std::marker::Model;
use std::sync::Arc;

/// A session: its terms, its number in its chain, its link, which is the SHA-256 of the previous session's file (zeros
/// if there is none), and its records. If the SHA-256 of its own file is known, it keeps that too; contracts don't
/// see it.
pub struct Session {
    terms: Terms,
    number: u32,
    link: [u8; 32],
    records: Vec<Record>,
    digest: Option<[u8; 32]>,
}

impl Drop for Session {
    fn drop(self) {
        let Session {
            terms: _,
            number: _,
            link: _,
            records: _,
            digest: _,
        } = self;
    }
}

impl Model for Session {
    ghost use Rattle.sessions.specs.Sessions.{SessionValue};
    ghost use Rattle.result_bytes.specs.contracts.value.Value as value_contracts;
    ghost use Rattle.std.specs.Coded.{codes};

    ghost Value = { SessionValue };

    ghost coded = { Prim.hlevel (codes, value_contracts.the_row.coded) };

    ghost view = { λ s. record {
      terms = s.terms;
      number = s.number;
      link = s.link;
      records = s.records.items;
    } };

    ghost use Rattle.sessions.specs.Spelling.{KeepsDigest};

    ghost invariant = { λ s. KeepsDigest (record {
      terms = s.terms;
      number = s.number;
      link = s.link;
      records = s.records.items;
    }) s.digest };
}

impl Session {
    /// The greatest number of a session.
    pub const MOST: u32 = 9999;

    /// The session of the first terms with this number, link and records, or the first fault of these.
    pub fn new(
        alloc: Global,
        number: u32,
        link: [u8; 32],
        records: Vec<Record>,
    ) -> Result<Session, SessionFault>
        // It keeps just what was handed in.
        ensures made { IfOk result (λ s. s ≡ record {
          terms = first_terms;
          number = number;
          link = link;
          records = records.items;
        }) }
        ensures session { IfOk result IsSession }
        // Which fault it is.
        ensures refused { IfErr result (IsRefused number records.items) }
    {
        Session::new_as(alloc, Terms::first(), number, link, records)
    }

    /// The session of these terms, this number, link and records, or the first fault of these.
    pub fn new_as(
        alloc: Global,
        terms: Terms,
        number: u32,
        link: [u8; 32],
        records: Vec<Record>,
    ) -> Result<Session, SessionFault>
        // It keeps just what was handed in.
        ensures made { IfOk result (λ s. s ≡ record {
          terms = terms;
          number = number;
          link = link;
          records = records.items;
        }) }
        ensures session { IfOk result IsSession }
        // Which fault it is.
        ensures refused { IfErr result (IsRefused number records.items) }
    {
        if number > Session::MOST {
            return Err(SessionFault::Number);
        }
        match check_records(alloc, &records) {
            Ok(()) => Ok(Session::of_as(terms, number, link, records)),
            Err(fault) => Err(fault),
        }
    }

    /// The session of the first terms with this number, link and records, for a caller who knows that they make one.
    pub fn of(number: u32, link: [u8; 32], records: Vec<Record>) -> Session
        requires number { number ≤ most_number }
        requires records { AreRecords records.items }
        ensures { result ≡ record {
          terms = first_terms;
          number = number;
          link = link;
          records = records.items;
        } }
    {
        Session::of_as(Terms::first(), number, link, records)
    }

    /// The session of these terms, this number, link and records, for a caller who knows that they make one.
    pub fn of_as(terms: Terms, number: u32, link: [u8; 32], records: Vec<Record>) -> Session
        requires number { number ≤ most_number }
        requires records { AreRecords records.items }
        ensures { result ≡ record {
          terms = terms;
          number = number;
          link = link;
          records = records.items;
        } }
    {
        // A vector has fewer than 2^64 items.
        let _few = records.len();
        Session {
            terms,
            number,
            link,
            records,
            digest: None,
        }
    }

    /// The same session, with the SHA-256 of its file kept.
    pub fn with_digest(mut self, digest: [u8; 32]) -> Session
        requires { digest ≡ digest_of self }
        ensures { result ≡ self }
    {
        self.digest = Some(digest);
        self
    }

    /// The SHA-256 of the session's file, if it is kept.
    pub fn known_digest(&self) -> Option<[u8; 32]>
        ensures { IfSome result (λ digest. digest ≡ digest_of self.now) }
    {
        self.digest
    }

    /// The terms.
    pub fn terms(&self) -> Terms
        ensures { result ≡ self.now.terms }
    {
        self.terms
    }

    /// The number in its chain, from 0.
    pub fn number(&self) -> u32
        ensures { result ≡ self.now.number }
    {
        self.number
    }

    /// The SHA-256 of the previous session's file.
    pub fn link(&self) -> &[u8; 32]
        ensures { result.now ≡ self.now.link }
    {
        &self.link
    }

    /// The records, in order of their keys.
    pub fn records(&self) -> &[Record]
        ensures value { result.now ≡ self.now.records }
        ensures session { IsSession self.now }
    {
        self.records.as_slice()
    }

    /// The index of the record of a key, or `None` if there is none. It is looked for at `near` first.
    pub(crate) fn index_near(&self, near: usize, key: &Key) -> Option<usize>
        ensures within { IfSome result (λ i. i < length self.now.records) }
        ensures found { IfSome result (HoldsAt (λ r. r.key ≡ key.now) self.now.records) }
        ensures none { IfNone result (All (λ r. r.key ≢ key.now) self.now.records) }
    {
        let records = self.records();
        if is_at(records, near, key) {
            return Some(near);
        }
        place_of(records, key)
    }

    /// The record of a key, or `None` if there is none.
    pub fn find(&self, key: &Key) -> Option<&Record>
        ensures found { MatchOption result (entry_at self.now key.now ≡ None)
            (λ r. entry_at self.now key.now ≡ Some (entry_of self.now.records r.now)) }
        ensures edges { IfSome result (λ r. AreInside self.now.records r.now.edges) }
    {
        let records = self.records();
        match place_of(records, key) {
            Some(at) => Some(&records[at]),
            None => None,
        }
    }

    /// How many records have this mark.
    pub fn count(&self, mark: Mark) -> usize
        ensures { result ≡ many_of mark self.now.records }
    {
        count_in(self.records(), mark)
    }
}

/// How many records have this mark.
fn count_in(records: &[Record], mark: Mark) -> usize
    ensures { result ≡ many_of mark records.now }
{
    records.iter().filter(|item| has_mark(item, mark)).count()
}

/// Whether a record has this mark.
fn has_mark(item: &Record, mark: Mark) -> bool
    ensures { result ≡ has_mark mark item.now }
{
    item.mark().number() == mark.number()
}

/// One more owner of a session, if there is one.
pub fn share(session: &Option<Arc<Session>>) -> Result<Option<Arc<Session>>, AllocError>
    ensures { IfOk result (λ shared. session_in shared ≡ session_in session.now) }
{
    match session {
        Some(session) => Ok(Some(Arc::try_clone(session)?)),
        None => Ok(None),
    }
}

/// Whether the record at an index is that of a key.
fn is_at(records: &[Record], at: usize, key: &Key) -> bool
    ensures within { IsTrue result → at < length records.now }
    ensures found { IsTrue result → HoldsAt (λ r. r.key ≡ key.now) records.now at }
{
    match records.get(at) {
        Some(record) => record.key() == key,
        None => false,
    }
}

/// The index of the record of a key, by binary search, since the keys ascend.
fn place_of(records: &[Record], key: &Key) -> Option<usize>
    requires { AreRecords records.now }
    ensures within { IfSome result (λ i. i < length records.now) }
    ensures found { IfSome result (HoldsAt (λ r. r.key ≡ key.now) records.now) }
    ensures none { IfNone result (All (λ r. r.key ≢ key.now) records.now) }
{
    match records.binary_search_by(|record| record.key().cmp(key)) {
        Ok(at) => Some(at),
        Err(_) => None,
    }
}

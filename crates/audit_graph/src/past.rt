//! The previous session, as an audit sees it.
ghost use Rattle.std.specs.Prelude.{◌≡◌, ◌<◌, None, Some, IfOk, IfSome, MatchOption, HoldsAt, length};
ghost use Rattle.std.specs.List.{AllByRecursion};
ghost use Rattle.sessions.specs.Sessions.{IsSession, key_at, entry_at, entry_of};
ghost use Rattle.sessions.specs.Spelling.{digest_of};
ghost use Rattle.graph_rules.specs.Pasts.{print_in};
ghost use Rattle.audit_graph.specs.PastKeys.{AreKeysOf};

use crate::places::{key_of, print_of};
use fingerprint::Print;
use indexmap::IndexSet;
use item_ids::Key;
use profiles::Profile;
use session_file::digest;
use sessions::Session;
use std::alloc::{AllocError, Global};
use std::marker::Model;

/// What the audit of the next session asks of a session: its profile, its number, the SHA-256 of its file, and the key,
/// edges and fingerprint of each record, which is found by its key. The session is lent, so nothing of it is copied, and
/// its results aren't shown.
#[derive(Drop)]
pub struct Past<'a> {
    session: &'a Session,
    digest: [u8; 32],
    keys: IndexSet<&'a Key>,
}

impl<'a> Model for Past<'a> {
    ghost use Rattle.std.specs.Prelude.{◌≡◌};
    ghost use Rattle.std.specs.Coded.{codes};
    ghost use Rattle.result_bytes.specs.contracts.value.Value as value_contracts;
    ghost use Rattle.sessions.specs.Sessions.{SessionValue};
    ghost use Rattle.sessions.specs.Spelling.{digest_of};
    ghost use Rattle.audit_graph.specs.PastKeys.{AreKeysOf};

    ghost Value = { SessionValue };

    ghost coded = { Prim.hlevel (codes, value_contracts.the_row.coded) };

    ghost view = { λ p. p.session.now };

    ghost invariant = { λ p. (p.digest ≡ digest_of p.session.now)
        × AreKeysOf p.keys.keys p.session.now.records };
}

impl<'a> Past<'a> {
    /// What the audit of the next session asks of this one. Memory is taken for the set of its keys, which are lent.
    pub fn of(alloc: Global, session: &'a Session) -> Result<Self, AllocError>
        ensures { IfOk result (λ past. past ≡ session.now) }
    {
        let keys = keys_of(alloc, session)?;
        Ok(Past {
            session,
            digest: digest(session),
            keys,
        })
    }

    /// The profile that it was made in.
    pub fn profile(&self) -> Profile
        ensures { result ≡ self.now.terms.profile }
    {
        self.session.terms().profile
    }

    /// Its number in the chain.
    pub fn number(&self) -> u32
        ensures { result ≡ self.now.number }
    {
        self.session.number()
    }

    /// The SHA-256 of its file.
    pub fn digest(&self) -> &[u8; 32]
        ensures { result.now ≡ digest_of self.now }
    {
        &self.digest
    }

    /// The key of the record at an index.
    pub fn key(&self, i: usize) -> &Key
        requires { i < length self.now.records }
        ensures { result.now ≡ key_at self.now.records i }
    {
        key_of(self.session, i)
    }

    /// The indices of the records of the keys that the one at an index read, in order.
    pub fn edges(&self, i: usize) -> &[usize]
        requires { i < length self.now.records }
        ensures edges { HoldsAt (λ r. result.now ≡ r.edges) self.now.records i }
        ensures inside { AllByRecursion (λ e. e < length self.now.records) result.now }
    {
        self.session.records()[i].edges()
    }

    /// The fingerprint of the result at an index.
    pub fn print(&self, i: usize) -> Print
        requires { i < length self.now.records }
        ensures { Some result.0 ≡ print_in (entry_at self.now) (key_at self.now.records i) }
    {
        print_of(self.session, i)
    }

    /// The index of the record of a key.
    pub fn find(&self, key: &Key) -> Option<usize>
        ensures within { IfSome result (λ i. i < length self.now.records) }
        ensures found { MatchOption result (entry_at self.now key.now ≡ None)
            (λ i. HoldsAt (λ r. entry_at self.now key.now ≡ Some (entry_of self.now.records r))
            self.now.records i) }
        ensures session { IsSession self.now }
    {
        // A session keeps in its type what its records are.
        let _records = self.session.records();
        self.keys.get_index_of(&key)
    }
}

/// The keys of a session's records, in their order.
fn keys_of<'a>(alloc: Global, session: &'a Session) -> Result<IndexSet<&'a Key>, AllocError>
    ensures { IfOk result (λ set. AreKeysOf set.keys session.now.records) }
{
    let records = session.records();
    let mut keys = IndexSet::with_capacity(alloc, records.len())?;
    for record in records {
        keys.insert(record.key())?;
    }
    Ok(keys)
}

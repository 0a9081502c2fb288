//! A list that only grows, and the beginnings of it that threads know.
ghost use Rattle.std.specs.Prelude.{◌≡◌, ◌++◌, ◌∷◌, [], IsTrue, MatchBool, None};
ghost use mathlib.Core.List.{IsPrefix};
ghost use Rattle.known_list.specs.Rules.{head_of};

use crate::naming::ListNaming;
use crate::rule::{Adding, Law, Nothing};
use logbook::{Offer, Plain, Seen, Start, Word};
use std::marker::{Model, PhantomData};

const MOST_ENTRIES: u64 = 1 << 62;

/// A list that was just opened, and has no name yet.
#[derive(Drop)]
pub struct Opened<E> {
    head: Word<E, u64, Law>,
    seen: Seen<E, u64, Law>,
    pub ghost empty: { seen.log ≡ [] },
    pub ghost head_is: { head ≡ head_of seen.book },
}

impl<E> Opened<E> {
    /// A list without entries.
    pub fn new() -> Opened<E>
        ensures { result.seen.log ≡ [] }
    {
        let (seen, mut first, _second) = Seen::open(Start::alone(), 0, 0);
        Opened {
            head: Word::tracked(0, &mut first),
            seen,
        }
    }

    /// The list under a name, and what is known of it at first: nothing.
    pub fn named<J: ListNaming>(self) -> (Head<J, E>, Known<J, E>)
        requires { self.seen.book ≡ J.book }
        ensures { result.1 ≡ [] }
    {
        let Opened { head, seen } = self;
        (
            Head {
                word: head,
                of: PhantomData,
            },
            Known {
                entries: 0,
                seen,
                of: PhantomData,
            },
        )
    }
}

/// What all threads share of a list: its length.
#[derive(Drop)]
pub struct Head<J: ListNaming, E> {
    word: Word<E, u64, Law>,
    of: PhantomData<J>,
    ghost word_is: { word ≡ head_of J.book },
}

/// A beginning of the list. Contracts see it as its entries.
pub struct Known<J: ListNaming, E> {
    entries: u64,
    seen: Seen<E, u64, Law>,
    of: PhantomData<J>,
}

impl<J: ListNaming, E> Drop for Known<J, E> {
    fn drop(self) {
        let Known {
            entries: _,
            seen: _,
            of: _,
        } = self;
    }
}

impl<J: ListNaming, E> Model for Known<J, E> {
    ghost use Rattle.std.specs.Prelude.{◌≡◌, List, length};

    ghost Value = { List E };

    ghost view = { λ k. k.seen.log };

    ghost invariant = { λ k. (k.entries ≡ length k.seen.log) × (k.seen.book ≡ J.book) };
}

impl<J: ListNaming, E> Known<J, E> {
    /// A copy.
    pub fn again(&self) -> Known<J, E>
        ensures { result ≡ self.now }
    {
        Known {
            entries: self.entries,
            seen: self.seen.again(),
            of: PhantomData,
        }
    }

    /// Whether it is at least as long as another beginning, which then begins it.
    pub fn begins_with(&self, other: &Known<J, E>) -> bool
        ensures begins { IsTrue result → IsPrefix other.now self.now }
        ensures decides { IsPrefix other.now self.now → IsTrue result }
    {
        let mut both = self.seen.again();
        both.learn(&other.seen);
        other.entries <= self.entries
    }

    /// Adds an entry, if this is the whole list, and says whether it did. Else nothing changes.
    pub fn add<X, M: Plain<X, E, u64>>(&mut self, head: &Head<J, E>, about: &X) -> bool
        requires unmade { M.state about.now ≡ None }
        ensures { MatchBool result (self.new ≡ self.old ++ M.ask about.now ∷ []) (self.new ≡ self.old) }
    {
        let entries = self.entries;
        if entries >= MOST_ENTRIES {
            return false;
        }
        let mut seen = self.seen.again();
        let mut offer: Offer<E, u64, Law, Nothing> = seen.plain::<Nothing, X, M>(about);
        let mut pen = seen.no_pen();
        let found = head
            .word
            .compare_exchange::<Adding, Nothing>(
                entries,
                entries + 1,
                &mut seen,
                &mut offer,
                &mut pen,
            );
        if found != entries {
            return false;
        }
        self.seen = seen;
        self.entries = entries + 1;
        true
    }
}

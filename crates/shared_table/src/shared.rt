//! The table under a lock.
ghost use Rattle.std.specs.Prelude.{◌≡◌, [], IfOk};
ghost use Rattle.sessions.specs.Sessions.{session_in};

use crate::counted::Counted;
use crate::gate::Gate;
use crate::locked::Locked;
use crate::memo::Memo;
use crate::naming::Naming;
use crate::seat::Seat;
use crate::tally::Tally;
use known_list::{Known, Opened};
use recorder::{Read, Runner};
use sessions::{Session, Terms, share};
use std::alloc::{AllocError, Global};
use std::sync::{Arc, Condvar, Mutex, MutexGuard, Wait};

/// One table for all workers of a session, under a lock. Its type keeps, whenever the lock is free, that the state is
/// the replay of the history, that the history is legal, that each worker's events are counted, and that each result that
/// a worker was given still stands. What never changes lies beside the lock: the terms, the previous session, and what
/// is known at first of the list of all that is given.
pub struct Shared<J: Naming, R: Runner> {
    pub(crate) locked: Mutex<Locked<J, R>>,
    pub(crate) changed: Condvar,
    terms: Terms,
    past: Option<Arc<Session>>,
    known: Known<J, Read>,
    ghost of_terms: { terms ≡ J.opened.terms },
    ghost of_past: { session_in past ≡ J.opened.past },
    ghost of_known: { known ≡ [] },
}

impl<J: Naming, R: Runner> Drop for Shared<J, R> {
    fn drop(self) {
        let Shared {
            locked: _,
            changed: _,
            terms: _,
            past: _,
            known: _,
        } = self;
    }
}

impl<J: Naming, R: Runner> Shared<J, R> {
    /// Shares a table, and the empty list of all that it gives its workers.
    pub fn new(counted: Counted<J, R>, list: Opened<Read>) -> Result<Self, AllocError>
        requires { list.seen.book ≡ J.book }
    {
        // Its terms and its previous session are those of its name, by its type.
        counted.laws();
        let terms = counted.terms();
        let past = counted.past()?;
        Ok(Shared::over(counted, terms, past, list))
    }

    /// Shares a table with its terms, its previous session, and the empty list.
    fn over(
        counted: Counted<J, R>,
        terms: Terms,
        past: Option<Arc<Session>>,
        list: Opened<Read>,
    ) -> Self
        requires name { list.seen.book ≡ J.book }
        requires terms { terms ≡ J.opened.terms }
        requires past { session_in past ≡ J.opened.past }
    {
        let (head, known) = list.named::<J>();
        let told = known.again();
        Shared {
            locked: Mutex::new(Locked::new(counted, head, told)),
            changed: Condvar::new(),
            terms,
            past,
            known,
        }
    }

    /// A worker's seat at the table, with this count of events. The gate is called around each run.
    pub fn seat<'a, T: Wait, G: Gate>(
        &'a self,
        alloc: Global,
        rt: &'a T,
        gate: &'a G,
        tally: &'a mut Tally<J>,
    ) -> Seat<'a, J, R, T, G> {
        Seat::new(rt, self, gate, tally, Memo::new(alloc, self.known.again()))
    }

    /// The table, when all workers have ended.
    pub fn into_counted(self) -> Counted<J, R> {
        let Shared {
            locked,
            changed: _,
            terms: _,
            past: _,
            known: _,
        } = self;
        locked.into_inner().into_counted()
    }

    /// Frees the lock, and wakes the workers that wait.
    pub(crate) fn wake(&self, locked: MutexGuard<'_, Locked<J, R>>) {
        drop(locked);
        self.changed.notify_all();
    }

    /// The terms of the session.
    pub(crate) fn terms(&self) -> Terms
        ensures { result ≡ J.opened.terms }
    {
        self.terms
    }

    /// The previous session.
    pub(crate) fn past(&self) -> Result<Option<Arc<Session>>, AllocError>
        ensures { IfOk result (λ past. session_in past ≡ J.opened.past) }
    {
        share(&self.past)
    }
}

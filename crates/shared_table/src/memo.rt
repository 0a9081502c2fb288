//! The results that a worker knows.
ghost use Rattle.std.specs.Prelude.{◌≡◌, [], IfSome};
ghost use Rattle.std.specs.Arc.{arc_value};
ghost use mathlib.Core.List.{IsPrefix};
ghost use Rattle.mark_green.specs.Leaves.{TellsDone};
ghost use Rattle.shared_table.specs.Given.{AreDoneInSession, IsKnown};

use crate::naming::Naming;
use fingerprint::Sealed;
use item_ids::Key;
use job_table::{Asked, TableFault};
use known_list::Known;
use recorder::{AnswerList, Read, Runner};
use std::alloc::{AllocError, Global};
use std::marker::{Model, PhantomData};
use std::sync::Arc;

/// The results that a worker was given, so that it asks the table once for each. Contracts see it as the beginning that
/// the worker knows of the list of all results that the table gave. With each of them its key was done in a table of the
/// session, and what is done stays done.
pub(crate) struct Memo<J: Naming, R: Runner> {
    alloc: Global,
    known: Known<J, Read>,
    results: AnswerList,
    of: PhantomData<R>,
}

impl<J: Naming, R: Runner> Drop for Memo<J, R> {
    fn drop(self) {
        let Memo {
            alloc: _,
            known: _,
            results: _,
            of: _,
        } = self;
    }
}

impl<J: Naming, R: Runner> Model for Memo<J, R> {
    ghost use Rattle.std.specs.Prelude.{List, Contains};
    ghost use Rattle.std.specs.List.{AllByRecursion};
    ghost use Rattle.recorder.specs.Backed.{ReadValue};
    ghost use Rattle.recorder.specs.Codes.{coded_reads};
    ghost use Rattle.shared_table.specs.Given.{AreDoneInSession};

    ghost Value = { List ReadValue };

    ghost coded = { coded_reads };

    ghost view = { λ k. k.known };

    ghost invariant = { λ k. AllByRecursion (λ r. Contains k.known r) k.results
        × AreDoneInSession R.queries J.opened k.known };
}

impl<J: Naming, R: Runner> Memo<J, R> {
    /// What is known at first, which is nothing, and no results.
    pub(crate) fn new(alloc: Global, known: Known<J, Read>) -> Self
        requires { known ≡ [] }
        ensures { result ≡ known }
    {
        Memo {
            alloc,
            known,
            results: AnswerList::new(alloc),
            of: PhantomData,
        }
    }

    /// The beginning that is known.
    pub(crate) fn known(&self) -> &Known<J, Read>
        ensures { result.now ≡ self.now }
    {
        &self.known
    }

    /// Knows a longer beginning from now on.
    pub(crate) fn learn(&mut self, longer: Known<J, Read>)
        requires begins { IsPrefix self.old longer }
        requires done { AreDoneInSession R.queries J.opened longer }
        ensures { self.new ≡ longer }
    {
        self.known = longer;
    }

    /// The result of a key, if the worker knows it.
    pub(crate) fn get(&self, key: &Key) -> Option<&Arc<Sealed>>
        ensures { IfSome result (λ a. IsKnown R.queries J.opened self.now key.now
            (arc_value a.now)) }
    {
        match self.results.find(key) {
            Some(read) => Some(read.answer()),
            None => None,
        }
    }

    /// Keeps the result of a key that was found done, which was given, and says whether there was memory for it.
    pub(crate) fn keeps(&mut self, key: &Key, answer: &Result<Asked, TableFault>) -> bool
        requires { TellsDone (IsKnown R.queries J.opened self.old) key.now answer.now }
        ensures { self.new ≡ self.old }
    {
        match answer {
            Ok(Asked::Done(sealed)) => self.add(key, sealed).is_ok(),
            _ => true,
        }
    }

    /// Keeps the result of a key, which was given.
    fn add(&mut self, key: &Key, sealed: &Arc<Sealed>) -> Result<(), AllocError>
        requires { IsKnown R.queries J.opened self.old key.now (arc_value sealed.now) }
        ensures { self.new ≡ self.old }
    {
        let key = key.copy(self.alloc)?;
        self.results.add(key, Arc::try_clone(sealed)?)
    }
}

//! A single-threaded table as a store.
ghost use Rattle.std.specs.Prelude.{◌≡◌, Some};
ghost use Rattle.std.specs.Arc.{arc_value};
ghost use Rattle.mark_green.specs.Ensures.{EnsureGives};

use fingerprint::Sealed;
use item_ids::Key;
use job_table::{Asked, Table, TableFault};
use mark_green::{Fault, Store, ask_table, ensure, mark_table};
use recorder::{Outcome, Runner};
use sessions::{Session, Terms};
use std::alloc::{AllocError, Global};
use std::sync::Arc;

/// A single-threaded table as a store. Contracts see the whole table, and it never waits.
#[derive(Drop)]
pub struct Solo<R: Runner> {
    table: Table<R>,
}

impl<R: Runner> Solo<R> {
    /// The store of this table.
    pub fn new(table: Table<R>) -> Self
        ensures { result.table ≡ table }
    {
        Solo { table }
    }

    /// Evaluates a key in the table, by the worker, and gives its result.
    pub fn ensure(
        &mut self,
        alloc: Global,
        runner: &mut R,
        w: u32,
        key: &Key,
    ) -> Result<Arc<Sealed>, Fault>
        ensures { EnsureGives self.old.table w key.now result self.new.table }
    {
        ensure(alloc, self, runner, w, key)
    }

    /// The table.
    pub fn table(&self) -> &Table<R>
        ensures { result.now ≡ self.now.table }
    {
        &self.table
    }

    /// The table, given back.
    pub fn into_table(self) -> Table<R>
        ensures { result ≡ self.table }
    {
        let Solo { table } = self;
        table
    }
}

impl<R: Runner> Store for Solo<R> {
    ghost use Rattle.result_bytes.specs.Values.{IsOfKind};

    type Out = Arc<Outcome<R>>;

    ghost table = { λ s. Some s.table };

    ghost told = { λ s q v. IsOfKind q v };

    ghost outcome_in = { λ o. arc_value o };

    fn ask(&mut self, w: u32, key: &Key) -> Result<Asked, TableFault> {
        ask_table(&mut self.table, w, key)
    }

    fn mark(&mut self, w: u32, key: &Key) -> Result<Arc<Sealed>, TableFault> {
        mark_table(&mut self.table, w, key)
    }

    fn begin_run(&mut self, w: u32, key: &Key) -> Result<(), TableFault> {
        self.table.begin_run(w, key)
    }

    fn finish(&mut self, w: u32, outcome: Arc<Outcome<R>>) -> Result<(), TableFault> {
        // An outcome keeps in its type that its result is of its key's kind.
        let _sealed = outcome.sealed();
        self.table.finish_held(w, outcome)
    }

    fn fail(&mut self, w: u32) -> Result<(), TableFault> {
        self.table.fail(w)
    }

    fn terms(&self) -> Terms {
        self.table.terms()
    }

    fn past(&self) -> Result<Option<Arc<Session>>, AllocError> {
        self.table.past()
    }

    ghost of_kind = { λ s q v told. told };
}

//! The seat of a session's only worker.
ghost use Rattle.std.specs.Prelude.{◌≡◌};
ghost use Rattle.std.specs.Arc.{arc_value};

use crate::counted::Counted;
use crate::gate::Gate;
use crate::naming::Naming;
use crate::tally::Tally;
use fingerprint::Sealed;
use item_ids::Key;
use job_table::{Asked, Event, TableFault};
use mark_green::Store;
use recorder::{Outcome, Runner};
use sessions::{Session, Terms};
use std::alloc::AllocError;
use std::sync::Arc;

/// The seat of a worker who is alone at a table. Contracts see the whole table, so nothing is locked, no result that
/// was read is compared with the table's again, and nothing waits.
#[derive(Drop)]
pub struct Alone<'a, J: Naming, R: Runner, G: Gate> {
    counted: &'a mut Counted<J, R>,
    tally: &'a mut Tally<J>,
    gate: &'a G,
}

impl<'a, J: Naming, R: Runner, G: Gate> Alone<'a, J, R, G> {
    /// The seat of the worker with this count of events. The gate is called around each run.
    pub fn new(counted: &'a mut Counted<J, R>, tally: &'a mut Tally<J>, gate: &'a G) -> Self
        ensures { result.counted.now ≡ counted.old }
    {
        Alone {
            counted,
            tally,
            gate,
        }
    }
}

impl<J: Naming, R: Runner, G: Gate> Store for Alone<'_, J, R, G> {
    ghost use Rattle.std.specs.Prelude.{Some};
    ghost use Rattle.result_bytes.specs.Values.{IsOfKind};

    type Out = Arc<Outcome<R>>;

    ghost table = { λ s. Some s.counted.now };

    ghost told = { λ s q v. IsOfKind q v };

    ghost outcome_in = { λ o. arc_value o };

    fn ask(&mut self, w: u32, key: &Key) -> Result<Asked, TableFault> {
        self.counted.ask(self.tally, w, key)
    }

    fn mark(&mut self, w: u32, key: &Key) -> Result<Arc<Sealed>, TableFault> {
        self.counted.mark(self.tally, w, key)
    }

    fn begin_run(&mut self, w: u32, key: &Key) -> Result<(), TableFault> {
        let answer = self.counted.begin_run(self.tally, w, key);
        if let Ok(()) = &answer {
            self.gate.before_run(w, key);
        }
        answer
    }

    fn finish(&mut self, w: u32, outcome: Arc<Outcome<R>>) -> Result<(), TableFault> {
        // An outcome keeps in its type that its result is of its key's kind.
        let _sealed = outcome.sealed();
        let answer = self.counted.finish_held(self.tally, w, outcome);
        if let (Ok(()), Some(Event::Finish(_, ended))) = (&answer, self.counted.last()) {
            self.gate.after_run(w, ended.key());
        }
        answer
    }

    fn fail(&mut self, w: u32) -> Result<(), TableFault> {
        self.counted.fail(self.tally, w)
    }

    fn terms(&self) -> Terms {
        self.counted.terms()
    }

    fn past(&self) -> Result<Option<Arc<Session>>, AllocError> {
        self.counted.past()
    }

    ghost of_kind = { λ s q v told. told };
}

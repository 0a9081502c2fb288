//! A driver of queries: it runs what is asked of a project in profile 1 and keeps each result by its key, with no session and no table
//! of jobs.
ghost use Rattle.std.specs.Prelude.{◌≡◌, IfOk};
ghost use Rattle.std.specs.Arc.{arc_value};
ghost use Rattle.profiles.specs.declared.profile.Profile.TheVariants.{One};

use crate::steps::take_step;
use fingerprint::Sealed;
use item_ids::Key;
use project_inputs::Inputs;
use recorder::{AnswerList, ReadFault, RunFault, Runner};
use std::alloc::{AllocError, Global};
use std::marker::Model;
use std::sync::Arc;

/// Evaluates queries of a project in profile 1 without a session. The run of a query is repeated for each key that it reads and
/// whose result isn't held yet. Contracts see the project.
#[derive(Drop)]
pub struct Driver<R: Runner> {
    alloc: Global,
    inputs: Inputs,
    runner: R,
    held: AnswerList,
}

impl<R: Runner> Model for Driver<R> {
    ghost use Rattle.named_files.specs.Projects.{IsProject};
    ghost use Rattle.profiles.specs.declared.profile.Profile.TheVariants.{One};
    ghost use Rattle.recorder.specs.Backed.{GivesEach};
    ghost use Rattle.recorder.specs.Projects.{Project};

    ghost Value = { Project };

    ghost view = { λ d. d.inputs };

    ghost invariant = { λ d. IsProject d.inputs × GivesEach (R.queries.mean One d.inputs) d.held };
}

impl<R: Runner> Driver<R> {
    /// A driver of the queries of the project with these inputs, which holds no result.
    pub fn new(alloc: Global, inputs: Inputs, runner: R) -> Self
        ensures { result ≡ inputs }
    {
        // Inputs are those of a project, by their type.
        inputs.project();
        Driver {
            alloc,
            inputs,
            runner,
            held: AnswerList::new(alloc),
        }
    }

    /// The result of a key, which is what the runner means by it in this project.
    pub fn result(&mut self, key: &Key) -> Result<Arc<Sealed>, RunFault>
        ensures result { IfOk result (λ a. arc_value a ≡ R.queries.mean One self.old key.now) }
        ensures same { self.new ≡ self.old }
    {
        self.bring(key)?;
        match self.held.find(key) {
            Some(read) => Ok(Arc::try_clone(read.answer())?),
            None => Err(RunFault::Read(ReadFault::NotHeld)),
        }
    }

    /// Evaluates a key, and before it each key that its run lacks.
    fn bring(&mut self, key: &Key) -> Result<(), RunFault>
        ensures same { self.new ≡ self.old }
    {
        if self.held.find(key).is_some() {
            return Ok(());
        }
        let open = only(self.alloc, key)?;
        self.bring_all(open)
    }

    /// Evaluates the keys, the last one first.
    fn bring_all(&mut self, open: Vec<Key>) -> Result<(), RunFault>
        ensures same { self.new ≡ self.old }
    {
        let mut open = open;
        for _ in 0..usize::MAX {
            let Some(key) = open.pop() else {
                return Ok(());
            };
            if let Some(wanted) = self.step(&key)? {
                open_both(&mut open, key, wanted)?;
            }
        }
        Ok(())
    }

    /// Holds the key's result, or names a key that is wanted first.
    fn step(&mut self, key: &Key) -> Result<Option<Key>, RunFault>
        ensures same { self.new ≡ self.old }
    {
        take_step(
            self.alloc,
            &self.inputs,
            &mut self.runner,
            &mut self.held,
            key,
        )
    }
}

/// This key alone.
fn only(alloc: Global, key: &Key) -> Result<Vec<Key>, AllocError> {
    let mut open = Vec::new(alloc);
    open.push(key.copy(alloc)?)?;
    Ok(open)
}

/// Opens a key, and behind it the one that it wants first.
fn open_both(open: &mut Vec<Key>, key: Key, wanted: Key) -> Result<(), AllocError> {
    open.push(key)?;
    open.push(wanted)?;
    Ok(())
}

//! The runner.
ghost use Rattle.std.specs.Prelude.{◌≡◌, ◌++◌, ◌∷◌, [], List, IfOk, IfErr, OnOk, OnErr};
ghost use Rattle.recorder.specs.Programs.{Goes, GivesUp};
ghost use Rattle.run_fixtures.specs.Meaning.{empty_of};
ghost use Rattle.run_fixtures.specs.Programs.{steps_of};

use crate::sample::checks::{check_body, check_class};
use crate::sample::headers::{run_header, run_signature};
use answer_bytes::{Faults, WholeAnswer};
use item_ids::{Key, Kind};
use mj_answer::Answer;
use profiles::Profile;
use recorder::{Reader, Recorder, RunFault, Runner};
use result_bytes::{Index, Value};
use std::alloc::{AllocError, AllocFailed, Global};

/// A runner that only asks which files there are, and which of them are empty.
#[derive(Drop)]
pub struct SampleRunner {
    log: Vec<Key>,
}

impl SampleRunner {
    /// A runner with an empty log.
    pub fn new(alloc: Global) -> Self
        ensures { result.log.items ≡ [] }
    {
        SampleRunner {
            log: Vec::new(alloc),
        }
    }

    /// The keys that it was asked to run, in order.
    pub fn log(&self) -> &[Key]
        ensures { result.now ≡ self.now.log.items }
    {
        self.log.as_slice()
    }
}

/// The empty value of a kind.
fn empty_value(alloc: Global, key: &Key) -> Value
    ensures { result ≡ empty_of key.now }
{
    match key {
        Key::Index => Value::Index(Index::new(Vec::new(alloc))),
        Key::Method(_, _) => Value::Method(None),
        Key::Supers(_) => Value::Supers(None),
        Key::Members(_) => Value::Members(None),
        Key::Diags(_) => Value::Diags(Faults::new(Vec::new(alloc))),
        Key::Answer => {
            let answer = Answer::new(Vec::new(alloc), Vec::new(alloc));
            Value::Answer(WholeAnswer::new(answer))
        }
        _ => Value::Tree(None),
    }
}

/// One run, by the program of the key's kind.
#[tactic(auto, unfolding(crate::specs::Programs::steps_of))]
fn run_kind<D: Reader>(
    alloc: Global,
    key: &Key,
    recorder: &mut Recorder<D>,
) -> Result<Value, RunFault>
    ensures ok { IfOk result (λ v. Goes (steps_of key.now) recorder.old v recorder.new) }
    ensures err { IfErr result (λ e. GivesUp (steps_of key.now) recorder.old e recorder.new) }
    ensures follows { D.follows recorder.old.inner recorder.new.inner }
{
    match key {
        Key::Header(file) => run_header(alloc, recorder, file),
        Key::Sig(file, other) => run_signature(alloc, recorder, file, other),
        Key::CheckClass(_) => check_class(alloc, recorder),
        Key::CheckBody(first, second) => check_body(alloc, recorder, first, second),
        _ => Ok(empty_value(alloc, key)),
    }
}

/// Logs the key.
fn note(alloc: Global, log: &mut Vec<Key>, key: &Key) -> Result<(), AllocError>
    ensures ok { OnOk result (log.new.items ≡ log.old.items ++ key.now ∷ []) }
    ensures err { OnErr result (log.new.items ≡ log.old.items) }
{
    log.push(key.copy(alloc)?)?;
    Ok(())
}

impl Runner for SampleRunner {
    ghost use Rattle.run_fixtures.specs.Programs.{sample_queries};
    ghost use Rattle.run_fixtures.specs.Tie.{sample_laws};

    ghost queries = { sample_queries };

    ghost log = { λ r. r.log.items };

    ghost laws = { sample_laws };

    fn by_profile(_kind: Kind) -> bool {
        false
    }

    fn run<D: Reader>(
        &mut self,
        alloc: Global,
        _profile: Profile,
        key: &Key,
        recorder: &mut Recorder<D>,
    ) -> Result<Value, RunFault> {
        note(alloc, &mut self.log, key)?;
        run_kind(alloc, key, recorder)
    }
}

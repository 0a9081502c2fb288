//! The runner.
ghost use Rattle.std.specs.Prelude.{◌≡◌, ◌≢◌, ◌<◌, ◌++◌, ◌∷◌, [], List, None, IfOk, IfErr, OnOk, OnErr, false};
ghost use Rattle.item_ids.specs.Keys.{kind_of};
ghost use Rattle.item_ids.specs.declared.kind.Kind.TheVariants as kinds;
ghost use Rattle.item_ids.specs.Inputs.{rank};
ghost use Rattle.profiles.specs.declared.profile.Profile.{Profile};
ghost use Rattle.recorder.specs.Programs.{Goes, GivesUp};
ghost use Rattle.recorder.specs.Runs.{IsRun};
ghost use Rattle.query_rules.specs.Meaning.{mean};
ghost use Rattle.query_rules.specs.Reads.{reads};
ghost use Rattle.query_rules.specs.Queries.{is_by_profile};
ghost use Rattle.providers.specs.Programs.{steps_of};

use answer_queries::{run_answer, run_check_class};
use body_query::check_body;
use item_ids::{Key, Kind};
use member_queries::{run_diags, run_members, run_supers};
use profiles::Profile;
use recorder::{Reader, Recorder, RunFault, Runner};
use result_bytes::Value;
use std::alloc::{AllocError, AllocFailed, Global};
use text_queries::{run_header, run_index, run_method, run_sig, run_tree};

/// The queries of MiniJava. It keeps the keys that it was asked to run.
#[derive(Drop)]
pub struct MiniJava {
    log: Vec<Key>,
}

impl MiniJava {
    /// A runner that was asked nothing yet.
    pub fn new(alloc: Global) -> Self
        ensures { result.log.items ≡ [] }
    {
        MiniJava {
            log: Vec::new(alloc),
        }
    }

    /// The keys that it was asked to run, in order.
    pub fn log(&self) -> &[Key]
        ensures { result.now ≡ self.now.log.items }
    {
        self.log.as_slice()
    }
}

/// Logs the key.
fn note(alloc: Global, log: &mut Vec<Key>, key: &Key) -> Result<(), AllocError>
    ensures ok { OnOk result (log.new.items ≡ log.old.items ++ key.now ∷ []) }
    ensures err { OnErr result (log.new.items ≡ log.old.items) }
{
    log.push(key.copy(alloc)?)?;
    Ok(())
}

/// The steps of the program of the key's kind in a profile, of any but the check of a body.
#[tactic(auto, unfolding(crate::specs::Programs::steps_of))]
fn run_steps<D: Reader>(
    alloc: Global,
    profile: Profile,
    key: &Key,
    recorder: &mut Recorder<D>,
) -> Result<Value, RunFault>
    requires no_input { 0 < rank key.now }
    requires no_body { kind_of key.now ≢ kinds.CheckBody }
    ensures ok { IfOk result (λ v. Goes (steps_of profile key.now) recorder.old v
        recorder.new) }
    ensures err { IfErr result (λ e. GivesUp (steps_of profile key.now) recorder.old e
        recorder.new) }
    ensures follows { D.follows recorder.old.inner recorder.new.inner }
{
    match key {
        Key::Files | Key::Source(_) | Key::CheckBody(_, _) => unreachable!(),
        Key::Tree(file) => run_tree(alloc, recorder, file),
        Key::Index => run_index(alloc, recorder),
        Key::Header(class) => run_header(alloc, recorder, class),
        Key::Method(class, method) => run_method(alloc, recorder, class, method),
        Key::Sig(class, method) => run_sig(alloc, recorder, class, method),
        Key::Supers(class) => run_supers(alloc, recorder, class),
        Key::Members(class) => run_members(alloc, recorder, class),
        Key::CheckClass(class) => run_check_class(alloc, recorder, profile, class),
        Key::Diags(class) => run_diags(alloc, recorder, class),
        Key::Answer => run_answer(alloc, recorder),
    }
}

/// One run in a profile, with a recorder that hasn't read.
fn run_query<D: Reader>(
    alloc: Global,
    profile: Profile,
    key: &Key,
    recorder: &mut Recorder<D>,
) -> Result<Value, RunFault>
    requires no_input { 0 < rank key.now }
    requires unread { recorder.old.told ≡ [] }
    requires unrefused { recorder.old.refused ≡ None }
    ensures run { IsRun (mean profile) (reads profile) key.now recorder.new result }
    ensures across { is_by_profile (kind_of key.now) ≡ false → (other : Profile)
        → IsRun (mean other) (reads other) key.now recorder.new result }
    ensures follows { D.follows recorder.old.inner recorder.new.inner }
{
    if key.kind() == Kind::CheckBody {
        return check_body(alloc, key, recorder);
    }
    run_steps(alloc, profile, key, recorder)
}

impl Runner for MiniJava {
    ghost use Rattle.query_rules.specs.Queries.{queries};
    ghost use Rattle.providers.specs.Laws.{mini_java_laws};

    ghost queries = { queries };

    ghost log = { λ r. r.log.items };

    ghost laws = { mini_java_laws };

    fn by_profile(kind: Kind) -> bool {
        matches!(kind, Kind::CheckClass)
    }

    fn run<D: Reader>(
        &mut self,
        alloc: Global,
        profile: Profile,
        key: &Key,
        recorder: &mut Recorder<D>,
    ) -> Result<Value, RunFault> {
        note(alloc, &mut self.log, key)?;
        run_query(alloc, profile, key, recorder)
    }
}

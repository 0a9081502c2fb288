//! MiniJava's runner, which tells which results a change keeps.
ghost use Rattle.std.specs.Prelude.{◌≡◌, ◌≢◌, ◌<◌, [], None, IfOk, IfErr};
ghost use Rattle.item_ids.specs.Keys.{kind_of};
ghost use Rattle.item_ids.specs.Inputs.{rank};
ghost use Rattle.item_ids.specs.declared.kind.Kind.TheVariants as kinds;
ghost use Rattle.recorder.specs.Programs.{Goes, GivesUp, Performs};
ghost use Rattle.recorder.specs.Runs.{IsRun};
ghost use Rattle.query_rules.specs.Meaning.{mean};
ghost use Rattle.query_rules.specs.Reads.{reads};
ghost use Rattle.providers.specs.Programs.{prog_of, steps_of};
ghost use Rattle.keeping.specs.Follows.{Follows};

use crate::change::{Change, change_of};
use crate::keeps::keeps_by;
use answer_queries::{run_answer, run_check_class};
use body_query::check_body;
use item_ids::{Key, Kind};
use keeping::Keeping;
use member_queries::{run_diags, run_members, run_supers};
use profiles::Profile;
use providers::MiniJava;
use recorder::{Reader, Recorder, RunFault, Runner};
use result_bytes::Value;
use std::alloc::{AllocError, Global};
use text_queries::{run_header, run_index, run_method, run_sig, run_tree};

/// The steps of the program of the key's kind in a profile, of any but the check of a body.
#[tactic(auto, unfolding(providers::specs::Programs::steps_of))]
fn run_steps<D: Reader>(
    alloc: Global,
    profile: Profile,
    key: &Key,
    recorder: &mut Recorder<D>,
) -> Result<Value, RunFault>
    requires no_input { 0 < rank key.now }
    requires no_body { kind_of key.now ≢ kinds.CheckBody }
    ensures ok { IfOk result (λ v. Goes (steps_of profile key.now) recorder.old v
        recorder.new) }
    ensures err { IfErr result (λ e. GivesUp (steps_of profile key.now) recorder.old e
        recorder.new) }
    ensures follows { D.follows recorder.old.inner recorder.new.inner }
{
    match key {
        Key::Files | Key::Source(_) | Key::CheckBody(_, _) => unreachable!(),
        Key::Tree(file) => run_tree(alloc, recorder, file),
        Key::Index => run_index(alloc, recorder),
        Key::Header(class) => run_header(alloc, recorder, class),
        Key::Method(class, method) => run_method(alloc, recorder, class, method),
        Key::Sig(class, method) => run_sig(alloc, recorder, class, method),
        Key::Supers(class) => run_supers(alloc, recorder, class),
        Key::Members(class) => run_members(alloc, recorder, class),
        Key::CheckClass(class) => run_check_class(alloc, recorder, profile, class),
        Key::Diags(class) => run_diags(alloc, recorder, class),
        Key::Answer => run_answer(alloc, recorder),
    }
}

/// Performs the program of a key that checks no body, with a recorder that hasn't read.
fn perform_steps<D: Reader>(
    alloc: Global,
    profile: Profile,
    key: &Key,
    recorder: &mut Recorder<D>,
) -> Result<Value, RunFault>
    requires no_input { 0 < rank key.now }
    requires no_body { kind_of key.now ≢ kinds.CheckBody }
    requires unread { recorder.old.told ≡ [] }
    requires unrefused { recorder.old.refused ≡ None }
    ensures performs { Performs (prog_of profile key.now) recorder.old result recorder.new }
    ensures follows { D.follows recorder.old.inner recorder.new.inner }
{
    run_steps(alloc, profile, key, recorder)
}

/// Performs the program of a key that checks a body, with a recorder that hasn't read.
fn perform_body<D: Reader>(
    alloc: Global,
    profile: Profile,
    key: &Key,
    recorder: &mut Recorder<D>,
) -> Result<Value, RunFault>
    requires body { kind_of key.now ≡ kinds.CheckBody }
    requires unread { recorder.old.told ≡ [] }
    requires unrefused { recorder.old.refused ≡ None }
    ensures performs { Performs (prog_of profile key.now) recorder.old result recorder.new }
    ensures follows { D.follows recorder.old.inner recorder.new.inner }
{
    check_body(alloc, key, recorder)
}

/// Performs the program of a key in a profile, with a recorder that hasn't read.
fn perform<D: Reader>(
    alloc: Global,
    profile: Profile,
    key: &Key,
    recorder: &mut Recorder<D>,
) -> Result<Value, RunFault>
    requires no_input { 0 < rank key.now }
    requires unread { recorder.old.told ≡ [] }
    requires unrefused { recorder.old.refused ≡ None }
    ensures performs { Performs (prog_of profile key.now) recorder.old result recorder.new }
    ensures follows { D.follows recorder.old.inner recorder.new.inner }
{
    if key.kind() == Kind::CheckBody {
        return perform_body(alloc, profile, key, recorder);
    }
    perform_steps(alloc, profile, key, recorder)
}

/// One run in a profile, with a recorder that hasn't read. Its result follows from what was read by a run of the program.
fn run_query<D: Reader>(
    alloc: Global,
    profile: Profile,
    key: &Key,
    recorder: &mut Recorder<D>,
) -> Result<Value, RunFault>
    requires no_input { 0 < rank key.now }
    requires unread { recorder.old.told ≡ [] }
    requires unrefused { recorder.old.refused ≡ None }
    ensures along { IfOk result (λ v. Follows (prog_of profile key.now) recorder.new.told v) }
    ensures run { IsRun (mean profile) (reads profile) key.now recorder.new result }
    ensures follows { D.follows recorder.old.inner recorder.new.inner }
{
    perform(alloc, profile, key, recorder)
}

/// MiniJava's queries, as `MiniJava` runs them, and which of their results a change keeps.
#[derive(Drop)]
pub struct KeepingMiniJava {
    runner: MiniJava,
}

impl KeepingMiniJava {
    /// A runner that was asked nothing yet.
    pub fn new(alloc: Global) -> Self
        ensures { result.runner.log.items ≡ [] }
    {
        KeepingMiniJava {
            runner: MiniJava::new(alloc),
        }
    }
}

impl Runner for KeepingMiniJava {
    ghost use Rattle.query_rules.specs.Queries.{queries};
    ghost use Rattle.providers.specs.Laws.{mini_java_laws};

    ghost queries = { queries };

    ghost log = { λ r. r.runner.log.items };

    ghost laws = { mini_java_laws };

    fn by_profile(kind: Kind) -> bool {
        MiniJava::by_profile(kind)
    }

    fn run<D: Reader>(
        &mut self,
        alloc: Global,
        profile: Profile,
        key: &Key,
        recorder: &mut Recorder<D>,
    ) -> Result<Value, RunFault> {
        self.runner.run(alloc, profile, key, recorder)
    }
}

impl Keeping for KeepingMiniJava {
    ghost use Rattle.providers.specs.Programs.{prog_of};
    ghost use Rattle.kept_laws.specs.Tests.{is_kept};
    ghost use Rattle.kept_results.specs.Changes.{Tells};
    ghost use Rattle.kept_results.specs.Laws.{mini_java_keeps};

    type Change = Change;

    ghost programs = { prog_of };

    ghost kept = { is_kept };

    ghost tells = { Tells };

    ghost keeping = { mini_java_keeps };

    fn change(alloc: Global, read: &Key, old: &Value, new: &Value) -> Result<Change, AllocError> {
        change_of(alloc, read, old, new)
    }

    fn keeps(change: &Change, key: &Key, value: &Value) -> bool {
        keeps_by(change, key, value)
    }

    fn run_along<D: Reader>(
        &mut self,
        alloc: Global,
        profile: Profile,
        key: &Key,
        recorder: &mut Recorder<D>,
    ) -> Result<Value, RunFault> {
        run_query(alloc, profile, key, recorder)
    }
}

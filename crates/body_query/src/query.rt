//! The query.
ghost use Rattle.std.specs.Prelude.{◌≡◌, [], None, Some, IfOk, IfErr};
ghost use Rattle.item_ids.specs.Keys.{kind_of};
ghost use Rattle.item_ids.specs.declared.kind.Kind.TheVariants as kinds;
ghost use Rattle.profiles.specs.declared.profile.Profile.{Profile};
ghost use Rattle.recorder.specs.Programs.{Goes, GivesUp, Performs};
ghost use Rattle.recorder.specs.Runs.{IsRun};
ghost use Rattle.query_rules.specs.Items.{fault_set};
ghost use Rattle.query_rules.specs.Meaning.{mean};
ghost use Rattle.query_rules.specs.Reads.{reads};
ghost use Rattle.body_query.specs.Programs.{reads_of};
ghost use Rattle.body_query.specs.Body.{faults_of_mistakes as faults_told, check_of, body_steps, body_prog};
ghost use Rattle.result_bytes.specs.Parts.{body_in};
ghost use Rattle.tree_bytes.specs.BodyViews.{body_view};

use crate::faults::{class_fault_set, faults_of_mistakes};
use crate::reads::{check_main_by_reads, check_method_by_reads};
use answer_bytes::Faults;
use item_ids::Key;
use mj_phrases::Mistake;
use ordered_names::Name;
use recorder::{Reader, Recorder, RunFault, read};
use result_bytes::Value;
use std::alloc::{AllocError, AllocFailed, Global};
use tree_bytes::{Body, MainOrMethod};

/// The mistakes in the body in an answer.
fn check_told<D: Reader>(
    alloc: Global,
    recorder: &mut Recorder<D>,
    class: &Name,
    value: &Value,
) -> Result<Vec<Mistake>, RunFault>
    ensures ok { IfOk result (λ mistakes. Goes (reads_of (check_of class.now (body_in value.now)))
        recorder.old mistakes.items recorder.new) }
    ensures err { IfErr result (λ e. GivesUp (reads_of (check_of class.now (body_in value.now)))
        recorder.old e recorder.new) }
    ensures follows { D.follows recorder.old.inner recorder.new.inner }
{
    match value.body() {
        None => Ok(Vec::new(alloc)),
        Some(body) => check_opened(alloc, recorder, class, body),
    }
}

/// The mistakes in a body, which is opened.
fn check_opened<D: Reader>(
    alloc: Global,
    recorder: &mut Recorder<D>,
    class: &Name,
    body: &Body,
) -> Result<Vec<Mistake>, RunFault>
    ensures ok { IfOk result (λ mistakes. Goes (reads_of (check_of class.now (Some body.now)))
        recorder.old mistakes.items recorder.new) }
    ensures err { IfErr result (λ e. GivesUp (reads_of (check_of class.now (Some body.now)))
        recorder.old e recorder.new) }
    ensures follows { D.follows recorder.old.inner recorder.new.inner }
{
    let root = body.open(alloc)?;
    check_root(alloc, recorder, class, &root)
}

/// The mistakes in a body as a tree.
fn check_root<D: Reader>(
    alloc: Global,
    recorder: &mut Recorder<D>,
    class: &Name,
    root: &MainOrMethod,
) -> Result<Vec<Mistake>, RunFault>
    ensures ok { IfOk result (λ mistakes.
        Goes (reads_of (check_of class.now (Some (body_view root.now))))
        recorder.old mistakes.items recorder.new) }
    ensures err { IfErr result (λ e.
        GivesUp (reads_of (check_of class.now (Some (body_view root.now))))
        recorder.old e recorder.new) }
    ensures follows { D.follows recorder.old.inner recorder.new.inner }
{
    match root {
        MainOrMethod::Main(statement) => check_main_by_reads(alloc, recorder, statement),
        MainOrMethod::Method(method) => check_method_by_reads(alloc, recorder, class, method),
    }
}

/// The diagnostics for mistakes in a method, as a set.
fn faults_for(alloc: Global, method: &Name, mistakes: &[Mistake]) -> Result<Faults, AllocError>
    ensures { IfOk result (λ faults. faults ≡ fault_set (faults_told method.now mistakes.now)) }
{
    Ok(class_fault_set(faults_of_mistakes(alloc, method, mistakes)?))
}

/// The mistakes in a method of a class.
fn check_body_steps<D: Reader>(
    alloc: Global,
    recorder: &mut Recorder<D>,
    class: &Name,
    method: &Name,
) -> Result<Value, RunFault>
    ensures ok { IfOk result (λ v. Goes (body_steps class.now method.now) recorder.old v
        recorder.new) }
    ensures err { IfErr result (λ e. GivesUp (body_steps class.now method.now) recorder.old e
        recorder.new) }
    ensures follows { D.follows recorder.old.inner recorder.new.inner }
{
    let key = Key::Method(class.copy(alloc)?, method.copy(alloc)?);
    let sealed = read(recorder, key)?;
    let mistakes = check_told(alloc, recorder, class, sealed.value())?;
    let faults = faults_for(alloc, method, &mistakes)?;
    Ok(Value::CheckBody(faults))
}

/// Runs a query of this kind, with a recorder that hasn't read: what it asks is what the query reads in each profile, and
/// its result follows from the answers.
pub fn check_body<D: Reader>(
    alloc: Global,
    key: &Key,
    recorder: &mut Recorder<D>,
) -> Result<Value, RunFault>
    requires kind { kind_of key.now ≡ kinds.CheckBody }
    requires unread { recorder.old.told ≡ [] }
    requires unrefused { recorder.old.refused ≡ None }
    ensures run { (profile : Profile) → IsRun (mean profile) (reads profile) key.now recorder.new
        result }
    ensures performs { Performs (body_prog key.now) recorder.old result recorder.new }
    ensures follows { D.follows recorder.old.inner recorder.new.inner }
{
    match key {
        Key::CheckBody(class, method) => check_body_steps(alloc, recorder, class, method),
        _ => unreachable!(),
    }
}

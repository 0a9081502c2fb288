//! Checks: of all files, and of a phrase.
ghost use Rattle.std.specs.Prelude.{◌≡◌, List, ℕ, Bool, false, IfOk, IfErr, OnOk, OnErr};
ghost use Rattle.recorder.specs.Programs.{Goes, GivesUp, each};
ghost use Rattle.run_fixtures.specs.Meaning.{is_main, faults_if};
ghost use Rattle.result_bytes.specs.Parts.{header_in};
ghost use Rattle.run_fixtures.specs.Programs.{main_step, class_steps, body_steps};

use crate::sample::headers::ask_header;
use crate::sample::phrase::phrase_of;
use crate::sample::walk::walk;
use answer_bytes::Faults;
use item_ids::Key;
use mj_answer::{Code, Diagnostic};
use mj_tree::Place;
use ordered_names::Name;
use recorder::{Reader, Recorder, RunFault, ask_key};
use result_bytes::Value;
use std::alloc::{AllocError, Global};

/// Whether an answer has the header of an empty file.
fn is_main_in(value: &Value) -> bool
    ensures { result ≡ is_main (header_in value.now) }
{
    match value.header() {
        Some(header) => header.is_main(),
        None => false,
    }
}

/// One diagnostic, or none.
fn faults_for(alloc: Global, found: bool) -> Result<Faults, AllocError>
    ensures { IfOk result (λ faults. faults ≡ faults_if found) }
{
    let mut list = Vec::new(alloc);
    if found {
        list.push(Diagnostic {
            place: Place::Class,
            code: Code::E310,
        })?;
    }
    Ok(Faults::new(list))
}

/// Whether one more file is empty, or one was found before.
fn look_at<D: Reader>(
    alloc: Global,
    recorder: &mut Recorder<D>,
    name: &Name,
    found: bool,
) -> Result<bool, RunFault>
    ensures ok { IfOk result (λ b. Goes (main_step name.now found) recorder.old b recorder.new) }
    ensures err { IfErr result (λ e. GivesUp (main_step name.now found) recorder.old e
        recorder.new) }
    ensures follows { D.follows recorder.old.inner recorder.new.inner }
{
    let sealed = ask_header(alloc, recorder, name)?;
    let is_main = is_main_in(sealed.value());
    Ok(found || is_main)
}

/// Whether some file is empty.
#[tactic(auto, using(recorder::proofs::Rules::loop_more, recorder::proofs::Rules::loop_up, recorder::proofs::Rules::loop_end))]
fn look_at_all<D: Reader>(
    alloc: Global,
    recorder: &mut Recorder<D>,
    names: &[Name],
) -> Result<bool, RunFault>
    ensures ok { IfOk result (λ b. Goes (each main_step names.now false) recorder.old b
        recorder.new) }
    ensures err { IfErr result (λ e. GivesUp (each main_step names.now false) recorder.old e
        recorder.new) }
    ensures follows { D.follows recorder.old.inner recorder.new.inner }
{
    let mut found = false;
    for name in names {
        found = look_at(alloc, recorder, name, found)?;
    }
    Ok(found)
}

/// A diagnostic if some file is empty.
pub fn check_class<D: Reader>(alloc: Global, recorder: &mut Recorder<D>) -> Result<Value, RunFault>
    ensures ok { IfOk result (λ v. Goes class_steps recorder.old v recorder.new) }
    ensures err { IfErr result (λ e. GivesUp class_steps recorder.old e recorder.new) }
    ensures follows { D.follows recorder.old.inner recorder.new.inner }
{
    let sealed = ask_key(recorder, &Key::Files)?;
    let found = look_at_all(alloc, recorder, sealed.value().files())?;
    let faults = faults_for(alloc, found)?;
    Ok(Value::CheckClass(faults))
}

/// A diagnostic if the phrase for two names has no type.
pub fn check_body<D: Reader>(
    alloc: Global,
    recorder: &mut Recorder<D>,
    first: &Name,
    second: &Name,
) -> Result<Value, RunFault>
    ensures ok { IfOk result (λ v. Goes (body_steps first.now second.now) recorder.old v
        recorder.new) }
    ensures err { IfErr result (λ e. GivesUp (body_steps first.now second.now) recorder.old e
        recorder.new) }
    ensures follows { D.follows recorder.old.inner recorder.new.inner }
{
    let phrase = phrase_of(alloc, first, second)?;
    let found = walk(alloc, recorder, &phrase)?;
    let faults = faults_for(alloc, found.is_none())?;
    Ok(Value::CheckBody(faults))
}

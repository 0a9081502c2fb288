//! The query of a class's declarations.
ghost use Rattle.std.specs.Prelude.{◌≡◌, [], IfOk, IfErr, option_copied};
ghost use Rattle.item_ids.specs.declared.key.Key.TheVariants as keys;
ghost use Rattle.recorder.specs.Programs.{Goes, GivesUp, Ask};
ghost use Rattle.result_bytes.specs.Parts.{supers_in};
ghost use Rattle.body_questions.specs.Classes.{chain_classes};
ghost use Rattle.answer_queries.specs.CheckClass.{check_declared_steps, check_class_by, check_class_steps};

use crate::fields::ask_fields;
use crate::overrides::{ask_overrides, overridden_class};
use crate::told::faults_of;
use answer_bytes::Faults;
use item_ids::Key;
use ordered_names::Name;
use profiles::Profile;
use recorder::{Reader, Recorder, RunFault, read};
use result_bytes::{Header, Supers, Value};
use std::alloc::Global;

/// The classes of a chain.
fn classes_in(chain: Option<&Supers>) -> &[Name]
    ensures { result.now ≡ chain_classes (option_copied chain.entry) }
{
    match chain {
        Some(chain) => chain.classes(),
        None => &[],
    }
}

/// The diagnostics of the declarations of a class with this header and this chain.
fn check_declared<D: Reader>(
    alloc: Global,
    recorder: &mut Recorder<D>,
    profile: Profile,
    class: &Name,
    header: &Header,
    chain: Option<&Supers>,
) -> Result<Value, RunFault>
    ensures ok { IfOk result (λ v. Goes
        (check_declared_steps profile class.now header.now (option_copied chain.entry)) recorder.old v
        recorder.new) }
    ensures err { IfErr result (λ e. GivesUp
        (check_declared_steps profile class.now header.now (option_copied chain.entry)) recorder.old e
        recorder.new) }
    ensures follows { D.follows recorder.old.inner recorder.new.inner }
{
    let undeclared = ask_fields(alloc, recorder, header.fields())?;
    let other = overridden_class(header.methods(), classes_in(chain));
    let others = ask_overrides(alloc, recorder, profile, class, header.methods(), other)?;
    let faults = faults_of(alloc, header, chain, &undeclared, &others)?;
    Ok(Value::CheckClass(faults))
}

/// The diagnostics of the declarations of a class with this header, by its chain.
fn check_header<D: Reader>(
    alloc: Global,
    recorder: &mut Recorder<D>,
    profile: Profile,
    class: &Name,
    header: &Header,
) -> Result<Value, RunFault>
    ensures ok { IfOk result (λ v. Goes (λ k. Ask (keys.Supers class.now)
        (λ told. check_declared_steps profile class.now header.now (supers_in told) k)) recorder.old v
        recorder.new) }
    ensures err { IfErr result (λ e. GivesUp (λ k. Ask (keys.Supers class.now)
        (λ told. check_declared_steps profile class.now header.now (supers_in told) k)) recorder.old e
        recorder.new) }
    ensures follows { D.follows recorder.old.inner recorder.new.inner }
{
    let answer = read(recorder, Key::Supers(class.copy(alloc)?))?;
    let chain = answer.value().supers();
    check_declared(alloc, recorder, profile, class, header, chain)
}

/// No diagnostics.
fn no_faults(alloc: Global) -> Faults
    ensures { result ≡ [] }
{
    Faults::new(Vec::new(alloc))
}

/// The diagnostics of the declarations of a class, if it is declared.
fn check_told<D: Reader>(
    alloc: Global,
    recorder: &mut Recorder<D>,
    profile: Profile,
    class: &Name,
    header: Option<&Header>,
) -> Result<Value, RunFault>
    ensures ok { IfOk result (λ v. Goes
        (check_class_by profile class.now (option_copied header.entry)) recorder.old v
        recorder.new) }
    ensures err { IfErr result (λ e. GivesUp
        (check_class_by profile class.now (option_copied header.entry)) recorder.old e
        recorder.new) }
    ensures follows { D.follows recorder.old.inner recorder.new.inner }
{
    match header {
        Some(header) => check_header(alloc, recorder, profile, class, header),
        None => Ok(Value::CheckClass(no_faults(alloc))),
    }
}

/// The diagnostics of the declarations of a class, by its header.
pub fn run_check_class<D: Reader>(
    alloc: Global,
    recorder: &mut Recorder<D>,
    profile: Profile,
    class: &Name,
) -> Result<Value, RunFault>
    ensures ok { IfOk result (λ v. Goes (check_class_steps profile class.now) recorder.old v
        recorder.new) }
    ensures err { IfErr result (λ e. GivesUp (check_class_steps profile class.now) recorder.old e
        recorder.new) }
    ensures follows { D.follows recorder.old.inner recorder.new.inner }
{
    let answer = read(recorder, Key::Header(class.copy(alloc)?))?;
    check_told(alloc, recorder, profile, class, answer.value().header())
}

//! All diagnostics of a class.
ghost use Rattle.std.specs.Prelude.{◌≡◌, ◌++◌, ◌∷◌, [], option_copied, if◌then◌else◌, IfOk, IfErr, OnOk};
ghost use Rattle.answer_bytes.specs.Storable.{AreClassFaults};
ghost use Rattle.mj_rules.specs.ClassFaults.{main_word};
ghost use Rattle.recorder.specs.Programs.{Goes, GivesUp, each};
ghost use Rattle.member_queries.specs.FirstNames.{first_names};
ghost use Rattle.member_queries.specs.Diags.{bodies_in, body_step, declared_faults_steps, diags_by, diags_steps};

use answer_bytes::Faults;
use body_query::class_fault_set;
use item_ids::Key;
use mj_answer::{Diagnostic, copy_faults};
use ordered_names::Name;
use recorder::{Reader, Recorder, RunFault, read};
use result_bytes::{Header, Value};
use std::alloc::{AllocError, Global};
use std::collections::BTreeSet;

/// Adds a name, if it is new.
fn keep_new(
    alloc: Global,
    names: &mut Vec<Name>,
    is_new: bool,
    name: &Name,
) -> Result<(), AllocError>
    ensures { OnOk result
        (names.new.items ≡ names.old.items ++ (if is_new then name.now ∷ [] else [])) }
{
    if is_new {
        names.push(name.copy(alloc)?)?;
    }
    Ok(())
}

/// Each name where it stands first.
fn first_names(alloc: Global, names: &[Name]) -> Result<Vec<Name>, AllocError>
    ensures { IfOk result (λ firsts. firsts.items ≡ first_names names.now) }
{
    let mut met = BTreeSet::new(alloc);
    let mut firsts = Vec::new(alloc);
    for name in names {
        let is_new = met.insert(name.as_str())?;
        keep_new(alloc, &mut firsts, is_new, name)?;
    }
    Ok(firsts)
}

/// The name of the body of a main class.
fn main_alone(alloc: Global) -> Result<Vec<Name>, AllocError>
    ensures { IfOk result (λ names. names.items ≡ main_word ∷ []) }
{
    let mut names = Vec::new(alloc);
    names.push(Name::new(alloc, "main")?)?;
    Ok(names)
}

/// The bodies of a class: `main` of a main class, else its methods.
fn bodies_in(alloc: Global, header: &Header) -> Result<Vec<Name>, AllocError>
    ensures { IfOk result (λ names. names.items ≡ bodies_in header.now) }
{
    if header.is_main() {
        main_alone(alloc)
    } else {
        first_names(alloc, header.methods())
    }
}

/// Adds diagnostics.
fn add_faults(
    alloc: Global,
    faults: &mut Vec<Diagnostic>,
    more: &[Diagnostic],
) -> Result<(), AllocError>
    ensures { OnOk result (faults.new.items ≡ faults.old.items ++ more.now) }
{
    for fault in more {
        faults.push(fault.copy(alloc)?)?;
    }
    Ok(())
}

/// Asks the diagnostics in one more body, and adds them.
#[tactic(auto, using(crate::proofs::Places::places_append))]
fn ask_body<D: Reader>(
    alloc: Global,
    recorder: &mut Recorder<D>,
    class: &Name,
    method: &Name,
    faults: &mut Vec<Diagnostic>,
) -> Result<(), RunFault>
    requires { AreClassFaults faults.old.items }
    ensures ok { OnOk result (Goes (body_step class.now method.now faults.old.items) recorder.old
        faults.new.items recorder.new) }
    ensures places { OnOk result (AreClassFaults faults.new.items) }
    ensures err { IfErr result (λ e. GivesUp (body_step class.now method.now faults.old.items)
        recorder.old e recorder.new) }
    ensures follows { D.follows recorder.old.inner recorder.new.inner }
{
    let key = Key::CheckBody(class.copy(alloc)?, method.copy(alloc)?);
    let answer = read(recorder, key)?;
    add_faults(alloc, faults, answer.value().faults())?;
    Ok(())
}

/// These diagnostics and those in bodies of a class.
fn ask_bodies<D: Reader>(
    alloc: Global,
    recorder: &mut Recorder<D>,
    class: &Name,
    bodies: &[Name],
    start: &[Diagnostic],
) -> Result<Vec<Diagnostic>, RunFault>
    requires { AreClassFaults start.now }
    ensures ok { IfOk result (λ faults. Goes (each (body_step class.now) bodies.now start.now)
        recorder.old faults.items recorder.new) }
    ensures places { IfOk result (λ faults. AreClassFaults faults.items) }
    ensures err { IfErr result (λ e. GivesUp (each (body_step class.now) bodies.now start.now)
        recorder.old e recorder.new) }
    ensures follows { D.follows recorder.old.inner recorder.new.inner }
{
    let mut faults = copy_faults(alloc, start)?;
    for body in bodies {
        ask_body(alloc, recorder, class, body, &mut faults)?;
    }
    Ok(faults)
}

/// All diagnostics of a class that is declared, by its header.
fn declared_faults<D: Reader>(
    alloc: Global,
    recorder: &mut Recorder<D>,
    class: &Name,
    header: &Header,
) -> Result<Faults, RunFault>
    ensures ok { IfOk result (λ faults. Goes (declared_faults_steps class.now header.now) recorder.old
        faults recorder.new) }
    ensures err { IfErr result (λ e. GivesUp (declared_faults_steps class.now header.now) recorder.old
        e recorder.new) }
    ensures follows { D.follows recorder.old.inner recorder.new.inner }
{
    let bodies = bodies_in(alloc, header)?;
    let answer = read(recorder, Key::CheckClass(class.copy(alloc)?))?;
    let faults = ask_bodies(alloc, recorder, class, &bodies, answer.value().faults())?;
    Ok(class_fault_set(faults))
}

/// All diagnostics of a class, if it is declared.
#[tactic(auto, using(crate::proofs::Places::no_faults))]
fn faults_by<D: Reader>(
    alloc: Global,
    recorder: &mut Recorder<D>,
    class: &Name,
    header: Option<&Header>,
) -> Result<Value, RunFault>
    ensures ok { IfOk result (λ v. Goes (diags_by class.now (option_copied header.entry))
        recorder.old v recorder.new) }
    ensures err { IfErr result (λ e. GivesUp (diags_by class.now (option_copied header.entry))
        recorder.old e recorder.new) }
    ensures follows { D.follows recorder.old.inner recorder.new.inner }
{
    match header {
        Some(header) => {
            let faults = declared_faults(alloc, recorder, class, header)?;
            Ok(Value::Diags(faults))
        }
        None => Ok(Value::Diags(class_fault_set(Vec::new(alloc)))),
    }
}

/// All diagnostics of a class, by its header, the check of its declarations and those of its bodies.
pub fn run_diags<D: Reader>(
    alloc: Global,
    recorder: &mut Recorder<D>,
    class: &Name,
) -> Result<Value, RunFault>
    ensures ok { IfOk result (λ v. Goes (diags_steps class.now) recorder.old v recorder.new) }
    ensures err { IfErr result (λ e. GivesUp (diags_steps class.now) recorder.old e
        recorder.new) }
    ensures follows { D.follows recorder.old.inner recorder.new.inner }
{
    let answer = read(recorder, Key::Header(class.copy(alloc)?))?;
    faults_by(alloc, recorder, class, answer.value().header())
}

//! The query of the answer for the whole project.
ghost use Rattle.std.specs.Prelude.{◌≡◌, IfOk, IfErr};
ghost use Rattle.std.specs.List.{AllByRecursion};
ghost use Rattle.ordered_names.specs.Order.{IsAscendingByName};
ghost use Rattle.answer_bytes.specs.Storable.{AreProjectFaults, IsClassStorable};
ghost use Rattle.recorder.specs.Programs.{Goes, GivesUp};
ghost use Rattle.answer_queries.specs.Answer.{answer, classes_steps, answer_steps};

use crate::classes::ask_all_classes;
use crate::project_faults::project_faults;
use crate::trees::ask_all_trees;
use answer_bytes::WholeAnswer;
use item_ids::Key;
use mj_answer::{Answer, ClassAnswer, Diagnostic, fault_set};
use recorder::{Reader, Recorder, RunFault, read};
use result_bytes::Value;
use std::alloc::Global;

/// The answer with these diagnostics of the project, and its classes in their order.
fn whole_answer(faults: Vec<Diagnostic>, classes: Vec<ClassAnswer>) -> WholeAnswer
    requires places { AreProjectFaults faults.items }
    requires ascending { IsAscendingByName (λ class. class.name) classes.items }
    requires storable { AllByRecursion IsClassStorable classes.items }
    ensures { result ≡ answer faults.items classes.items }
{
    WholeAnswer::new(Answer::new(fault_set(faults), classes))
}

/// Asks the index and what each class has, if these are the project's own diagnostics.
fn ask_classes<D: Reader>(
    alloc: Global,
    recorder: &mut Recorder<D>,
    faults: Vec<Diagnostic>,
) -> Result<WholeAnswer, RunFault>
    requires { AreProjectFaults faults.items }
    ensures ok { IfOk result (λ whole. Goes (classes_steps faults.items) recorder.old whole
        recorder.new) }
    ensures err { IfErr result (λ e. GivesUp (classes_steps faults.items) recorder.old e
        recorder.new) }
    ensures follows { D.follows recorder.old.inner recorder.new.inner }
{
    let index = read(recorder, Key::Index)?;
    let classes = ask_all_classes(alloc, recorder, index.value().index())?;
    Ok(whole_answer(faults, classes))
}

/// The answer for the project, by the trees of all files, and the members and the diagnostics of each class.
pub fn run_answer<D: Reader>(alloc: Global, recorder: &mut Recorder<D>) -> Result<Value, RunFault>
    ensures ok { IfOk result (λ v. Goes answer_steps recorder.old v recorder.new) }
    ensures err { IfErr result (λ e. GivesUp answer_steps recorder.old e recorder.new) }
    ensures follows { D.follows recorder.old.inner recorder.new.inner }
{
    let names = read(recorder, Key::Files)?;
    let files = ask_all_trees(alloc, recorder, names.value().files())?;
    let faults = project_faults(alloc, &files)?;
    let whole = ask_classes(alloc, recorder, faults)?;
    Ok(Value::Answer(whole))
}

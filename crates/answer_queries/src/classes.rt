//! The classes of the answer.
ghost use Rattle.std.specs.Prelude.{◌≡◌, ◌++◌, ◌∷◌, [], map, IfOk, IfErr, OnOk};
ghost use Rattle.std.specs.List.{AllByRecursion};
ghost use Rattle.answer_bytes.specs.Storable.{IsClassStorable};
ghost use Rattle.recorder.specs.Programs.{Goes, GivesUp, each};
ghost use Rattle.body_questions.specs.Members.{table_in as table_told};
ghost use Rattle.answer_queries.specs.Answer.{class_answer as class_told, class_step};

use fingerprint::Sealed;
use item_ids::Key;
use mj_answer::{ClassAnswer, ClassTable, copy_faults};
use ordered_names::Name;
use recorder::{Reader, Recorder, RunFault, read};
use result_bytes::{IndexRow, Value};
use std::alloc::{AllocError, Global};
use std::sync::Arc;

/// The fields and methods in an answer.
fn table_in(alloc: Global, value: &Value) -> Result<ClassTable, AllocError>
    ensures { IfOk result (λ table. table ≡ table_told value.now) }
{
    match value.members() {
        Some(members) => members.table().copy(alloc),
        None => Ok(ClassTable::new(Vec::new(alloc), Vec::new(alloc))),
    }
}

/// The answer for a class of this name, by its members and its diagnostics.
fn class_answer(
    alloc: Global,
    name: &Name,
    members: &Sealed,
    diags: &Sealed,
) -> Result<ClassAnswer, AllocError>
    ensures value { IfOk result (λ class.
        class ≡ class_told name.now members.now diags.now) }
    ensures storable { IfOk result IsClassStorable }
{
    let name = name.copy(alloc)?;
    let table = table_in(alloc, members.value())?;
    let faults = copy_faults(alloc, diags.value().faults())?;
    Ok(ClassAnswer::new(name, table, faults))
}

/// Adds the answer for a class.
fn add_class(
    alloc: Global,
    classes: &mut Vec<ClassAnswer>,
    name: &Name,
    members: &Sealed,
    diags: &Sealed,
) -> Result<(), AllocError>
    ensures value { OnOk result
        (classes.new.items
        ≡ classes.old.items ++ class_told name.now members.now diags.now ∷ []) }
    ensures storable { OnOk result (IsClassStorable (class_told name.now members.now diags.now)) }
{
    classes.push(class_answer(alloc, name, members, diags)?)?;
    Ok(())
}

/// Asks the members and the diagnostics of one more class.
fn ask_class<D: Reader>(
    alloc: Global,
    recorder: &mut Recorder<D>,
    row: &IndexRow,
    classes: &mut Vec<ClassAnswer>,
) -> Result<(), RunFault>
    requires { AllByRecursion IsClassStorable classes.old.items }
    ensures ok { OnOk result (Goes (class_step row.now classes.old.items) recorder.old
        classes.new.items recorder.new) }
    ensures err { IfErr result (λ e. GivesUp (class_step row.now classes.old.items) recorder.old
        e recorder.new) }
    ensures named { OnOk result
        (map (λ class. class.name) classes.new.items
        ≡ map (λ class. class.name) classes.old.items ++ row.now.class ∷ []) }
    ensures storable { OnOk result (AllByRecursion IsClassStorable classes.new.items) }
    ensures follows { D.follows recorder.old.inner recorder.new.inner }
{
    let members = read(recorder, Key::Members(row.class.copy(alloc)?))?;
    let diags = read(recorder, Key::Diags(row.class.copy(alloc)?))?;
    add_class(alloc, classes, &row.class, &members, &diags)?;
    Ok(())
}

/// Asks the members and the diagnostics of each class.
#[tactic(auto, using(recorder::proofs::Rules::loop_more, recorder::proofs::Rules::loop_up, recorder::proofs::Rules::loop_end))]
pub fn ask_all_classes<D: Reader>(
    alloc: Global,
    recorder: &mut Recorder<D>,
    rows: &[IndexRow],
) -> Result<Vec<ClassAnswer>, RunFault>
    ensures ok { IfOk result (λ classes. Goes (each class_step rows.now []) recorder.old
        classes.items recorder.new) }
    ensures err { IfErr result (λ e. GivesUp (each class_step rows.now []) recorder.old e
        recorder.new) }
    ensures named { IfOk result (λ classes.
        map (λ class. class.name) classes.items ≡ map (λ row. row.class) rows.now) }
    ensures storable { IfOk result (λ classes. AllByRecursion IsClassStorable classes.items) }
    ensures follows { D.follows recorder.old.inner recorder.new.inner }
{
    let mut classes = Vec::new(alloc);
    for row in rows {
        ask_class(alloc, recorder, row, &mut classes)?;
    }
    Ok(classes)
}

//! Lists of answers.
ghost use Rattle.std.specs.Prelude.{◌≡◌, ◌↔◌, List, [], ◌∷◌, ◌++◌, IsTrue, IfOk, OnOk};
ghost use Rattle.fingerprint.specs.Prints.{print_of};
ghost use Rattle.answer_fixtures.specs.Telling.{IsKeyOf, IsSpelledValue};
ghost use Rattle.run_fixtures.specs.declared.reads.Given.{Given as SpecGiven};
ghost use Rattle.recorder.specs.Backed.{ReadValue};
ghost use Rattle.run_fixtures.specs.Reading.{AreReadsOf, Holds, AreSame, AreToldApart};

use crate::reads::{Given, is_read};
use answer_fixtures::{Unfit, key_of, sealed_of};
use item_ids::Key;
use recorder::AnswerList;
use std::alloc::Global;

/// Adds one more answer.
fn add(alloc: Global, list: &mut AnswerList, given: Given) -> Result<(), Unfit>
    ensures { (before : List SpecGiven) → AreReadsOf before list.old
        → OnOk result (AreReadsOf (before ++ given.entry ∷ []) list.new) }
{
    let Given(asked, digits) = given;
    let answer = sealed_of(alloc, asked.0, digits)?;
    let key = key_of(alloc, asked)?;
    Ok(list.add(key, answer)?)
}

/// Adds these answers to an empty list.
fn add_all(alloc: Global, list: &mut AnswerList, given: &[Given]) -> Result<(), Unfit>
    requires { list.old ≡ [] }
    ensures { OnOk result (AreReadsOf given.now list.new) }
{
    for one in given {
        add(alloc, list, *one)?;
    }
    Ok(())
}

/// The list of these answers.
pub fn list_of(alloc: Global, given: &[Given]) -> Result<AnswerList, Unfit>
    ensures { IfOk result (AreReadsOf given.now) }
{
    let mut list = AnswerList::new(alloc);
    match add_all(alloc, &mut list, given) {
        Ok(()) => Ok(list),
        Err(fault) => Err(fault),
    }
}

/// Whether the list has this answer for the key.
fn has_for(alloc: Global, list: &AnswerList, key: &Key, given: Given) -> Result<bool, Unfit>
    requires { IsKeyOf given.0 key.now }
    ensures { IfOk result (Holds given.entry list.now) }
{
    match list.find(key) {
        Some(read) => is_read(alloc, read, given),
        None => Ok(false),
    }
}

/// Whether the list has this answer for its key.
fn has(alloc: Global, list: &AnswerList, given: Given) -> Result<bool, Unfit>
    ensures { IfOk result (Holds given.entry list.now) }
{
    let key = key_of(alloc, given.0)?;
    has_for(alloc, list, &key, given)
}

/// Whether the list of these answers has this answer for its key.
pub fn holds(alloc: Global, answers: &[Given], given: Given) -> Result<bool, Unfit>
    ensures { IfOk result (λ b. (list : List ReadValue) × AreReadsOf answers.now list
        × Holds given.entry list b) }
{
    let list = list_of(alloc, answers)?;
    has(alloc, &list, given)
}

/// Whether two answers are one result with one fingerprint.
pub fn are_same(alloc: Global, one: Given, other: Given) -> Result<bool, Unfit>
    ensures { IfOk result (AreSame one.entry other.entry) }
{
    let one = sealed_of(alloc, one.0.0, one.1)?;
    let other = sealed_of(alloc, other.0.0, other.1)?;
    Ok(one.same_result(&other) && one.same_print(&other))
}

/// Whether neither the results nor the prints of two answers are the same.
pub fn are_apart(alloc: Global, one: Given, other: Given) -> Result<bool, Unfit>
    ensures { IfOk result (AreToldApart one.entry other.entry) }
{
    let one = sealed_of(alloc, one.0.0, one.1)?;
    let other = sealed_of(alloc, other.0.0, other.1)?;
    Ok(!one.same_result(&other) && !one.same_print(&other))
}

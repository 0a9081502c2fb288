//! Statements as phrases of their own.
ghost use Rattle.std.specs.Prelude.{◌≡◌, IfErr, OnOk};
ghost use Rattle.mj_tree.specs.Views.{exp_view};
ghost use Rattle.mj_phrases.specs.Phrases.{phrase, nothing, part, add_own, mistakes_step};
ghost use Rattle.mj_phrases.specs.Steps.{Proceeds, Aborts};
ghost use Rattle.mj_phrases.specs.Table.{phrase_of, name_phrase, one_part, two_parts, three_parts, condition, print, assign, store};
ghost use Rattle.mj_phrases.specs.declared.asking.Stop.TheVariants.{OutOfMemory};

use crate::asking::{Asking, Stop};
use crate::rows;
use crate::scope::Scope;
use crate::verdict::{Mistake, Verdict};
use crate::walk::{check, name_type};
use mj_tree::Exp;
use ordered_names::Name;
use std::alloc::Global;

/// The name that is assigned to, with its token and that of `=`.
#[derive(Clone, Copy)]
pub struct Target<'a> {
    /// The token of `=`.
    pub mark: usize,
    pub name: &'a Name,
    pub name_mark: usize,
}

/// Adds the mistake of a verdict, if it is one.
pub fn report<E>(mistakes: &mut Vec<Mistake>, mark: usize, verdict: Verdict) -> Result<(), Stop<E>>
    ensures err { IfErr result (λ e. e ≡ OutOfMemory) }
    ensures ok { OnOk result (mistakes.new.items ≡ add_own mistakes.old.items mark verdict) }
{
    match verdict {
        Verdict::Wrong(code) => match mistakes.push(Mistake { mark, code }) {
            Ok(()) => Ok(()),
            Err(_) => Err(Stop::OutOfMemory),
        },
        Verdict::Is(_) | Verdict::Fine | Verdict::Silent => Ok(()),
    }
}

/// Checks the condition of `if` or `while`.
#[tactic(auto, unfolding(crate::specs::Phrases::phrase_step, crate::specs::Phrases::parts_step))]
pub fn check_condition<A: Asking>(
    alloc: Global,
    asking: &mut A,
    scope: &Scope,
    mark: usize,
    value: &Exp,
    mistakes: &mut Vec<Mistake>,
) -> Result<(), Stop<A::Refusal>>
    ensures ok { OnOk result
        (Proceeds A.stands
        (mistakes_step
        (phrase mark (one_part condition)
        (part (phrase_of scope.now (exp_view value.now)) nothing))
        mistakes.old.items) asking.old mistakes.new.items asking.new) }
    ensures err { IfErr result (λ e.
        Aborts A.stands A.halts
        (mistakes_step
        (phrase mark (one_part condition)
        (part (phrase_of scope.now (exp_view value.now)) nothing))
        mistakes.old.items) asking.old e asking.new) }
    ensures follows { A.follows asking.old asking.new }
{
    match check(alloc, asking, scope, value, mistakes)? {
        Some(ty) => report(mistakes, mark, rows::condition(&ty)),
        None => Ok(()),
    }
}

/// Checks what is printed.
#[tactic(auto, unfolding(crate::specs::Phrases::phrase_step, crate::specs::Phrases::parts_step))]
pub fn check_print<A: Asking>(
    alloc: Global,
    asking: &mut A,
    scope: &Scope,
    mark: usize,
    value: &Exp,
    mistakes: &mut Vec<Mistake>,
) -> Result<(), Stop<A::Refusal>>
    ensures ok { OnOk result
        (Proceeds A.stands
        (mistakes_step
        (phrase mark (one_part print)
        (part (phrase_of scope.now (exp_view value.now)) nothing))
        mistakes.old.items) asking.old mistakes.new.items asking.new) }
    ensures err { IfErr result (λ e.
        Aborts A.stands A.halts
        (mistakes_step
        (phrase mark (one_part print)
        (part (phrase_of scope.now (exp_view value.now)) nothing))
        mistakes.old.items) asking.old e asking.new) }
    ensures follows { A.follows asking.old asking.new }
{
    match check(alloc, asking, scope, value, mistakes)? {
        Some(ty) => report(mistakes, mark, rows::print(&ty)),
        None => Ok(()),
    }
}

/// Checks `name = value`.
#[tactic(auto, unfolding(crate::specs::Phrases::phrase_step, crate::specs::Phrases::parts_step))]
pub fn check_assign<A: Asking>(
    alloc: Global,
    asking: &mut A,
    scope: &Scope,
    target: Target,
    value: &Exp,
    mistakes: &mut Vec<Mistake>,
) -> Result<(), Stop<A::Refusal>>
    ensures ok { OnOk result
        (Proceeds A.stands
        (mistakes_step
        (phrase target.entry.mark (two_parts assign)
        (part
        (name_phrase scope.now target.entry.name_mark target.entry.name.now)
        (part (phrase_of scope.now (exp_view value.now)) nothing)))
        mistakes.old.items) asking.old mistakes.new.items asking.new) }
    ensures err { IfErr result (λ e.
        Aborts A.stands A.halts
        (mistakes_step
        (phrase target.entry.mark (two_parts assign)
        (part (name_phrase scope.now target.entry.name_mark target.entry.name.now)
        (part (phrase_of scope.now (exp_view value.now)) nothing)))
        mistakes.old.items) asking.old e asking.new) }
    ensures follows { A.follows asking.old asking.new }
{
    let variable = name_type(
        alloc,
        asking,
        scope,
        target.name_mark,
        target.name,
        mistakes,
    )?;
    let value = check(alloc, asking, scope, value, mistakes)?;
    let (Some(variable), Some(value)) = (variable, value) else {
        return Ok(());
    };
    let verdict = rows::assign(alloc, asking, &variable, &value)?;
    report(mistakes, target.mark, verdict)
}

/// Checks `name[index] = value`.
#[tactic(auto, unfolding(crate::specs::Phrases::phrase_step, crate::specs::Phrases::parts_step))]
pub fn check_store<A: Asking>(
    alloc: Global,
    asking: &mut A,
    scope: &Scope,
    target: Target,
    index: &Exp,
    value: &Exp,
    mistakes: &mut Vec<Mistake>,
) -> Result<(), Stop<A::Refusal>>
    ensures ok { OnOk result
        (Proceeds A.stands
        (mistakes_step
        (phrase target.entry.mark (three_parts store)
        (part
        (name_phrase scope.now target.entry.name_mark target.entry.name.now)
        (part (phrase_of scope.now (exp_view index.now))
        (part (phrase_of scope.now (exp_view value.now)) nothing))))
        mistakes.old.items) asking.old mistakes.new.items asking.new) }
    ensures err { IfErr result (λ e.
        Aborts A.stands A.halts
        (mistakes_step
        (phrase target.entry.mark (three_parts store)
        (part (name_phrase scope.now target.entry.name_mark target.entry.name.now)
        (part (phrase_of scope.now (exp_view index.now))
        (part (phrase_of scope.now (exp_view value.now)) nothing))))
        mistakes.old.items) asking.old e asking.new) }
    ensures follows { A.follows asking.old asking.new }
{
    let array = name_type(
        alloc,
        asking,
        scope,
        target.name_mark,
        target.name,
        mistakes,
    )?;
    let index = check(alloc, asking, scope, index, mistakes)?;
    let value = check(alloc, asking, scope, value, mistakes)?;
    match (array, index, value) {
        (Some(array), Some(index), Some(value)) => {
            report(mistakes, target.mark, rows::store(&array, &index, &value))
        }
        _ => Ok(()),
    }
}

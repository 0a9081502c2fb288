//! The walk over expressions.
ghost use Rattle.std.specs.Prelude.{◌≡◌, IfOk, IfErr};
ghost use Rattle.mj_tree.specs.Views.{exp_view, exps_view};
ghost use Rattle.mj_phrases.specs.Phrases.{phrase_step, parts_step, own_step, and_type, one_type, both_types, finding_of, with_type};
ghost use Rattle.mj_phrases.specs.declared.asking.Stop.TheVariants.{OutOfMemory};
ghost use Rattle.mj_phrases.specs.Steps.{Proceeds, Aborts, Yields};
ghost use Rattle.mj_phrases.specs.Seen.{items_in};
ghost use Rattle.mj_phrases.specs.Table.{name_phrase, phrase_of, phrases_of, one_part, two_parts, some_parts, negation, binary, index as index_row, array_length, new_array, call};

use crate::asking::{Asking, Stop};
use crate::rows;
use crate::scope::Scope;
use crate::verdict::{Mistake, Verdict};
use mj_tree::{Exp, Operator, Ty};
use ordered_names::Name;
use std::alloc::{AllocError, Global};

/// Adds the mistake of a verdict, if it is one, and gives its type.
pub fn note<E>(
    mistakes: &mut Vec<Mistake>,
    mark: usize,
    verdict: Verdict,
) -> Result<Option<Ty>, Stop<E>>
    ensures err { IfErr result (λ e. e ≡ OutOfMemory) }
    ensures ok { IfOk result (λ ty.
        finding_of mistakes.old.items mark verdict
        ≡ record { type = ty; mistakes = mistakes.new.items }) }
{
    match verdict {
        Verdict::Is(ty) => Ok(Some(ty)),
        Verdict::Wrong(code) => match mistakes.push(Mistake { mark, code }) {
            Ok(()) => Ok(None),
            Err(_) => Err(Stop::OutOfMemory),
        },
        Verdict::Fine | Verdict::Silent => Ok(None),
    }
}

/// The type of a variable's name, if it is in scope; adds the mistake if it isn't.
#[tactic(auto, unfolding(crate::specs::Phrases::phrase_step, crate::specs::Phrases::parts_step))]
pub fn name_type<A: Asking>(
    alloc: Global,
    asking: &mut A,
    scope: &Scope,
    mark: usize,
    name: &Name,
    mistakes: &mut Vec<Mistake>,
) -> Result<Option<Ty>, Stop<A::Refusal>>
    ensures ok { IfOk result (λ ty.
        Proceeds A.stands (phrase_step (name_phrase scope.now mark name.now) mistakes.old.items)
        asking.old (record { type = ty; mistakes = mistakes.new.items }) asking.new) }
    ensures err { IfErr result (λ e.
        Aborts A.stands A.halts
        (phrase_step (name_phrase scope.now mark name.now) mistakes.old.items) asking.old e
        asking.new) }
    ensures follows { A.follows asking.old asking.new }
{
    let verdict = rows::variable(alloc, asking, scope, name)?;
    note(mistakes, mark, verdict)
}

/// The type of an expression, if it has one; adds the mistakes in it.
#[cycle(expressions)]
#[inline(never)]
#[tactic(auto, unfolding(crate::specs::Phrases::phrase_step, crate::specs::Phrases::parts_step))]
pub fn check<A: Asking>(
    alloc: Global,
    asking: &mut A,
    scope: &Scope,
    exp: &Exp,
    mistakes: &mut Vec<Mistake>,
) -> Result<Option<Ty>, Stop<A::Refusal>>
    ensures ok { IfOk result (λ ty.
        Proceeds A.stands
        (phrase_step (phrase_of scope.now (exp_view exp.now)) mistakes.old.items) asking.old
        (record { type = ty; mistakes = mistakes.new.items }) asking.new) }
    ensures err { IfErr result (λ e.
        Aborts A.stands A.halts
        (phrase_step (phrase_of scope.now (exp_view exp.now)) mistakes.old.items) asking.old
        e asking.new) }
    ensures follows { A.follows asking.old asking.new }
{
    match exp {
        Exp::Literal { mark, value } => note(mistakes, *mark, rows::literal(*value)),
        Exp::Boolean { .. } => Ok(Some(Ty::Boolean)),
        Exp::Variable { mark, name } => name_type(alloc, asking, scope, *mark, name, mistakes),
        Exp::This { mark } => note(mistakes, *mark, rows::this(alloc, scope)?),
        Exp::Parenthesized { inner, .. } => check(alloc, asking, scope, inner, mistakes),
        Exp::Not { mark, operand } => {
            let operand = check(alloc, asking, scope, operand, mistakes)?;
            conclude_negation(*mark, operand, mistakes)
        }
        Exp::Binary {
            operator,
            mark,
            left,
            right,
        } => {
            let left = check(alloc, asking, scope, left, mistakes)?;
            let right = check(alloc, asking, scope, right, mistakes)?;
            conclude_binary(*mark, *operator, left, right, mistakes)
        }
        Exp::Index { mark, array, index } => {
            let array = check(alloc, asking, scope, array, mistakes)?;
            let index = check(alloc, asking, scope, index, mistakes)?;
            conclude_index(*mark, array, index, mistakes)
        }
        Exp::Length { mark, array } => {
            let array = check(alloc, asking, scope, array, mistakes)?;
            conclude_length(*mark, array, mistakes)
        }
        Exp::Call {
            mark,
            receiver,
            method,
            arguments,
        } => {
            let receiver = check(alloc, asking, scope, receiver, mistakes)?;
            let types = check_all(alloc, asking, scope, arguments, mistakes)?;
            conclude_call(alloc, asking, *mark, method, receiver, types, mistakes)
        }
        Exp::NewArray { mark, length } => {
            let length = check(alloc, asking, scope, length, mistakes)?;
            conclude_new_array(*mark, length, mistakes)
        }
        Exp::NewObject { mark, class } => {
            let verdict = rows::new_object(alloc, asking, class)?;
            note(mistakes, *mark, verdict)
        }
    }
}

/// The verdict on a negation, if its operand has a type.
fn conclude_negation<E>(
    mark: usize,
    operand: Option<Ty>,
    mistakes: &mut Vec<Mistake>,
) -> Result<Option<Ty>, Stop<E>>
    ensures err { IfErr result (λ e. e ≡ OutOfMemory) }
    ensures ok { IfOk result (λ ty. Yields
        (own_step mark (one_part negation) (one_type operand mistakes.old.items))
        (record { type = ty; mistakes = mistakes.new.items })) }
{
    let Some(operand) = operand else {
        return Ok(None);
    };
    note(mistakes, mark, rows::negation(&operand))
}

/// The verdict on an array's length, if the array has a type.
fn conclude_length<E>(
    mark: usize,
    array: Option<Ty>,
    mistakes: &mut Vec<Mistake>,
) -> Result<Option<Ty>, Stop<E>>
    ensures err { IfErr result (λ e. e ≡ OutOfMemory) }
    ensures ok { IfOk result (λ ty. Yields
        (own_step mark (one_part array_length) (one_type array mistakes.old.items))
        (record { type = ty; mistakes = mistakes.new.items })) }
{
    let Some(array) = array else {
        return Ok(None);
    };
    note(mistakes, mark, rows::array_length(&array))
}

/// The verdict on a new array, if its length has a type.
fn conclude_new_array<E>(
    mark: usize,
    length: Option<Ty>,
    mistakes: &mut Vec<Mistake>,
) -> Result<Option<Ty>, Stop<E>>
    ensures err { IfErr result (λ e. e ≡ OutOfMemory) }
    ensures ok { IfOk result (λ ty. Yields
        (own_step mark (one_part new_array) (one_type length mistakes.old.items))
        (record { type = ty; mistakes = mistakes.new.items })) }
{
    let Some(length) = length else {
        return Ok(None);
    };
    note(mistakes, mark, rows::new_array(&length))
}

/// The verdict on an operator, if both operands have types.
fn conclude_binary<E>(
    mark: usize,
    operator: Operator,
    left: Option<Ty>,
    right: Option<Ty>,
    mistakes: &mut Vec<Mistake>,
) -> Result<Option<Ty>, Stop<E>>
    ensures err { IfErr result (λ e. e ≡ OutOfMemory) }
    ensures ok { IfOk result (λ ty. Yields
        (own_step mark (two_parts (binary operator)) (both_types left right mistakes.old.items))
        (record { type = ty; mistakes = mistakes.new.items })) }
{
    let (Some(left), Some(right)) = (left, right) else {
        return Ok(None);
    };
    note(mistakes, mark, rows::binary(operator, &left, &right))
}

/// The verdict on an array's element, if the array and the index have types.
fn conclude_index<E>(
    mark: usize,
    array: Option<Ty>,
    index: Option<Ty>,
    mistakes: &mut Vec<Mistake>,
) -> Result<Option<Ty>, Stop<E>>
    ensures err { IfErr result (λ e. e ≡ OutOfMemory) }
    ensures ok { IfOk result (λ ty. Yields
        (own_step mark (two_parts index_row) (both_types array index mistakes.old.items))
        (record { type = ty; mistakes = mistakes.new.items })) }
{
    let (Some(array), Some(index)) = (array, index) else {
        return Ok(None);
    };
    note(mistakes, mark, rows::index(&array, &index))
}

/// The verdict on a call, if all its parts have types.
fn conclude_call<A: Asking>(
    alloc: Global,
    asking: &mut A,
    mark: usize,
    method: &Name,
    receiver: Option<Ty>,
    types: Option<Vec<Ty>>,
    mistakes: &mut Vec<Mistake>,
) -> Result<Option<Ty>, Stop<A::Refusal>>
    ensures ok { IfOk result (λ ty.
        Proceeds A.stands
        (own_step mark (some_parts (call method.now))
        (record { type = and_type receiver (items_in types); mistakes = mistakes.old.items }))
        asking.old (record { type = ty; mistakes = mistakes.new.items }) asking.new) }
    ensures err { IfErr result (λ e.
        Aborts A.stands A.halts
        (own_step mark (some_parts (call method.now))
        (record { type = and_type receiver (items_in types); mistakes = mistakes.old.items }))
        asking.old e asking.new) }
    ensures follows { A.follows asking.old asking.new }
{
    let (Some(receiver), Some(types)) = (receiver, types) else {
        return Ok(None);
    };
    let verdict = rows::call(alloc, asking, method, &receiver, &types)?;
    note(mistakes, mark, verdict)
}

/// These types and one more, if all are there.
fn with_type(types: Option<Vec<Ty>>, ty: Option<Ty>) -> Result<Option<Vec<Ty>>, AllocError>
    ensures { IfOk result (λ all. items_in all ≡ with_type (items_in types) ty) }
{
    let (Some(mut types), Some(ty)) = (types, ty) else {
        return Ok(None);
    };
    types.push(ty)?;
    Ok(Some(types))
}

/// The types of these, if all have one; adds the mistakes in them.
#[cycle(expressions)]
#[inline(never)]
fn check_all<A: Asking>(
    alloc: Global,
    asking: &mut A,
    scope: &Scope,
    exps: &Vec<Exp>,
    mistakes: &mut Vec<Mistake>,
) -> Result<Option<Vec<Ty>>, Stop<A::Refusal>>
    ensures ok { IfOk result (λ types.
        Proceeds A.stands
        (parts_step (phrases_of scope.now (exps_view exps.now.items)) mistakes.old.items)
        asking.old (record { type = items_in types; mistakes = mistakes.new.items })
        asking.new) }
    ensures err { IfErr result (λ e.
        Aborts A.stands A.halts
        (parts_step (phrases_of scope.now (exps_view exps.now.items)) mistakes.old.items)
        asking.old e asking.new) }
    ensures follows { A.follows asking.old asking.new }
{
    let mut types = Some(Vec::new(alloc));
    for exp in exps {
        let ty = check(alloc, asking, scope, exp, mistakes)?;
        types = with_type(types, ty)?;
    }
    Ok(types)
}

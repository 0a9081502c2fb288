//! The verdict on each phrase, by the types of its parts.
ghost use Rattle.std.specs.Prelude.{◌≡◌, length, IfOk, IfErr};
ghost use Rattle.mj_phrases.specs.Inquiries.{Concludes, and_then};
ghost use Rattle.mj_phrases.specs.Steps.{Proceeds, Aborts};
ghost use Rattle.mj_phrases.specs.Table.{is_accepted, are_accepted, literal, field_row, variable, this, negation, binary, index, array_length, arguments, call, new_array, new_object, condition, print, assign, store, return_value};

use crate::asking::{Asking, MethodSignature, Stop};
use crate::scope::Scope;
use crate::types::{is_boolean, is_int, is_int_array};
use crate::verdict::Verdict;
use mj_answer::Code;
use mj_tree::{Operator, Ty};
use ordered_names::Name;
use std::alloc::{AllocError, Global};

/// The greatest value of `int`.
const GREATEST_VALUE: u32 = 2147483647;

/// The type of a literal, if its value fits.
#[tactic(auto, unfolding(crate::specs::Table::literal))]
pub fn literal(value: u32) -> Verdict
    ensures { literal value ≡ Concludes result }
{
    if value <= GREATEST_VALUE {
        Verdict::Is(Ty::Int)
    } else {
        Verdict::Wrong(Code::E315)
    }
}

#[tactic(auto, unfolding(crate::specs::Table::negation))]
pub fn negation(operand: &Ty) -> Verdict
    ensures { negation operand.now ≡ Concludes result }
{
    if is_boolean(operand) {
        Verdict::Is(Ty::Boolean)
    } else {
        Verdict::Wrong(Code::E301)
    }
}

#[tactic(auto, unfolding(crate::specs::Table::binary))]
pub fn binary(operator: Operator, left: &Ty, right: &Ty) -> Verdict
    ensures { binary operator left.now right.now ≡ Concludes result }
{
    let (holds, code, ty) = match operator {
        Operator::And => (
            is_boolean(left) && is_boolean(right),
            Code::E301,
            Ty::Boolean,
        ),
        Operator::Less => (is_int(left) && is_int(right), Code::E302, Ty::Boolean),
        Operator::Plus | Operator::Minus | Operator::Times => {
            (is_int(left) && is_int(right), Code::E304, Ty::Int)
        }
    };
    if holds {
        Verdict::Is(ty)
    } else {
        Verdict::Wrong(code)
    }
}

#[tactic(auto, unfolding(crate::specs::Table::index))]
pub fn index(array: &Ty, at: &Ty) -> Verdict
    ensures { index array.now at.now ≡ Concludes result }
{
    if !is_int_array(array) {
        Verdict::Wrong(Code::E307)
    } else if !is_int(at) {
        Verdict::Wrong(Code::E308)
    } else {
        Verdict::Is(Ty::Int)
    }
}

#[tactic(auto, unfolding(crate::specs::Table::array_length))]
pub fn array_length(array: &Ty) -> Verdict
    ensures { array_length array.now ≡ Concludes result }
{
    if is_int_array(array) {
        Verdict::Is(Ty::Int)
    } else {
        Verdict::Wrong(Code::E309)
    }
}

#[tactic(auto, unfolding(crate::specs::Table::new_array))]
pub fn new_array(length: &Ty) -> Verdict
    ensures { new_array length.now ≡ Concludes result }
{
    if is_int(length) {
        Verdict::Is(Ty::IntArray)
    } else {
        Verdict::Wrong(Code::E314)
    }
}

/// The verdict on the condition of `if` or `while`.
#[tactic(auto, unfolding(crate::specs::Table::condition))]
pub fn condition(value: &Ty) -> Verdict
    ensures { condition value.now ≡ Concludes result }
{
    if is_boolean(value) {
        Verdict::Fine
    } else {
        Verdict::Wrong(Code::E316)
    }
}

/// The verdict on what is printed.
#[tactic(auto, unfolding(crate::specs::Table::print))]
pub fn print(value: &Ty) -> Verdict
    ensures { print value.now ≡ Concludes result }
{
    if is_int(value) {
        Verdict::Fine
    } else {
        Verdict::Wrong(Code::E317)
    }
}

/// The verdict on an assignment to an element of an array.
#[tactic(auto, unfolding(crate::specs::Table::store))]
pub fn store(array: &Ty, at: &Ty, value: &Ty) -> Verdict
    ensures { store array.now at.now value.now ≡ Concludes result }
{
    if !is_int_array(array) {
        Verdict::Wrong(Code::E307)
    } else if !is_int(at) {
        Verdict::Wrong(Code::E308)
    } else if !is_int(value) {
        Verdict::Wrong(Code::E318)
    } else {
        Verdict::Fine
    }
}

/// Whether the first type is accepted by the second.
#[tactic(auto, unfolding(crate::specs::Table::is_accepted))]
fn is_accepted<A: Asking>(
    alloc: Global,
    asking: &mut A,
    ty: &Ty,
    wanted: &Ty,
) -> Result<bool, Stop<A::Refusal>>
    ensures ok { IfOk result (λ b.
        Proceeds A.stands (and_then (is_accepted ty.now wanted.now)) asking.old b asking.new) }
    ensures err { IfErr result (λ e.
        Aborts A.stands A.halts (and_then (is_accepted ty.now wanted.now))
        asking.old e asking.new) }
    ensures follows { A.follows asking.old asking.new }
{
    match (ty, wanted) {
        (Ty::Class(class), Ty::Class(ancestor)) => {
            if class == ancestor {
                Ok(true)
            } else {
                asking.descends(alloc, class, ancestor)
            }
        }
        (Ty::Class(_), _) => Ok(false),
        (Ty::Int, _) => Ok(is_int(wanted)),
        (Ty::Boolean, _) => Ok(is_boolean(wanted)),
        (Ty::IntArray, _) => Ok(is_int_array(wanted)),
    }
}

/// Whether each of these types is accepted by its formal, up to the first that isn't.
fn are_accepted<A: Asking>(
    alloc: Global,
    asking: &mut A,
    types: &[Ty],
    formals: &[Ty],
) -> Result<bool, Stop<A::Refusal>>
    requires { length types.now ≡ length formals.now }
    ensures ok { IfOk result (λ b.
        Proceeds A.stands (and_then (are_accepted types.now formals.now)) asking.old b
        asking.new) }
    ensures err { IfErr result (λ e.
        Aborts A.stands A.halts (and_then (are_accepted types.now formals.now)) asking.old e
        asking.new) }
    ensures follows { A.follows asking.old asking.new }
{
    for (n, ty) in types.iter().enumerate() {
        if !is_accepted(alloc, asking, ty, &formals[n])? {
            return Ok(false);
        }
    }
    Ok(true)
}

/// The verdict on a call of a method, by the types of its arguments.
fn arguments<A: Asking>(
    alloc: Global,
    asking: &mut A,
    method: &A::Method,
    types: &[Ty],
) -> Result<Verdict, Stop<A::Refusal>>
    ensures ok { IfOk result (λ v.
        Proceeds A.stands (and_then (arguments (A.Method.sig method.now) types.now)) asking.old v
        asking.new) }
    ensures err { IfErr result (λ e.
        Aborts A.stands A.halts (and_then (arguments (A.Method.sig method.now) types.now))
        asking.old e asking.new) }
    ensures follows { A.follows asking.old asking.new }
{
    let formals = method.formals();
    if types.len() != formals.len() {
        return Ok(Verdict::Wrong(Code::E312));
    }
    if !are_accepted(alloc, asking, types, formals)? {
        return Ok(Verdict::Wrong(Code::E313));
    }
    Ok(Verdict::Is(method.returns().copy(alloc)?))
}

#[tactic(auto, unfolding(crate::specs::Table::call))]
pub fn call<A: Asking>(
    alloc: Global,
    asking: &mut A,
    method: &Name,
    receiver: &Ty,
    types: &[Ty],
) -> Result<Verdict, Stop<A::Refusal>>
    ensures ok { IfOk result (λ v.
        Proceeds A.stands (and_then (call method.now receiver.now types.now)) asking.old v
        asking.new) }
    ensures err { IfErr result (λ e.
        Aborts A.stands A.halts (and_then (call method.now receiver.now types.now)) asking.old e
        asking.new) }
    ensures follows { A.follows asking.old asking.new }
{
    let Ty::Class(class) = receiver else {
        return Ok(Verdict::Wrong(Code::E310));
    };
    let Some(found) = asking.method(alloc, class, method)? else {
        return Ok(Verdict::Wrong(Code::E311));
    };
    arguments(alloc, asking, &found, types)
}

/// The type of a field, if there is one.
fn field_type(found: Option<Ty>) -> Verdict
    ensures { field_row found ≡ Concludes result }
{
    match found {
        Some(ty) => Verdict::Is(ty),
        None => Verdict::Wrong(Code::E303),
    }
}

#[tactic(auto, unfolding(crate::specs::Table::variable))]
pub fn variable<A: Asking>(
    alloc: Global,
    asking: &mut A,
    scope: &Scope,
    name: &Name,
) -> Result<Verdict, Stop<A::Refusal>>
    ensures ok { IfOk result (λ v.
        Proceeds A.stands (and_then (variable scope.now name.now)) asking.old v asking.new) }
    ensures err { IfErr result (λ e.
        Aborts A.stands A.halts (and_then (variable scope.now name.now)) asking.old e asking.new) }
    ensures follows { A.follows asking.old asking.new }
{
    if let Some(ty) = scope.local(name) {
        return Ok(Verdict::Is(ty.copy(alloc)?));
    }
    let Some(class) = scope.class() else {
        return Ok(Verdict::Wrong(Code::E303));
    };
    let found = asking.field(alloc, class, name)?;
    Ok(field_type(found))
}

#[tactic(auto, unfolding(crate::specs::Table::this))]
pub fn this(alloc: Global, scope: &Scope) -> Result<Verdict, AllocError>
    ensures { IfOk result (λ v. this scope.now ≡ Concludes v) }
{
    match scope.class() {
        Some(class) => Ok(Verdict::Is(Ty::Class(class.copy(alloc)?))),
        None => Ok(Verdict::Wrong(Code::E306)),
    }
}

#[tactic(auto, unfolding(crate::specs::Table::new_object))]
pub fn new_object<A: Asking>(
    alloc: Global,
    asking: &mut A,
    class: &Name,
) -> Result<Verdict, Stop<A::Refusal>>
    ensures ok { IfOk result (λ v.
        Proceeds A.stands (and_then (new_object class.now)) asking.old v asking.new) }
    ensures err { IfErr result (λ e.
        Aborts A.stands A.halts (and_then (new_object class.now)) asking.old e asking.new) }
    ensures follows { A.follows asking.old asking.new }
{
    if !asking.is_declared(alloc, class)? {
        return Ok(Verdict::Wrong(Code::E305));
    }
    Ok(Verdict::Is(Ty::Class(class.copy(alloc)?)))
}

/// The verdict on an assignment.
pub fn assign<A: Asking>(
    alloc: Global,
    asking: &mut A,
    target: &Ty,
    value: &Ty,
) -> Result<Verdict, Stop<A::Refusal>>
    ensures ok { IfOk result (λ v.
        Proceeds A.stands (and_then (assign target.now value.now)) asking.old v asking.new) }
    ensures err { IfErr result (λ e.
        Aborts A.stands A.halts (and_then (assign target.now value.now)) asking.old e
        asking.new) }
    ensures follows { A.follows asking.old asking.new }
{
    if is_accepted(alloc, asking, value, target)? {
        Ok(Verdict::Fine)
    } else {
        Ok(Verdict::Wrong(Code::E318))
    }
}

/// The verdict on a return.
pub fn return_value<A: Asking>(
    alloc: Global,
    asking: &mut A,
    wanted: &Ty,
    value: &Ty,
) -> Result<Verdict, Stop<A::Refusal>>
    ensures ok { IfOk result (λ v.
        Proceeds A.stands (and_then (return_value wanted.now value.now)) asking.old v asking.new) }
    ensures err { IfErr result (λ e.
        Aborts A.stands A.halts (and_then (return_value wanted.now value.now)) asking.old e
        asking.new) }
    ensures follows { A.follows asking.old asking.new }
{
    if is_accepted(alloc, asking, value, wanted)? {
        Ok(Verdict::Fine)
    } else {
        Ok(Verdict::Wrong(Code::E319))
    }
}

//! Expressions made of their parts.
ghost use Rattle.std.specs.Prelude.{◌≡◌, IfOk};
ghost use Rattle.mj_tree.specs.Trees as trees;
ghost use Rattle.mj_tree.specs.Views.{exp_view, exps_view};

use mj_tree::{Exp, Operator};
use ordered_names::Name;
use std::alloc::{AllocError, Global};

pub fn binary(
    alloc: Global,
    operator: Operator,
    mark: usize,
    left: Exp,
    right: Exp,
) -> Result<Exp, AllocError>
    ensures { IfOk result (λ e.
        exp_view e ≡ trees.Binary operator mark (exp_view left) (exp_view right)) }
{
    Ok(Exp::Binary {
        operator,
        mark,
        left: Box::new(alloc, left)?,
        right: Box::new(alloc, right)?,
    })
}

pub fn index(alloc: Global, mark: usize, array: Exp, index: Exp) -> Result<Exp, AllocError>
    ensures { IfOk result (λ e. exp_view e ≡ trees.Index mark (exp_view array) (exp_view index)) }
{
    Ok(Exp::Index {
        mark,
        array: Box::new(alloc, array)?,
        index: Box::new(alloc, index)?,
    })
}

pub fn length(alloc: Global, mark: usize, array: Exp) -> Result<Exp, AllocError>
    ensures { IfOk result (λ e. exp_view e ≡ trees.Length mark (exp_view array)) }
{
    Ok(Exp::Length {
        mark,
        array: Box::new(alloc, array)?,
    })
}

pub fn call(
    alloc: Global,
    mark: usize,
    receiver: Exp,
    method: &Name,
    arguments: Vec<Exp>,
) -> Result<Exp, AllocError>
    ensures { IfOk result (λ e.
        exp_view e ≡ trees.Call mark (exp_view receiver) method.now (exps_view arguments.items)) }
{
    Ok(Exp::Call {
        mark,
        receiver: Box::new(alloc, receiver)?,
        method: method.copy(alloc)?,
        arguments,
    })
}

pub fn literal(mark: usize, value: u32) -> Exp
    ensures { exp_view result ≡ trees.Literal mark value }
{
    Exp::Literal { mark, value }
}

pub fn boolean(mark: usize, value: bool) -> Exp
    ensures { exp_view result ≡ trees.Boolean mark value }
{
    Exp::Boolean { mark, value }
}

pub fn variable(alloc: Global, mark: usize, name: &Name) -> Result<Exp, AllocError>
    ensures { IfOk result (λ e. exp_view e ≡ trees.Named mark name.now) }
{
    Ok(Exp::Variable {
        mark,
        name: name.copy(alloc)?,
    })
}

pub fn this(mark: usize) -> Exp
    ensures { exp_view result ≡ trees.This mark }
{
    Exp::This { mark }
}

pub fn new_array(alloc: Global, mark: usize, length: Exp) -> Result<Exp, AllocError>
    ensures { IfOk result (λ e. exp_view e ≡ trees.NewArray mark (exp_view length)) }
{
    Ok(Exp::NewArray {
        mark,
        length: Box::new(alloc, length)?,
    })
}

pub fn new_object(alloc: Global, mark: usize, class: &Name) -> Result<Exp, AllocError>
    ensures { IfOk result (λ e. exp_view e ≡ trees.NewObject mark class.now) }
{
    Ok(Exp::NewObject {
        mark,
        class: class.copy(alloc)?,
    })
}

pub fn not(alloc: Global, mark: usize, operand: Exp) -> Result<Exp, AllocError>
    ensures { IfOk result (λ e. exp_view e ≡ trees.Not mark (exp_view operand)) }
{
    Ok(Exp::Not {
        mark,
        operand: Box::new(alloc, operand)?,
    })
}

pub fn parentheses(alloc: Global, mark: usize, inner: Exp) -> Result<Exp, AllocError>
    ensures { IfOk result (λ e. exp_view e ≡ trees.Parenthesized mark (exp_view inner)) }
{
    Ok(Exp::Parenthesized {
        mark,
        inner: Box::new(alloc, inner)?,
    })
}

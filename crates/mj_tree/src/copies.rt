//! Copies of trees. Contracts compare trees by their views.
ghost use Rattle.std.specs.Prelude.{◌≡◌, IfOk, map};
ghost use Rattle.mj_tree.specs.Trees as trees;
ghost use Rattle.mj_tree.specs.Views.{exp_view, exps_view, stmt_view, stmts_view, method_view};

use crate::tree::{Exp, MethodTree, Operator, Stmt, Variable};
use ordered_names::Name;
use std::alloc::{AllocError, Global};

impl Exp {
    /// An equal expression.
    pub fn copy(&self, alloc: Global) -> Result<Exp, AllocError>
        ensures { IfOk result (λ copy. exp_view copy ≡ exp_view self.now) }
    {
        copy_exp(alloc, self)
    }
}

impl Stmt {
    /// An equal statement.
    pub fn copy(&self, alloc: Global) -> Result<Stmt, AllocError>
        ensures { IfOk result (λ copy. stmt_view copy ≡ stmt_view self.now) }
    {
        copy_stmt(alloc, self)
    }
}

impl MethodTree {
    /// An equal method.
    pub fn copy(&self, alloc: Global) -> Result<MethodTree, AllocError>
        ensures { IfOk result (λ copy. method_view copy ≡ method_view self.now) }
    {
        let body = copy_stmts(alloc, &self.body)?;
        let returned = self.returned.copy(alloc)?;
        copy_with_phrases(alloc, self, body, returned)
    }
}

/// The method with these phrases for its own, which are equal to them.
fn copy_with_phrases(
    alloc: Global,
    method: &MethodTree,
    body: Vec<Stmt>,
    returned: Exp,
) -> Result<MethodTree, AllocError>
    requires body { map stmt_view body.items ≡ map stmt_view method.now.body.items }
    requires returned { exp_view returned ≡ exp_view method.now.returned }
    ensures { IfOk result (λ copy. method_view copy ≡ method_view method.now) }
{
    let formals = copy_variables(alloc, &method.formals)?;
    let locals = copy_variables(alloc, &method.locals)?;
    Ok(MethodTree {
        name: method.name.copy(alloc)?,
        returns: method.returns.copy(alloc)?,
        formals,
        locals,
        body,
        returned,
        return_mark: method.return_mark,
    })
}

fn copy_variables(alloc: Global, variables: &[Variable]) -> Result<Vec<Variable>, AllocError>
    ensures { IfOk result (λ copies. copies.items ≡ variables.now) }
{
    let mut copies = Vec::new(alloc);
    for variable in variables {
        copies.push(variable.copy(alloc)?)?;
    }
    Ok(copies)
}

#[cycle(copy_expressions)]
#[inline(never)]
fn copy_exp(alloc: Global, e: &Exp) -> Result<Exp, AllocError>
    ensures { IfOk result (λ copy. exp_view copy ≡ exp_view e.now) }
{
    match e {
        Exp::Binary {
            operator,
            mark,
            left,
            right,
        } => copy_binary(alloc, *operator, *mark, left, right),
        Exp::Index { mark, array, index } => copy_index(alloc, *mark, array, index),
        Exp::Length { mark, array } => Ok(Exp::Length {
            mark: *mark,
            array: copy_boxed(alloc, array)?,
        }),
        Exp::Call {
            mark,
            receiver,
            method,
            arguments,
        } => copy_call(alloc, *mark, receiver, method, arguments),
        Exp::Literal { mark, value } => Ok(Exp::Literal {
            mark: *mark,
            value: *value,
        }),
        Exp::Boolean { mark, value } => Ok(Exp::Boolean {
            mark: *mark,
            value: *value,
        }),
        Exp::Variable { mark, name } => Ok(Exp::Variable {
            mark: *mark,
            name: name.copy(alloc)?,
        }),
        Exp::This { mark } => Ok(Exp::This { mark: *mark }),
        Exp::NewArray { mark, length } => Ok(Exp::NewArray {
            mark: *mark,
            length: copy_boxed(alloc, length)?,
        }),
        Exp::NewObject { mark, class } => Ok(Exp::NewObject {
            mark: *mark,
            class: class.copy(alloc)?,
        }),
        Exp::Not { mark, operand } => Ok(Exp::Not {
            mark: *mark,
            operand: copy_boxed(alloc, operand)?,
        }),
        Exp::Parenthesized { mark, inner } => Ok(Exp::Parenthesized {
            mark: *mark,
            inner: copy_boxed(alloc, inner)?,
        }),
    }
}

#[cycle(copy_expressions)]
#[inline(never)]
fn copy_boxed(alloc: Global, part: &Exp) -> Result<Box<Exp>, AllocError>
    ensures { IfOk result (λ copy. exp_view copy.value ≡ exp_view part.now) }
{
    Ok(Box::new(alloc, copy_exp(alloc, part)?)?)
}

#[cycle(copy_expressions)]
#[inline(never)]
fn copy_binary(
    alloc: Global,
    operator: Operator,
    mark: usize,
    left: &Exp,
    right: &Exp,
) -> Result<Exp, AllocError>
    ensures { IfOk result (λ copy.
        exp_view copy ≡ trees.Binary operator mark (exp_view left.now) (exp_view right.now)) }
{
    Ok(Exp::Binary {
        operator,
        mark,
        left: copy_boxed(alloc, left)?,
        right: copy_boxed(alloc, right)?,
    })
}

#[cycle(copy_expressions)]
#[inline(never)]
fn copy_index(alloc: Global, mark: usize, array: &Exp, index: &Exp) -> Result<Exp, AllocError>
    ensures { IfOk result (λ copy.
        exp_view copy ≡ trees.Index mark (exp_view array.now) (exp_view index.now)) }
{
    Ok(Exp::Index {
        mark,
        array: copy_boxed(alloc, array)?,
        index: copy_boxed(alloc, index)?,
    })
}

#[cycle(copy_expressions)]
#[inline(never)]
fn copy_call(
    alloc: Global,
    mark: usize,
    receiver: &Exp,
    method: &Name,
    arguments: &[Exp],
) -> Result<Exp, AllocError>
    ensures { IfOk result (λ copy.
        exp_view copy
        ≡ trees.Call mark (exp_view receiver.now) method.now (exps_view arguments.now)) }
{
    let arguments = copy_exps(alloc, arguments)?;
    Ok(Exp::Call {
        mark,
        receiver: copy_boxed(alloc, receiver)?,
        method: method.copy(alloc)?,
        arguments,
    })
}

#[cycle(copy_expressions)]
#[inline(never)]
fn copy_exps(alloc: Global, es: &[Exp]) -> Result<Vec<Exp>, AllocError>
    ensures { IfOk result (λ copies. map exp_view copies.items ≡ map exp_view es.now) }
{
    let mut copies = Vec::new(alloc);
    for e in es {
        copies.push(copy_exp(alloc, e)?)?;
    }
    Ok(copies)
}

#[cycle(copy_statements)]
#[inline(never)]
fn copy_stmt(alloc: Global, s: &Stmt) -> Result<Stmt, AllocError>
    ensures { IfOk result (λ copy. stmt_view copy ≡ stmt_view s.now) }
{
    match s {
        Stmt::Block { mark, body } => copy_block(alloc, *mark, body),
        Stmt::If {
            mark,
            condition,
            then_branch,
            else_branch,
        } => copy_if(alloc, *mark, condition, then_branch, else_branch),
        Stmt::While {
            mark,
            condition,
            body,
        } => copy_while(alloc, *mark, condition, body),
        Stmt::Print { mark, value } => Ok(Stmt::Print {
            mark: *mark,
            value: value.copy(alloc)?,
        }),
        Stmt::Assign {
            mark,
            name,
            name_mark,
            value,
        } => Ok(Stmt::Assign {
            mark: *mark,
            name: name.copy(alloc)?,
            name_mark: *name_mark,
            value: value.copy(alloc)?,
        }),
        Stmt::Store {
            mark,
            name,
            name_mark,
            index,
            value,
        } => Ok(Stmt::Store {
            mark: *mark,
            name: name.copy(alloc)?,
            name_mark: *name_mark,
            index: index.copy(alloc)?,
            value: value.copy(alloc)?,
        }),
    }
}

#[cycle(copy_statements)]
#[inline(never)]
fn copy_block(alloc: Global, mark: usize, body: &[Stmt]) -> Result<Stmt, AllocError>
    ensures { IfOk result (λ copy. stmt_view copy ≡ trees.Block mark (stmts_view body.now)) }
{
    Ok(Stmt::Block {
        mark,
        body: copy_stmts(alloc, body)?,
    })
}

#[cycle(copy_statements)]
#[inline(never)]
fn copy_if(
    alloc: Global,
    mark: usize,
    condition: &Exp,
    then_branch: &Stmt,
    else_branch: &Stmt,
) -> Result<Stmt, AllocError>
    ensures { IfOk result (λ copy.
        stmt_view copy
        ≡ trees.If mark (exp_view condition.now) (stmt_view then_branch.now)
        (stmt_view else_branch.now)) }
{
    Ok(Stmt::If {
        mark,
        condition: condition.copy(alloc)?,
        then_branch: copy_branch(alloc, then_branch)?,
        else_branch: copy_branch(alloc, else_branch)?,
    })
}

#[cycle(copy_statements)]
#[inline(never)]
fn copy_while(alloc: Global, mark: usize, condition: &Exp, body: &Stmt) -> Result<Stmt, AllocError>
    ensures { IfOk result (λ copy.
        stmt_view copy ≡ trees.While mark (exp_view condition.now) (stmt_view body.now)) }
{
    Ok(Stmt::While {
        mark,
        condition: condition.copy(alloc)?,
        body: copy_branch(alloc, body)?,
    })
}

#[cycle(copy_statements)]
#[inline(never)]
fn copy_branch(alloc: Global, part: &Stmt) -> Result<Box<Stmt>, AllocError>
    ensures { IfOk result (λ copy. stmt_view copy.value ≡ stmt_view part.now) }
{
    Ok(Box::new(alloc, copy_stmt(alloc, part)?)?)
}

#[cycle(copy_statements)]
#[inline(never)]
fn copy_stmts(alloc: Global, ss: &[Stmt]) -> Result<Vec<Stmt>, AllocError>
    ensures { IfOk result (λ copies. map stmt_view copies.items ≡ map stmt_view ss.now) }
{
    let mut copies = Vec::new(alloc);
    for s in ss {
        copies.push(copy_stmt(alloc, s)?)?;
    }
    Ok(copies)
}

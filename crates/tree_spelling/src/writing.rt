//! Writing phrases and methods.
ghost use Rattle.std.specs.Prelude.{◌≡◌, ◌++◌, ◌∷◌, OnOk};
ghost use Rattle.mj_tree.specs.Trees.{Call, If, While, Assign, Store};
ghost use Rattle.mj_tree.specs.Views.{exp_view, exps_view, stmt_view, stmts_view, method_view};
ghost use Rattle.byte_readers.specs.Spelling.{name, four, eight};
ghost use Rattle.tree_spelling.specs.Tags.{operator_byte, boolean_byte};
ghost use Rattle.tree_spelling.specs.Spelling.{node, exp, exps, stmt, stmts, count_exps, count_stmts, method};

use crate::types::put_ty;
use crate::variables::VariableFormat;
use byte_readers::{put_eight, put_four, put_list, put_name};
use mj_tree::{Exp, MethodTree, Operator, Stmt};
use ordered_names::Name;
use std::alloc::AllocError;

fn operator_byte(operator: Operator) -> u8
    ensures { result ≡ operator_byte operator }
{
    match operator {
        Operator::And => 0x00,
        Operator::Less => 0x01,
        Operator::Plus => 0x02,
        Operator::Minus => 0x03,
        Operator::Times => 0x04,
    }
}

fn boolean_byte(value: bool) -> u8
    ensures { result ≡ boolean_byte value }
{
    if value { 0x09 } else { 0x0a }
}

/// Writes the tag and the mark of a phrase.
fn put_node(out: &mut Vec<u8>, tag: u8, mark: usize) -> Result<(), AllocError>
    ensures { OnOk result (out.new.items ≡ out.old.items ++ tag ∷ four mark) }
{
    out.push(tag)?;
    put_four(out, mark)
}

#[cycle(put_expressions)]
fn put_exp(out: &mut Vec<u8>, e: &Exp) -> Result<(), AllocError>
    ensures { OnOk result (out.new.items ≡ out.old.items ++ exp (exp_view e.now)) }
{
    match e {
        Exp::Binary {
            operator,
            mark,
            left,
            right,
        } => put_two_parts(out, operator_byte(*operator), *mark, left, right),
        Exp::Index { mark, array, index } => put_two_parts(out, 0x05, *mark, array, index),
        Exp::Length { mark, array } => put_one_part(out, 0x06, *mark, array),
        Exp::Call {
            mark,
            receiver,
            method,
            arguments,
        } => put_call(out, *mark, receiver, method, arguments),
        Exp::Literal { mark, value } => put_literal(out, *mark, *value),
        Exp::Boolean { mark, value } => put_node(out, boolean_byte(*value), *mark),
        Exp::Variable { mark, name } => put_named(out, 0x0b, *mark, name),
        Exp::This { mark } => put_node(out, 0x0c, *mark),
        Exp::NewArray { mark, length } => put_one_part(out, 0x0d, *mark, length),
        Exp::NewObject { mark, class } => put_named(out, 0x0e, *mark, class),
        Exp::Not { mark, operand } => put_one_part(out, 0x0f, *mark, operand),
        Exp::Parenthesized { mark, inner } => put_one_part(out, 0x10, *mark, inner),
    }
}

#[cycle(put_expressions)]
fn put_two_parts(
    out: &mut Vec<u8>,
    tag: u8,
    mark: usize,
    first: &Exp,
    second: &Exp,
) -> Result<(), AllocError>
    ensures { OnOk result
        (out.new.items
        ≡ out.old.items
        ++ node tag mark (exp (exp_view first.now) ++ exp (exp_view second.now))) }
{
    put_node(out, tag, mark)?;
    put_exp(out, first)?;
    put_exp(out, second)
}

#[cycle(put_expressions)]
fn put_one_part(out: &mut Vec<u8>, tag: u8, mark: usize, part: &Exp) -> Result<(), AllocError>
    ensures { OnOk result
        (out.new.items ≡ out.old.items ++ node tag mark (exp (exp_view part.now))) }
{
    put_node(out, tag, mark)?;
    put_exp(out, part)
}

#[cycle(put_expressions)]
fn put_call(
    out: &mut Vec<u8>,
    mark: usize,
    receiver: &Exp,
    method: &Name,
    arguments: &[Exp],
) -> Result<(), AllocError>
    ensures { OnOk result
        (out.new.items
        ≡ out.old.items
        ++ exp
        (Call mark (exp_view receiver.now) method.now
        (exps_view arguments.now))) }
{
    put_node(out, 0x07, mark)?;
    put_exp(out, receiver)?;
    put_name(out, method)?;
    put_arguments(out, arguments)
}

/// Writes the number of arguments, and the arguments.
#[cycle(put_expressions)]
fn put_arguments(out: &mut Vec<u8>, es: &[Exp]) -> Result<(), AllocError>
    ensures { OnOk result
        (out.new.items
        ≡ out.old.items
        ++ (eight (count_exps (exps_view es.now)) ++ exps (exps_view es.now))) }
{
    put_eight(out, es.len())?;
    put_exps(out, es)
}

fn put_literal(out: &mut Vec<u8>, mark: usize, value: u32) -> Result<(), AllocError>
    ensures { OnOk result (out.new.items ≡ out.old.items ++ node 0x08 mark (four value)) }
{
    put_node(out, 0x08, mark)?;
    put_four(out, value as usize)
}

fn put_named(out: &mut Vec<u8>, tag: u8, mark: usize, text: &Name) -> Result<(), AllocError>
    ensures { OnOk result (out.new.items ≡ out.old.items ++ node tag mark (name text.now)) }
{
    put_node(out, tag, mark)?;
    put_name(out, text)
}

#[cycle(put_expressions)]
fn put_exps(out: &mut Vec<u8>, es: &[Exp]) -> Result<(), AllocError>
    ensures { OnOk result (out.new.items ≡ out.old.items ++ exps (exps_view es.now)) }
{
    for e in es {
        put_exp(out, e)?;
    }
    Ok(())
}

#[cycle(put_statements)]
fn put_stmt(out: &mut Vec<u8>, s: &Stmt) -> Result<(), AllocError>
    ensures { OnOk result (out.new.items ≡ out.old.items ++ stmt (stmt_view s.now)) }
{
    match s {
        Stmt::Block { mark, body } => {
            put_node(out, 0x00, *mark)?;
            put_body(out, body)
        }
        Stmt::If {
            mark,
            condition,
            then_branch,
            else_branch,
        } => put_if(out, *mark, condition, then_branch, else_branch),
        Stmt::While {
            mark,
            condition,
            body,
        } => put_while(out, *mark, condition, body),
        Stmt::Print { mark, value } => put_one_part(out, 0x03, *mark, value),
        Stmt::Assign {
            mark,
            name,
            name_mark,
            value,
        } => put_assign(out, *mark, name, *name_mark, value),
        Stmt::Store {
            mark,
            name,
            name_mark,
            index,
            value,
        } => put_store(out, *mark, name, *name_mark, index, value),
    }
}

#[cycle(put_statements)]
fn put_if(
    out: &mut Vec<u8>,
    mark: usize,
    condition: &Exp,
    then_branch: &Stmt,
    else_branch: &Stmt,
) -> Result<(), AllocError>
    ensures { OnOk result
        (out.new.items
        ≡ out.old.items
        ++ stmt
        (If mark (exp_view condition.now) (stmt_view then_branch.now)
        (stmt_view else_branch.now))) }
{
    put_one_part(out, 0x01, mark, condition)?;
    put_stmt(out, then_branch)?;
    put_stmt(out, else_branch)
}

#[cycle(put_statements)]
fn put_while(out: &mut Vec<u8>, mark: usize, condition: &Exp, body: &Stmt) -> Result<(), AllocError>
    ensures { OnOk result
        (out.new.items
        ≡ out.old.items ++ stmt (While mark (exp_view condition.now) (stmt_view body.now))) }
{
    put_one_part(out, 0x02, mark, condition)?;
    put_stmt(out, body)
}

fn put_assign(
    out: &mut Vec<u8>,
    mark: usize,
    variable: &Name,
    name_mark: usize,
    value: &Exp,
) -> Result<(), AllocError>
    ensures { OnOk result
        (out.new.items
        ≡ out.old.items ++ stmt (Assign mark variable.now name_mark (exp_view value.now))) }
{
    put_named(out, 0x04, mark, variable)?;
    put_four(out, name_mark)?;
    put_exp(out, value)
}

fn put_store(
    out: &mut Vec<u8>,
    mark: usize,
    variable: &Name,
    name_mark: usize,
    index: &Exp,
    value: &Exp,
) -> Result<(), AllocError>
    ensures { OnOk result
        (out.new.items
        ≡ out.old.items
        ++ stmt
        (Store mark variable.now name_mark (exp_view index.now)
        (exp_view value.now))) }
{
    put_named(out, 0x05, mark, variable)?;
    put_four(out, name_mark)?;
    put_exp(out, index)?;
    put_exp(out, value)
}

#[cycle(put_statements)]
fn put_stmts(out: &mut Vec<u8>, ss: &[Stmt]) -> Result<(), AllocError>
    ensures { OnOk result (out.new.items ≡ out.old.items ++ stmts (stmts_view ss.now)) }
{
    for s in ss {
        put_stmt(out, s)?;
    }
    Ok(())
}

/// Writes the number of statements, and the statements.
#[cycle(put_statements)]
fn put_body(out: &mut Vec<u8>, ss: &[Stmt]) -> Result<(), AllocError>
    ensures { OnOk result
        (out.new.items
        ≡ out.old.items
        ++ (eight (count_stmts (stmts_view ss.now)) ++ stmts (stmts_view ss.now))) }
{
    put_eight(out, ss.len())?;
    put_stmts(out, ss)
}

/// Writes the statement of `main`.
pub fn put_top_stmt(out: &mut Vec<u8>, s: &Stmt) -> Result<(), AllocError>
    ensures { OnOk result (out.new.items ≡ out.old.items ++ stmt (stmt_view s.now)) }
{
    put_stmt(out, s)
}

/// Writes a method.
#[tactic(auto, unfolding(crate::specs::Spelling::method))]
pub fn put_method(out: &mut Vec<u8>, m: &MethodTree) -> Result<(), AllocError>
    ensures { OnOk result (out.new.items ≡ out.old.items ++ method (method_view m.now)) }
{
    put_name(out, &m.name)?;
    put_ty(out, &m.returns)?;
    put_list::<VariableFormat>(out, &m.formals)?;
    put_list::<VariableFormat>(out, &m.locals)?;
    put_body(out, &m.body)?;
    put_exp(out, &m.returned)?;
    put_four(out, m.return_mark)
}

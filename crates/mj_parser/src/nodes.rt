//! Statements made of their parts.
ghost use Rattle.std.specs.Prelude.{◌≡◌, IfOk};
ghost use Rattle.mj_tree.specs.Trees as trees;
ghost use Rattle.mj_tree.specs.Views.{exp_view, stmt_view, stmts_view};

use mj_tree::{Exp, Stmt};
use ordered_names::Name;
use std::alloc::{AllocError, Global};

pub fn block(mark: usize, body: Vec<Stmt>) -> Stmt
    ensures { stmt_view result ≡ trees.Block mark (stmts_view body.items) }
{
    Stmt::Block { mark, body }
}

pub fn choice(mark: usize, condition: Exp, then_branch: Box<Stmt>, else_branch: Box<Stmt>) -> Stmt
    ensures { stmt_view result
        ≡ trees.If mark (exp_view condition) (stmt_view then_branch.value)
        (stmt_view else_branch.value) }
{
    Stmt::If {
        mark,
        condition,
        then_branch,
        else_branch,
    }
}

pub fn repetition(mark: usize, condition: Exp, body: Box<Stmt>) -> Stmt
    ensures { stmt_view result ≡ trees.While mark (exp_view condition) (stmt_view body.value) }
{
    Stmt::While {
        mark,
        condition,
        body,
    }
}

pub fn print(mark: usize, value: Exp) -> Stmt
    ensures { stmt_view result ≡ trees.Print mark (exp_view value) }
{
    Stmt::Print { mark, value }
}

pub fn assign(
    alloc: Global,
    mark: usize,
    name: &Name,
    name_mark: usize,
    value: Exp,
) -> Result<Stmt, AllocError>
    ensures { IfOk result (λ s.
        stmt_view s ≡ trees.Assign mark name.now name_mark (exp_view value)) }
{
    Ok(Stmt::Assign {
        mark,
        name: name.copy(alloc)?,
        name_mark,
        value,
    })
}

pub fn store(
    alloc: Global,
    mark: usize,
    name: &Name,
    name_mark: usize,
    index: Exp,
    value: Exp,
) -> Result<Stmt, AllocError>
    ensures { IfOk result (λ s.
        stmt_view s ≡ trees.Store mark name.now name_mark (exp_view index) (exp_view value)) }
{
    Ok(Stmt::Store {
        mark,
        name: name.copy(alloc)?,
        name_mark,
        index,
        value,
    })
}

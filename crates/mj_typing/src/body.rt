//! The walk over statements, and a return.
ghost use Rattle.std.specs.Prelude.{◌≡◌, IfOk, IfErr, OnOk};
ghost use Rattle.mj_tree.specs.Views.{exp_view, stmt_view, stmts_view};
ghost use Rattle.mj_phrases.specs.Phrases.{phrase, nothing, part, add_own, mistakes_step};
ghost use Rattle.mj_phrases.specs.Steps.{Proceeds, Aborts};
ghost use Rattle.mj_phrases.specs.Table.{phrase_of, name_phrase, return_phrase, one_part, two_parts, three_parts, condition, print, assign, store};
ghost use Rattle.mj_phrases.specs.declared.asking.Stop.TheVariants.{OutOfMemory};
ghost use Rattle.mj_typing.specs.Bodies.{statement_step, statements_step};

use mj_phrases::{
    Asking, Mistake, Scope, Stop, Target, check, check_assign, check_condition, check_print,
    check_store, report, return_value,
};
use mj_tree::{Exp, Stmt, Ty};
use ordered_names::Name;
use std::alloc::Global;

/// Checks a returned value.
#[tactic(auto, unfolding(mj_phrases::specs::Phrases::phrase_step, mj_phrases::specs::Phrases::parts_step))]
pub fn check_return<A: Asking>(
    alloc: Global,
    asking: &mut A,
    scope: &Scope,
    mark: usize,
    wanted: &Ty,
    value: &Exp,
    mistakes: &mut Vec<Mistake>,
) -> Result<(), Stop<A::Refusal>>
    ensures ok { OnOk result
        (Proceeds A.stands
        (mistakes_step (return_phrase scope.now mark wanted.now (exp_view value.now))
        mistakes.old.items) asking.old mistakes.new.items asking.new) }
    ensures err { IfErr result (λ e.
        Aborts A.stands A.halts
        (mistakes_step (return_phrase scope.now mark wanted.now (exp_view value.now))
        mistakes.old.items) asking.old e asking.new) }
    ensures follows { A.follows asking.old asking.new }
{
    let Some(ty) = check(alloc, asking, scope, value, mistakes)? else {
        return Ok(());
    };
    let verdict = return_value(alloc, asking, wanted, &ty)?;
    report(mistakes, mark, verdict)
}

/// Checks a statement and those inside it.
#[cycle(statements)]
#[inline(never)]
#[tactic(auto, unfolding(mj_phrases::specs::Phrases::phrase_step, mj_phrases::specs::Phrases::parts_step, crate::specs::Bodies::statement_step, crate::specs::Bodies::statements_step))]
pub fn check_statement<A: Asking>(
    alloc: Global,
    asking: &mut A,
    scope: &Scope,
    statement: &Stmt,
    mistakes: &mut Vec<Mistake>,
) -> Result<(), Stop<A::Refusal>>
    ensures ok { OnOk result
        (Proceeds A.stands
        (statement_step scope.now (stmt_view statement.now) mistakes.old.items) asking.old
        mistakes.new.items asking.new) }
    ensures err { IfErr result (λ e.
        Aborts A.stands A.halts
        (statement_step scope.now (stmt_view statement.now) mistakes.old.items) asking.old e
        asking.new) }
    ensures follows { A.follows asking.old asking.new }
{
    match statement {
        Stmt::Block { body, .. } => check_statements(alloc, asking, scope, body, mistakes),
        Stmt::If {
            mark,
            condition,
            then_branch,
            else_branch,
        } => {
            check_condition(alloc, asking, scope, *mark, condition, mistakes)?;
            check_statement(alloc, asking, scope, then_branch, mistakes)?;
            check_statement(alloc, asking, scope, else_branch, mistakes)
        }
        Stmt::While {
            mark,
            condition,
            body,
        } => {
            check_condition(alloc, asking, scope, *mark, condition, mistakes)?;
            check_statement(alloc, asking, scope, body, mistakes)
        }
        Stmt::Print { mark, value } => check_print(alloc, asking, scope, *mark, value, mistakes),
        Stmt::Assign {
            mark,
            name,
            name_mark,
            value,
        } => {
            let target = Target {
                mark: *mark,
                name,
                name_mark: *name_mark,
            };
            check_assign(alloc, asking, scope, target, value, mistakes)
        }
        Stmt::Store {
            mark,
            name,
            name_mark,
            index,
            value,
        } => {
            let target = Target {
                mark: *mark,
                name,
                name_mark: *name_mark,
            };
            check_store(alloc, asking, scope, target, index, value, mistakes)
        }
    }
}

/// Checks statements in their order.
#[cycle(statements)]
#[inline(never)]
pub fn check_statements<A: Asking>(
    alloc: Global,
    asking: &mut A,
    scope: &Scope,
    statements: &Vec<Stmt>,
    mistakes: &mut Vec<Mistake>,
) -> Result<(), Stop<A::Refusal>>
    ensures ok { OnOk result
        (Proceeds A.stands
        (statements_step scope.now (stmts_view statements.now.items) mistakes.old.items)
        asking.old mistakes.new.items asking.new) }
    ensures err { IfErr result (λ e.
        Aborts A.stands A.halts
        (statements_step scope.now (stmts_view statements.now.items) mistakes.old.items)
        asking.old e asking.new) }
    ensures follows { A.follows asking.old asking.new }
{
    for statement in statements {
        check_statement(alloc, asking, scope, statement, mistakes)?;
    }
    Ok(())
}

//! Whole bodies.
ghost use Rattle.std.specs.Prelude.{◌≡◌, ◌++◌, ◌∷◌, [], IfOk, IfErr, OnOk};
ghost use Rattle.mj_answer.specs.declared.code.Code.TheVariants.{E206};
ghost use Rattle.mj_tree.specs.Views.{method_view, main_view, stmt_view};
ghost use Rattle.mj_phrases.specs.Steps.{Proceeds, Aborts};
ghost use Rattle.mj_phrases.specs.Table.{main_scope};
ghost use Rattle.mj_typing.specs.Bodies.{method_step, main_step, statement_step, declared_step, type_step, types_step};

use crate::body::{check_return, check_statement, check_statements};
use mj_answer::Code;
use mj_phrases::{Asking, Mistake, Scope, Stop};
use mj_tree::{MainTree, MethodTree, Stmt, Ty, Variable};
use ordered_names::Name;
use std::alloc::{AllocError, Global};

/// The token of a method's return type, behind `public`.
const RETURN_TYPE_MARK: usize = 1;

/// Adds the mistake of a declared type that names no class.
fn report_undeclared(mistakes: &mut Vec<Mistake>, mark: usize) -> Result<(), AllocError>
    ensures { OnOk result
        (mistakes.new.items ≡ mistakes.old.items ++ record { mark = mark; code = E206 } ∷ []) }
{
    mistakes.push(Mistake {
        mark,
        code: Code::E206,
    })?;
    Ok(())
}

/// Checks a declared type: a class has to be declared.
fn check_type<A: Asking>(
    alloc: Global,
    asking: &mut A,
    mark: usize,
    ty: &Ty,
    mistakes: &mut Vec<Mistake>,
) -> Result<(), Stop<A::Refusal>>
    ensures ok { OnOk result
        (Proceeds A.stands (type_step mark ty.now mistakes.old.items) asking.old
        mistakes.new.items asking.new) }
    ensures err { IfErr result (λ e.
        Aborts A.stands A.halts (type_step mark ty.now mistakes.old.items) asking.old e
        asking.new) }
    ensures follows { A.follows asking.old asking.new }
{
    let Ty::Class(class) = ty else {
        return Ok(());
    };
    if !asking.is_declared(alloc, class)? {
        report_undeclared(mistakes, mark)?;
    }
    Ok(())
}

/// Checks the types of variables in their order.
fn check_types<A: Asking>(
    alloc: Global,
    asking: &mut A,
    variables: &[Variable],
    mistakes: &mut Vec<Mistake>,
) -> Result<(), Stop<A::Refusal>>
    ensures ok { OnOk result
        (Proceeds A.stands (types_step variables.now mistakes.old.items) asking.old
        mistakes.new.items asking.new) }
    ensures err { IfErr result (λ e.
        Aborts A.stands A.halts (types_step variables.now mistakes.old.items) asking.old e
        asking.new) }
    ensures follows { A.follows asking.old asking.new }
{
    for variable in variables {
        check_type(alloc, asking, variable.mark, &variable.ty, mistakes)?;
    }
    Ok(())
}

/// Checks the types that a method declares: its return type, its formals and its locals.
#[tactic(auto, unfolding(crate::specs::Bodies::declared_step))]
fn check_declared<A: Asking>(
    alloc: Global,
    asking: &mut A,
    method: &MethodTree,
    mistakes: &mut Vec<Mistake>,
) -> Result<(), Stop<A::Refusal>>
    ensures ok { OnOk result
        (Proceeds A.stands (declared_step (method_view method.now) mistakes.old.items)
        asking.old mistakes.new.items asking.new) }
    ensures err { IfErr result (λ e.
        Aborts A.stands A.halts (declared_step (method_view method.now) mistakes.old.items)
        asking.old e asking.new) }
    ensures follows { A.follows asking.old asking.new }
{
    check_type(alloc, asking, RETURN_TYPE_MARK, &method.returns, mistakes)?;
    check_types(alloc, asking, &method.formals, mistakes)?;
    check_types(alloc, asking, &method.locals, mistakes)
}

/// The mistakes in a method of the class, unordered and with repeats.
#[tactic(auto, unfolding(crate::specs::Bodies::method_step))]
pub fn check_method<A: Asking>(
    alloc: Global,
    asking: &mut A,
    class: &Name,
    method: &MethodTree,
) -> Result<Vec<Mistake>, Stop<A::Refusal>>
    ensures ok { IfOk result (λ mistakes.
        Proceeds A.stands (method_step class.now (method_view method.now)) asking.old
        mistakes.items asking.new) }
    ensures err { IfErr result (λ e.
        Aborts A.stands A.halts (method_step class.now (method_view method.now)) asking.old e
        asking.new) }
    ensures follows { A.follows asking.old asking.new }
{
    let mut mistakes = Vec::new(alloc);
    let scope = Scope::of_method(alloc, class, method, &mut mistakes)?;
    check_declared(alloc, asking, method, &mut mistakes)?;
    check_statements(alloc, asking, &scope, &method.body, &mut mistakes)?;
    check_return(
        alloc,
        asking,
        &scope,
        method.return_mark,
        &method.returns,
        &method.returned,
        &mut mistakes,
    )?;
    Ok(mistakes)
}

/// The mistakes in the statement of main, unordered and with repeats.
pub fn check_main_statement<A: Asking>(
    alloc: Global,
    asking: &mut A,
    statement: &Stmt,
) -> Result<Vec<Mistake>, Stop<A::Refusal>>
    ensures ok { IfOk result (λ mistakes. Proceeds A.stands
        (statement_step main_scope (stmt_view statement.now) []) asking.old
        mistakes.items asking.new) }
    ensures err { IfErr result (λ e. Aborts A.stands A.halts
        (statement_step main_scope (stmt_view statement.now) []) asking.old e asking.new) }
    ensures follows { A.follows asking.old asking.new }
{
    let mut mistakes = Vec::new(alloc);
    let scope = Scope::of_main(alloc);
    check_statement(alloc, asking, &scope, statement, &mut mistakes)?;
    Ok(mistakes)
}

/// The mistakes in main, unordered and with repeats.
#[tactic(auto, unfolding(crate::specs::Bodies::main_step))]
pub fn check_main<A: Asking>(
    alloc: Global,
    asking: &mut A,
    main: &MainTree,
) -> Result<Vec<Mistake>, Stop<A::Refusal>>
    ensures ok { IfOk result (λ mistakes.
        Proceeds A.stands (main_step (main_view main.now)) asking.old mistakes.items asking.new) }
    ensures err { IfErr result (λ e.
        Aborts A.stands A.halts (main_step (main_view main.now)) asking.old e asking.new) }
    ensures follows { A.follows asking.old asking.new }
{
    check_main_statement(alloc, asking, &main.statement)
}

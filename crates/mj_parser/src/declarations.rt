//! Reading types, variables and methods.
ghost use Rattle.std.specs.Prelude.{◌≡◌, ℕ, ◌+◌, ◌<◌, ◌≤◌, suc, length, map, [], ◌∷◌, ◌++◌, Some, IfOk, IfErr, IsTrue};
ghost use Rattle.mj_tree.specs.Views.{stmt_view, method_view};
ghost use Rattle.mj_tree.specs.Limits.{most_levels};
ghost use Rattle.mj_expressions.specs.Steps.{Finds, items_from, listed_at, more_listed};
ghost use Rattle.mj_expressions.specs.declared.fault.ParseFault.TheVariants.{OutOfMemory};
ghost use Rattle.mj_parser.specs.StatementReading.{stmt_at};
ghost use Rattle.mj_parser.specs.FileReading as reading;
ghost use Rattle.mj_parser.specs.FileReading.{type_at, variable_at, local_at, begins_local, signature_view, signature_of, signature_at, not_return, method_of, method_at};

use crate::statements::statement;
use mj_expressions::{
    ANY_TIER, ParseFault, Part, expect, expect_name, expect_two, followed, has, name, read,
};
use mj_lexer::{Terminal, Token};
use mj_tree::{MOST_LEVELS, MethodTree, Stmt, Ty, Variable};
use ordered_names::Name;
use std::alloc::Global;

/// A declared type.
#[tactic(auto, unfolding(crate::specs::FileReading::type_at))]
fn declared_type(alloc: Global, tokens: &[Token], at: usize) -> Result<Part<Ty>, ParseFault>
    requires { at ≤ length tokens.now }
    ensures exact { Finds (λ x. (x.tree, x.after)) result (type_at tokens.now at) }
    ensures within { IfOk result (λ x. (at < x.after) × (x.after ≤ length tokens.now)) }
{
    if has(tokens, at, Terminal::Int) {
        if !has(tokens, at + 1, Terminal::LeftBracket) {
            return Ok(Part {
                tree: Ty::Int,
                after: at + 1,
            });
        }
        let after = expect(tokens, at + 2, Terminal::RightBracket)?;
        return Ok(Part {
            tree: Ty::IntArray,
            after,
        });
    }
    if has(tokens, at, Terminal::Boolean) {
        return Ok(Part {
            tree: Ty::Boolean,
            after: at + 1,
        });
    }
    let class = expect_name(tokens, at)?;
    Ok(Part {
        tree: Ty::Class(class.copy(alloc)?),
        after: at + 1,
    })
}

/// A type and a name.
#[tactic(auto, unfolding(crate::specs::FileReading::variable_at))]
fn variable(alloc: Global, tokens: &[Token], at: usize) -> Result<Part<Variable>, ParseFault>
    requires { at ≤ length tokens.now }
    ensures exact { Finds (λ x. (x.tree, x.after)) result (variable_at tokens.now at) }
    ensures within { IfOk result (λ x. (at < x.after) × (x.after ≤ length tokens.now)) }
{
    let ty = declared_type(alloc, tokens, at)?;
    let name = expect_name(tokens, ty.after)?;
    Ok(Part {
        tree: Variable {
            name: name.copy(alloc)?,
            ty: ty.tree,
            mark: at,
        },
        after: ty.after + 1,
    })
}

/// A variable and its semicolon.
#[tactic(auto, unfolding(crate::specs::FileReading::local_at))]
pub fn local(alloc: Global, tokens: &[Token], at: usize) -> Result<Part<Variable>, ParseFault>
    requires { at ≤ length tokens.now }
    ensures exact { Finds (λ x. (x.tree, x.after)) result (local_at tokens.now at) }
    ensures within { IfOk result (λ x. (at < x.after) × (x.after ≤ length tokens.now)) }
{
    let variable = variable(alloc, tokens, at)?;
    followed(tokens, variable, Terminal::Semicolon)
}

/// Whether a local begins here, and no statement.
fn begins_local(tokens: &[Token], at: usize) -> bool
    requires { at ≤ length tokens.now }
    ensures { result ≡ begins_local tokens.now at }
{
    has(tokens, at, Terminal::Int)
        || has(tokens, at, Terminal::Boolean)
        || (name(tokens, at).is_some() && name(tokens, at + 1).is_some())
}

/// A list of one variable.
fn started(alloc: Global, first: Part<Variable>) -> Result<Part<Vec<Variable>>, ParseFault>
    ensures found { IfOk result (λ x.
        (x.tree.items ≡ first.tree ∷ []) × (x.after ≡ first.after)) }
    ensures fault { IfErr result (λ e. e ≡ OutOfMemory) }
{
    let mut variables = Vec::new(alloc);
    variables.push(first.tree)?;
    Ok(Part {
        tree: variables,
        after: first.after,
    })
}

/// The list with one variable more.
fn pushed(
    variables: Part<Vec<Variable>>,
    next: Part<Variable>,
) -> Result<Part<Vec<Variable>>, ParseFault>
    ensures found { IfOk result (λ x.
        (x.tree.items ≡ variables.tree.items ++ next.tree ∷ []) × (x.after ≡ next.after)) }
    ensures fault { IfErr result (λ e. e ≡ OutOfMemory) }
{
    let mut tree = variables.tree;
    tree.push(next.tree)?;
    Ok(Part {
        tree,
        after: next.after,
    })
}

/// The formals that begin with this one, up to the parenthesis that closes them.
fn formals_from(
    alloc: Global,
    tokens: &[Token],
    first: Part<Variable>,
) -> Result<Part<Vec<Variable>>, ParseFault>
    requires { first.after ≤ length tokens.now }
    ensures exact { Finds (λ x. (x.tree.items, x.after)) result
        (more_listed (variable_at tokens.now) tokens.now (first.tree, first.after)) }
    ensures within { IfOk result (λ x. (first.after < x.after) × (x.after ≤ length tokens.now)) }
{
    let mut formals = started(alloc, first)?;
    'list: while has(tokens, formals.after, Terminal::Comma) {
        let next = variable(alloc, tokens, formals.after + 1)?;
        formals = pushed(formals, next)?;
    }
    followed(tokens, formals, Terminal::RightParenthesis)
}

/// Formals between commas, up to the parenthesis that closes them.
#[tactic(auto, unfolding(mj_expressions::specs::Steps::listed_at))]
fn formals(alloc: Global, tokens: &[Token], at: usize) -> Result<Part<Vec<Variable>>, ParseFault>
    requires { at ≤ length tokens.now }
    ensures exact { Finds (λ x. (x.tree.items, x.after)) result
        (listed_at (variable_at tokens.now) tokens.now at) }
    ensures within { IfOk result (λ x. (at < x.after) × (x.after ≤ length tokens.now)) }
{
    if has(tokens, at, Terminal::RightParenthesis) {
        return Ok(Part {
            tree: Vec::new(alloc),
            after: at + 1,
        });
    }
    let first = variable(alloc, tokens, at)?;
    formals_from(alloc, tokens, first)
}

/// The locals of a body.
fn locals(alloc: Global, tokens: &[Token], at: usize) -> Result<Part<Vec<Variable>>, ParseFault>
    requires { at ≤ length tokens.now }
    ensures exact { Finds (λ x. (x.tree.items, x.after)) result
        (items_from (suc (length tokens.now)) (local_at tokens.now) (begins_local tokens.now)
        at) }
    ensures within { IfOk result (λ x. (at ≤ x.after) × (x.after ≤ length tokens.now)) }
{
    let mut items = Vec::new(alloc);
    let mut after = at;
    'items: while begins_local(tokens, after) {
        let next = local(alloc, tokens, after)?;
        items.push(next.tree)?;
        after = next.after;
    }
    Ok(Part { tree: items, after })
}

/// Statements up to `return`.
fn body(alloc: Global, tokens: &[Token], at: usize) -> Result<Part<Vec<Stmt>>, ParseFault>
    requires { at ≤ length tokens.now }
    ensures exact { Finds (λ x. (map stmt_view x.tree.items, x.after)) result
        (items_from (suc (length tokens.now)) (stmt_at most_levels tokens.now)
        (not_return tokens.now) at) }
    ensures within { IfOk result (λ x. (at ≤ x.after) × (x.after < length tokens.now)) }
{
    let mut items = Vec::new(alloc);
    let mut after = at;
    'items: while !has(tokens, after, Terminal::Return) {
        let next = statement(alloc, tokens, after, MOST_LEVELS)?;
        items.push(next.tree)?;
        after = next.after;
    }
    Ok(Part { tree: items, after })
}

/// What stands before the locals of a method.
#[derive(Drop)]
pub struct MethodHeading {
    pub name: Name,
    pub returns: Ty,
    pub formals: Vec<Variable>,
}

/// The parts of a signature as one.
fn make_signature(
    alloc: Global,
    name: &Name,
    returns: Ty,
    formals: Part<Vec<Variable>>,
) -> Result<Part<MethodHeading>, ParseFault>
    ensures exact { Finds {A = reading.MethodHeading × ℕ} (λ x. (signature_view x.tree, x.after)) result
        (Some (
          record { name = name.now; returns = returns; formals = formals.tree.items },
          formals.after,
        )) }
    ensures place { IfOk result (λ x. x.after ≡ formals.after) }
{
    Ok(Part {
        tree: MethodHeading {
            name: name.copy(alloc)?,
            returns,
            formals: formals.tree,
        },
        after: formals.after,
    })
}

/// The signature whose formals begin at a place.
fn signature_of(
    alloc: Global,
    tokens: &[Token],
    name: &Name,
    returns: Ty,
    at: usize,
) -> Result<Part<MethodHeading>, ParseFault>
    requires { at ≤ length tokens.now }
    ensures exact { Finds (λ x. (signature_view x.tree, x.after)) result
        (signature_of tokens.now name.now returns at) }
    ensures within { IfOk result (λ x. (0 < x.after) × (x.after ≤ length tokens.now)) }
{
    let formals = formals(alloc, tokens, at)?;
    let formals = followed(tokens, formals, Terminal::LeftBrace)?;
    make_signature(alloc, name, returns, formals)
}

#[tactic(auto, unfolding(crate::specs::FileReading::signature_at))]
fn read_signature(alloc: Global, tokens: &[Token]) -> Result<Part<MethodHeading>, ParseFault>
    ensures exact { Finds (λ x. (signature_view x.tree, x.after)) result (signature_at tokens.now) }
    ensures within { IfOk result (λ x. (0 < x.after) × (x.after ≤ length tokens.now)) }
{
    let after = expect(tokens, 0, Terminal::Public)?;
    let returns = declared_type(alloc, tokens, after)?;
    let name = expect_name(tokens, returns.after)?;
    let after = expect(tokens, returns.after + 1, Terminal::LeftParenthesis)?;
    signature_of(alloc, tokens, name, returns.tree, after)
}

/// The method with this signature, these locals and this body, behind which its `return` stands.
#[tactic(auto, unfolding(crate::specs::FileReading::method_of))]
fn method_of(
    alloc: Global,
    tokens: &[Token],
    signature: MethodHeading,
    locals: Vec<Variable>,
    body: Part<Vec<Stmt>>,
) -> Result<Part<MethodTree>, ParseFault>
    requires { body.after < length tokens.now }
    ensures exact { Finds (λ x. (method_view x.tree, x.after)) result
        (method_of tokens.now (signature_view signature) locals.items
        (map stmt_view body.tree.items, body.after)) }
    ensures within { IfOk result (λ x. (0 < x.after) × (x.after ≤ length tokens.now)) }
{
    let returned = read(alloc, tokens, body.after + 1, MOST_LEVELS, ANY_TIER)?;
    let after = expect_two(
        tokens,
        returned.after,
        Terminal::Semicolon,
        Terminal::RightBrace,
    )?;
    Ok(Part {
        tree: MethodTree {
            name: signature.name,
            returns: signature.returns,
            formals: signature.formals,
            locals,
            body: body.tree,
            returned: returned.exp,
            return_mark: body.after,
        },
        after,
    })
}

/// The method that the tokens begin with.
#[tactic(auto, unfolding(crate::specs::FileReading::method_at))]
pub fn method(alloc: Global, tokens: &[Token]) -> Result<Part<MethodTree>, ParseFault>
    ensures exact { Finds (λ x. (method_view x.tree, x.after)) result (method_at tokens.now) }
    ensures within { IfOk result (λ x. (0 < x.after) × (x.after ≤ length tokens.now)) }
{
    let signature = read_signature(alloc, tokens)?;
    let locals = locals(alloc, tokens, signature.after)?;
    let body = body(alloc, tokens, locals.after)?;
    method_of(alloc, tokens, signature.tree, locals.tree, body)
}

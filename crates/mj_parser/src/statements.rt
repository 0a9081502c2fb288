//! Reading a statement from left to right.
ghost use Rattle.std.specs.Prelude.{◌≡◌, ℕ, ◌+◌, ◌^◌, ◌<◌, ◌≤◌, ◌||◌, suc, length, map, not, codes, true, false, Some, None, ◌≢◌, IfOk, IfErr, IsTrue};
ghost use Rattle.mj_expressions.specs.Tokens.{has, says, name_at};
ghost use Rattle.mj_tree.specs.Views.{exp_view, stmt_view};
ghost use Rattle.mj_tree.specs.Limits.{most_levels};
ghost use Rattle.mj_expressions.specs.Expressions.{any_tier};
ghost use Rattle.mj_parser.specs.Statements.{opens_print, print_fault};
ghost use Rattle.mj_expressions.specs.Steps.{Finds, items_from, when};
ghost use Rattle.mj_lexer.specs.declared.token.Terminal.TheVariants as terminals;
ghost use Rattle.mj_tree.specs.Trees.{Statement, Assign, Store};
ghost use Rattle.mj_expressions.specs.ExpressionReading.{exp_at};
ghost use Rattle.mj_parser.specs.StatementReading.{not_brace, block_at, condition_at, if_at, while_at, print_at, assign_at, assigned_at, store_at, named_at, stmt_of, stmt_at};
ghost use Rattle.mj_expressions.specs.declared.fault.ParseFault.{ParseFault};
ghost use Rattle.mj_expressions.specs.declared.fault.ParseFault.TheVariants.{NotAFile, OutOfMemory};

use crate::nodes;
use mj_expressions::{
    ANY_TIER, ExpPart, ParseFault, Part, closed, expect, expect_name, expect_two, expect_word_and,
    followed, has, name, read, says,
};
use mj_lexer::{Terminal, Token};
use mj_tree::Stmt;
use ordered_names::Name;
use std::alloc::Global;

/// An expression between `if` or `while` and the statement.
#[tactic(auto, unfolding(crate::specs::StatementReading::condition_at))]
fn condition(alloc: Global, tokens: &[Token], at: usize, room: usize) -> Result<ExpPart, ParseFault>
    requires deep { room ≤ most_levels }
    requires within { at ≤ length tokens.now }
    ensures exact { Finds (λ x. (exp_view x.exp, x.after)) result
        (condition_at (exp_at room tokens.now any_tier) tokens.now at) }
    ensures within { IfOk result (λ x. (at < x.after) × (x.after ≤ length tokens.now)) }
{
    let inside = expect(tokens, at, Terminal::LeftParenthesis)?;
    let exp = read(alloc, tokens, inside, room, ANY_TIER)?;
    closed(tokens, exp, Terminal::RightParenthesis)
}

/// The place after `. out . println (`, behind `System`.
fn expect_print_path(tokens: &[Token], at: usize) -> Result<usize, ParseFault>
    requires within { at < length tokens.now }
    requires system { says tokens.now at (codes "System") ≡ true }
    ensures found { IfOk result (λ after.
        (opens_print tokens.now at ≡ true) × (after ≡ at + 6) × (after ≤ length tokens.now)) }
    ensures fault { IfErr result (λ e.
        (opens_print tokens.now at ≡ false) × (e ≡ NotAFile (print_fault tokens.now at))) }
{
    let after = expect(tokens, at + 1, Terminal::Dot)?;
    let after = expect_word_and(tokens, after, b"out".as_slice(), Terminal::Dot)?;
    expect_word_and(
        tokens,
        after,
        b"println".as_slice(),
        Terminal::LeftParenthesis,
    )
}

/// The place after `System . out . println (`. Another name than `System` begins a statement too, so the error stands
/// behind it.
fn print_opening(tokens: &[Token], at: usize) -> Result<usize, ParseFault>
    requires { at < length tokens.now }
    ensures found { IfOk result (λ after.
        (opens_print tokens.now at ≡ true) × (after ≡ at + 6) × (after ≤ length tokens.now)) }
    ensures fault { IfErr result (λ e.
        (opens_print tokens.now at ≡ false) × (e ≡ NotAFile (print_fault tokens.now at))) }
{
    if says(tokens, at, b"System".as_slice()) {
        expect_print_path(tokens, at)
    } else {
        Err(ParseFault::NotAFile(at + 1))
    }
}

#[tactic(auto, unfolding(crate::specs::StatementReading::print_at))]
fn print(alloc: Global, tokens: &[Token], at: usize, room: usize) -> Result<Part<Stmt>, ParseFault>
    requires deep { room ≤ most_levels }
    requires within { at < length tokens.now }
    ensures exact { Finds (λ x. (stmt_view x.tree, x.after)) result
        (print_at (exp_at room tokens.now any_tier) tokens.now at) }
    ensures within { IfOk result (λ x. (at < x.after) × (x.after ≤ length tokens.now)) }
{
    let inside = print_opening(tokens, at)?;
    let value = read(alloc, tokens, inside, room, ANY_TIER)?;
    let after = expect_two(
        tokens,
        value.after,
        Terminal::RightParenthesis,
        Terminal::Semicolon,
    )?;
    Ok(Part {
        tree: nodes::print(at, value.exp),
        after,
    })
}

/// The assignment of the expression, with its semicolon.
fn assigned(
    alloc: Global,
    tokens: &[Token],
    name: &Name,
    at: usize,
    value: ExpPart,
) -> Result<Part<Stmt>, ParseFault>
    requires { (at + 1 < value.after) × (value.after ≤ length tokens.now) }
    ensures exact { Finds {A = Statement × ℕ} (λ x. (stmt_view x.tree, x.after)) result
        (when (has tokens.now value.after terminals.Semicolon)
        (Some (Assign (at + 1) name.now at (exp_view value.exp), value.after + 1))) }
    ensures within { IfOk result (λ x. (at < x.after) × (x.after ≤ length tokens.now)) }
{
    let value = closed(tokens, value, Terminal::Semicolon)?;
    Ok(Part {
        tree: nodes::assign(alloc, at + 1, name, at, value.exp)?,
        after: value.after,
    })
}

#[tactic(auto, unfolding(crate::specs::StatementReading::assign_at))]
fn assign(
    alloc: Global,
    tokens: &[Token],
    name: &Name,
    at: usize,
    room: usize,
) -> Result<Part<Stmt>, ParseFault>
    requires deep { room ≤ most_levels }
    requires within { at + 1 < length tokens.now }
    ensures exact { Finds (λ x. (stmt_view x.tree, x.after)) result
        (assign_at (exp_at room tokens.now any_tier) tokens.now name.now at) }
    ensures within { IfOk result (λ x. (at < x.after) × (x.after ≤ length tokens.now)) }
{
    let value = read(alloc, tokens, at + 2, room, ANY_TIER)?;
    assigned(alloc, tokens, name, at, value)
}

/// The assignment of the expression to the element of this index, with its semicolon.
fn stored(
    alloc: Global,
    tokens: &[Token],
    name: &Name,
    at: usize,
    index: ExpPart,
    value: ExpPart,
) -> Result<Part<Stmt>, ParseFault>
    requires { (at < index.after) × (index.after < value.after) × (value.after ≤ length tokens.now) }
    ensures exact { Finds {A = Statement × ℕ} (λ x. (stmt_view x.tree, x.after)) result
        (when (has tokens.now value.after terminals.Semicolon)
        (Some (
          Store (index.after + 1) name.now at (exp_view index.exp) (exp_view value.exp),
          value.after + 1,
        ))) }
    ensures within { IfOk result (λ x. (at < x.after) × (x.after ≤ length tokens.now)) }
{
    let value = closed(tokens, value, Terminal::Semicolon)?;
    Ok(Part {
        tree: nodes::store(alloc, index.after + 1, name, at, index.exp, value.exp)?,
        after: value.after,
    })
}

#[tactic(auto, unfolding(crate::specs::StatementReading::store_at))]
fn store(
    alloc: Global,
    tokens: &[Token],
    name: &Name,
    at: usize,
    room: usize,
) -> Result<Part<Stmt>, ParseFault>
    requires deep { room ≤ most_levels }
    requires within { at + 1 < length tokens.now }
    ensures exact { Finds (λ x. (stmt_view x.tree, x.after)) result
        (store_at (exp_at room tokens.now any_tier) tokens.now name.now at) }
    ensures within { IfOk result (λ x. (at < x.after) × (x.after ≤ length tokens.now)) }
{
    let index = read(alloc, tokens, at + 2, room, ANY_TIER)?;
    let inside = expect_two(
        tokens,
        index.after,
        Terminal::RightBracket,
        Terminal::Assign,
    )?;
    store_with(alloc, tokens, name, at, index, inside, room)
}

/// The assignment to the element of this index, whose value begins at a place.
fn store_with(
    alloc: Global,
    tokens: &[Token],
    name: &Name,
    at: usize,
    index: ExpPart,
    inside: usize,
    room: usize,
) -> Result<Part<Stmt>, ParseFault>
    requires deep { room ≤ most_levels }
    requires within { (at < index.after) × (index.after < inside) × (inside ≤ length tokens.now) }
    ensures exact { Finds (λ x. (stmt_view x.tree, x.after)) result
        (assigned_at (exp_at room tokens.now any_tier) tokens.now
        (Store (index.after + 1) name.now at (exp_view index.exp)) inside) }
    ensures within { IfOk result (λ x. (at < x.after) × (x.after ≤ length tokens.now)) }
{
    let value = read(alloc, tokens, inside, room, ANY_TIER)?;
    stored(alloc, tokens, name, at, index, value)
}

/// A statement that begins with a name.
#[tactic(auto, unfolding(crate::specs::StatementReading::named_at))]
fn name_statement(
    alloc: Global,
    tokens: &[Token],
    at: usize,
    room: usize,
) -> Result<Part<Stmt>, ParseFault>
    requires deep { room ≤ most_levels }
    ensures exact { Finds (λ x. (stmt_view x.tree, x.after)) result
        (named_at (exp_at room tokens.now any_tier) tokens.now at) }
    ensures within { IfOk result (λ x. (at < x.after) × (x.after ≤ length tokens.now)) }
{
    let name = expect_name(tokens, at)?;
    if has(tokens, at + 1, Terminal::Assign) {
        assign(alloc, tokens, name, at, room)
    } else if has(tokens, at + 1, Terminal::LeftBracket) {
        store(alloc, tokens, name, at, room)
    } else {
        print(alloc, tokens, at, room)
    }
}

/// Whether a statement begins here.
fn begins_statement(tokens: &[Token], at: usize) -> bool {
    has(tokens, at, Terminal::LeftBrace)
        || has(tokens, at, Terminal::If)
        || has(tokens, at, Terminal::While)
        || name(tokens, at).is_some()
}

/// Why a statement isn't read if its levels don't suffice.
fn refusal(tokens: &[Token], at: usize) -> ParseFault
    ensures { result ≢ OutOfMemory }
{
    if begins_statement(tokens, at) {
        ParseFault::TooDeep
    } else {
        ParseFault::NotAFile(at)
    }
}

/// Whether every statement that begins here has more levels than these.
#[tactic(auto, using(crate::proofs::Rooms::none_at_zero, crate::proofs::Rooms::none_at_one))]
fn lacks_levels(tokens: &[Token], at: usize, room: usize) -> bool
    ensures none { IsTrue result → stmt_at room tokens.now at ≡ None }
    ensures enough { result ≡ false → 0 < room }
{
    room == 0 || (room == 1 && !has(tokens, at, Terminal::LeftBrace))
}

/// The statement in a box.
fn boxed(alloc: Global, read: Part<Stmt>) -> Result<Part<Box<Stmt>>, ParseFault>
    ensures found { IfOk result (λ x. (x.tree.value ≡ read.tree) × (x.after ≡ read.after)) }
    ensures fault { IfErr result (λ e. e ≡ OutOfMemory) }
{
    Ok(Part {
        tree: Box::new(alloc, read.tree)?,
        after: read.after,
    })
}

/// A statement inside another one, of at most this many levels.
#[cycle(statements)]
#[inline(never)]
fn branch(
    alloc: Global,
    tokens: &[Token],
    at: usize,
    room: usize,
) -> Result<Part<Box<Stmt>>, ParseFault>
    requires deep { room ≤ most_levels }
    requires within { at ≤ length tokens.now }
    ensures exact { Finds (λ x. (stmt_view x.tree.value, x.after)) result
        (stmt_at room tokens.now at) }
    ensures within { IfOk result (λ x. (at < x.after) × (x.after ≤ length tokens.now)) }
{
    let read = statement(alloc, tokens, at, room)?;
    boxed(alloc, read)
}

/// Statements up to a closing brace.
#[cycle(statements)]
#[inline(never)]
fn read_block(
    alloc: Global,
    tokens: &[Token],
    at: usize,
    room: usize,
) -> Result<Part<Vec<Stmt>>, ParseFault>
    requires deep { room ≤ most_levels }
    requires within { at ≤ length tokens.now }
    ensures exact { Finds (λ x. (map stmt_view x.tree.items, x.after)) result
        (items_from (suc (length tokens.now)) (stmt_at room tokens.now) (not_brace tokens.now)
        at) }
    ensures within { IfOk result (λ x. (at ≤ x.after) × (x.after < length tokens.now)) }
{
    let mut stmts = Vec::new(alloc);
    let mut after = at;
    'items: while !has(tokens, after, Terminal::RightBrace) {
        let next = statement(alloc, tokens, after, room)?;
        stmts.push(next.tree)?;
        after = next.after;
    }
    Ok(Part { tree: stmts, after })
}

#[cycle(statements)]
#[tactic(auto, unfolding(crate::specs::StatementReading::block_at))]
#[inline(never)]
fn block(alloc: Global, tokens: &[Token], at: usize, room: usize) -> Result<Part<Stmt>, ParseFault>
    requires deep { room ≤ most_levels }
    requires within { at < length tokens.now }
    ensures exact { Finds (λ x. (stmt_view x.tree, x.after)) result
        (block_at (stmt_at room tokens.now) tokens.now at) }
    ensures within { IfOk result (λ x. (at < x.after) × (x.after ≤ length tokens.now)) }
{
    let body = read_block(alloc, tokens, at + 1, room)?;
    Ok(Part {
        tree: nodes::block(at, body.tree),
        after: body.after + 1,
    })
}

#[cycle(statements)]
#[tactic(auto, unfolding(crate::specs::StatementReading::if_at))]
#[inline(never)]
fn choice(alloc: Global, tokens: &[Token], at: usize, room: usize) -> Result<Part<Stmt>, ParseFault>
    requires deep { room ≤ most_levels }
    requires within { at < length tokens.now }
    ensures exact { Finds (λ x. (stmt_view x.tree, x.after)) result
        (if_at (exp_at room tokens.now any_tier) (stmt_at room tokens.now) tokens.now at) }
    ensures within { IfOk result (λ x. (at < x.after) × (x.after ≤ length tokens.now)) }
{
    let condition = condition(alloc, tokens, at + 1, room)?;
    let first = branch(alloc, tokens, condition.after, room)?;
    let first = followed(tokens, first, Terminal::Else)?;
    let second = branch(alloc, tokens, first.after, room)?;
    Ok(Part {
        tree: nodes::choice(at, condition.exp, first.tree, second.tree),
        after: second.after,
    })
}

#[cycle(statements)]
#[tactic(auto, unfolding(crate::specs::StatementReading::while_at))]
#[inline(never)]
fn repetition(
    alloc: Global,
    tokens: &[Token],
    at: usize,
    room: usize,
) -> Result<Part<Stmt>, ParseFault>
    requires deep { room ≤ most_levels }
    requires within { at < length tokens.now }
    ensures exact { Finds (λ x. (stmt_view x.tree, x.after)) result
        (while_at (exp_at room tokens.now any_tier) (stmt_at room tokens.now) tokens.now at) }
    ensures within { IfOk result (λ x. (at < x.after) × (x.after ≤ length tokens.now)) }
{
    let condition = condition(alloc, tokens, at + 1, room)?;
    let body = branch(alloc, tokens, condition.after, room)?;
    Ok(Part {
        tree: nodes::repetition(at, condition.exp, body.tree),
        after: body.after,
    })
}

/// A statement of at most this many levels.
#[cycle(statements)]
#[tactic(auto, using(crate::proofs::Rooms::fails), unfolding(crate::specs::StatementReading::stmt_at, crate::specs::StatementReading::stmt_of))]
#[inline(never)]
pub fn statement(
    alloc: Global,
    tokens: &[Token],
    at: usize,
    room: usize,
) -> Result<Part<Stmt>, ParseFault>
    requires deep { room ≤ most_levels }
    requires within { at ≤ length tokens.now }
    ensures exact { Finds (λ x. (stmt_view x.tree, x.after)) result (stmt_at room tokens.now at) }
    ensures within { IfOk result (λ x. (at < x.after) × (x.after ≤ length tokens.now)) }
{
    if lacks_levels(tokens, at, room) {
        return Err(refusal(tokens, at));
    }
    if has(tokens, at, Terminal::LeftBrace) {
        block(alloc, tokens, at, room - 1)
    } else if has(tokens, at, Terminal::If) {
        choice(alloc, tokens, at, room - 1)
    } else if has(tokens, at, Terminal::While) {
        repetition(alloc, tokens, at, room - 1)
    } else {
        name_statement(alloc, tokens, at, room - 1)
    }
}

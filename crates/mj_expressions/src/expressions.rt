//! Reading an expression from left to right.
ghost use Rattle.std.specs.Prelude.{◌≡◌, ℕ, ◌+◌, ◌^◌, ◌<◌, ◌≤◌, ◌++◌, max, codes, length, map, [], ◌∷◌, true, false, Some, IfOk, IfErr, IsSome, IsTrue};
ghost use Rattle.mj_expressions.specs.Tokens.{has, says};
ghost use Rattle.mj_lexer.specs.declared.token.Terminal.TheVariants as terminals;
ghost use Rattle.mj_tree.specs.Trees.{Expression, Binary, Index, Length, Call, NewArray, NewObject, Not, Parenthesized};
ghost use Rattle.mj_expressions.specs.declared.fault.ParseFault.TheVariants.{NotAFile, OutOfMemory};
ghost use Rattle.mj_tree.specs.Views.{exp_view, exps_view};
ghost use Rattle.mj_tree.specs.Limits.{most_levels};
ghost use Rattle.mj_expressions.specs.Expressions.{any_tier, height, heights, is_new_array, tier_of};
ghost use Rattle.mj_expressions.specs.Steps.{Finds, when, listed_at};
ghost use Rattle.mj_expressions.specs.ExpressionReading.{close, object_at, new_at, prim_at, takes_index, index_at, member_at, post_from, post_at, operator_here, operator_at, binary_from, tier_at, exp_at};

use crate::fault::ParseFault;
use crate::nodes;
use crate::tokens::{expect, expect_name, expect_two, has, kind, says};
use mj_lexer::{Terminal, Token, TokenKind};
use mj_tree::{Exp, Operator};
use ordered_names::Name;
use std::alloc::Global;

/// The tier of any expression.
pub const ANY_TIER: usize = 5;

/// An expression, the place after it, and how many levels it has.
#[derive(Drop)]
pub struct ExpPart {
    pub exp: Exp,
    pub after: usize,
    pub height: usize,
}

#[tactic(auto, unfolding(crate::specs::ExpressionReading::operator_here))]
fn operator_here(tokens: &[Token], at: usize) -> Option<Operator>
    ensures value { result ≡ operator_here tokens.now at }
    ensures within { IsSome result → at < length tokens.now }
{
    if has(tokens, at, Terminal::And) {
        Some(Operator::And)
    } else if has(tokens, at, Terminal::Less) {
        Some(Operator::Less)
    } else if has(tokens, at, Terminal::Plus) {
        Some(Operator::Plus)
    } else if has(tokens, at, Terminal::Minus) {
        Some(Operator::Minus)
    } else if has(tokens, at, Terminal::Times) {
        Some(Operator::Times)
    } else {
        None
    }
}

fn tier_of(operator: Operator) -> usize
    ensures { result ≡ tier_of operator }
{
    match operator {
        Operator::And => 4,
        Operator::Less => 3,
        Operator::Plus | Operator::Minus => 2,
        Operator::Times => 1,
    }
}

/// The operator at a place, if its right operand is of this tier.
fn operator(tokens: &[Token], at: usize, tier: usize) -> Option<Operator>
    ensures value { result ≡ operator_at tokens.now at tier }
    ensures within { IsSome result → at < length tokens.now }
{
    let operator = operator_here(tokens, at)?;
    if tier_of(operator) == tier {
        Some(operator)
    } else {
        None
    }
}

/// The expression, if this symbol follows it, and the place after the symbol.
pub fn closed(tokens: &[Token], exp: ExpPart, terminal: Terminal) -> Result<ExpPart, ParseFault>
    requires { exp.after < 2 ^ 63 }
    ensures found { IfOk result (λ x.
        (has tokens.now exp.after terminal ≡ true) × (x.exp ≡ exp.exp) × (x.after ≡ exp.after + 1)
        × (x.height ≡ exp.height) × (x.after ≤ length tokens.now)) }
    ensures fault { IfErr result (λ e.
        (e ≡ NotAFile exp.after) × (has tokens.now exp.after terminal ≡ false)) }
{
    let after = expect(tokens, exp.after, terminal)?;
    Ok(ExpPart { after, ..exp })
}

/// Reads an expression of a tier, of at most this many levels.
#[cycle(expressions)]
#[tactic(auto, unfolding(crate::specs::ExpressionReading::exp_at))]
#[inline(never)]
pub fn read(
    alloc: Global,
    tokens: &[Token],
    at: usize,
    room: usize,
    tier: usize,
) -> Result<ExpPart, ParseFault>
    requires tiers { tier ≤ any_tier }
    requires deep { room ≤ most_levels }
    requires within { at ≤ length tokens.now }
    ensures exact { Finds (λ x. (exp_view x.exp, x.after)) result (exp_at room tokens.now tier at) }
    ensures within { IfOk result (λ x. (at < x.after) × (x.after ≤ length tokens.now)) }
    ensures height { IfOk result (λ x. x.height ≡ height (exp_view x.exp)) }
    ensures low { IfOk result (λ x. x.height ≤ room) }
{
    if room == 0 {
        return Err(ParseFault::TooDeep);
    }
    read_tier(alloc, tokens, at, room - 1, tier)
}

/// The negation of an expression.
fn negated(alloc: Global, at: usize, operand: ExpPart) -> Result<ExpPart, ParseFault>
    requires height { operand.height ≡ height (exp_view operand.exp) }
    requires low { operand.height ≤ most_levels }
    ensures exact { Finds {A = Expression × ℕ} (λ x. (exp_view x.exp, x.after)) result
        (Some (Not at (exp_view operand.exp), operand.after)) }
    ensures place { IfOk result (λ x. x.after ≡ operand.after) }
    ensures height { IfOk result (λ x. x.height ≡ height (exp_view x.exp)) }
    ensures low { IfOk result (λ x. x.height ≡ operand.height + 1) }
{
    Ok(ExpPart {
        exp: nodes::not(alloc, at, operand.exp)?,
        after: operand.after,
        height: operand.height + 1,
    })
}

/// Two expressions with an operator between them.
fn joined(
    alloc: Global,
    operator: Operator,
    left: ExpPart,
    right: ExpPart,
) -> Result<ExpPart, ParseFault>
    requires { (left.height ≤ most_levels) × (right.height ≤ most_levels) }
    ensures found { IfOk result (λ x.
        (exp_view x.exp ≡ Binary operator left.after (exp_view left.exp) (exp_view right.exp))
        × (x.after ≡ right.after) × (x.height ≡ max left.height right.height + 1)) }
    ensures fault { IfErr result (λ e. e ≡ OutOfMemory) }
{
    Ok(ExpPart {
        exp: nodes::binary(alloc, operator, left.after, left.exp, right.exp)?,
        after: right.after,
        height: left.height.max(right.height) + 1,
    })
}

/// Reads an expression of a tier whose parts have at most this many levels.
#[cycle(expressions)]
#[tactic(auto, using(crate::proofs::Loops::no_room), unfolding(crate::specs::ExpressionReading::tier_at))]
#[inline(never)]
fn read_tier(
    alloc: Global,
    tokens: &[Token],
    at: usize,
    room: usize,
    tier: usize,
) -> Result<ExpPart, ParseFault>
    requires tiers { tier ≤ any_tier }
    requires deep { room ≤ most_levels }
    requires within { at ≤ length tokens.now }
    ensures exact { Finds (λ x. (exp_view x.exp, x.after)) result
        (tier_at (exp_at room tokens.now) tokens.now room tier at) }
    ensures within { IfOk result (λ x. (at < x.after) × (x.after ≤ length tokens.now)) }
    ensures height { IfOk result (λ x. x.height ≡ height (exp_view x.exp)) }
    ensures low { IfOk result (λ x. x.height ≤ room + 1) }
{
    if tier == 0 {
        return post(alloc, tokens, at, room);
    }
    if tier == 1 {
        if !has(tokens, at, Terminal::Not) {
            return post(alloc, tokens, at, room);
        }
        if room == 0 {
            return Err(ParseFault::TooDeep);
        }
        let operand = read(alloc, tokens, at + 1, room, 1)?;
        return negated(alloc, at, operand);
    }
    let left = read_tier(alloc, tokens, at, room, tier - 1)?;
    chain(alloc, tokens, left, room, tier - 1)
}

/// The expression with the operators of a tier that follow it, grouped to the left.
#[cycle(expressions)]
#[tactic(auto, unfolding(crate::specs::ExpressionReading::binary_from))]
#[inline(never)]
fn chain(
    alloc: Global,
    tokens: &[Token],
    first: ExpPart,
    room: usize,
    tier: usize,
) -> Result<ExpPart, ParseFault>
    requires tiers { tier ≤ 4 }
    requires deep { room ≤ most_levels }
    requires within { first.after ≤ length tokens.now }
    requires height { first.height ≡ height (exp_view first.exp) }
    requires low { first.height ≤ room + 1 }
    ensures exact { (gas : ℕ) → length tokens.now < gas + first.after
        → Finds (λ x. (exp_view x.exp, x.after)) result
        (binary_from gas (exp_at room tokens.now) tokens.now room tier
        (exp_view first.exp) first.after) }
    ensures within { IfOk result (λ x. (first.after ≤ x.after) × (x.after ≤ length tokens.now)) }
    ensures height { IfOk result (λ x. x.height ≡ height (exp_view x.exp)) }
    ensures low { IfOk result (λ x. x.height ≤ room + 1) }
{
    let mut left = first;
    'chain: while let Some(operator) = operator(tokens, left.after, tier) {
        if left.height > room {
            return Err(ParseFault::TooDeep);
        }
        let right = read(alloc, tokens, left.after + 1, room, tier)?;
        left = joined(alloc, operator, left, right)?;
    }
    Ok(left)
}

#[cycle(expressions)]
#[tactic(auto, unfolding(crate::specs::ExpressionReading::post_at))]
#[inline(never)]
fn post(alloc: Global, tokens: &[Token], at: usize, room: usize) -> Result<ExpPart, ParseFault>
    requires deep { room ≤ most_levels }
    requires within { at ≤ length tokens.now }
    ensures exact { Finds (λ x. (exp_view x.exp, x.after)) result
        (post_at (exp_at room tokens.now) tokens.now room at) }
    ensures within { IfOk result (λ x. (at < x.after) × (x.after ≤ length tokens.now)) }
    ensures height { IfOk result (λ x. x.height ≡ height (exp_view x.exp)) }
    ensures low { IfOk result (λ x. x.height ≤ room + 1) }
{
    let first = prim(alloc, tokens, at, room)?;
    read_suffixes(alloc, tokens, first, room)
}

/// The expression with the indices and members that follow it.
#[cycle(expressions)]
#[inline(never)]
fn read_suffixes(
    alloc: Global,
    tokens: &[Token],
    first: ExpPart,
    room: usize,
) -> Result<ExpPart, ParseFault>
    requires deep { room ≤ most_levels }
    requires within { first.after ≤ length tokens.now }
    requires height { first.height ≡ height (exp_view first.exp) }
    requires low { first.height ≤ room + 1 }
    ensures exact { (gas : ℕ) → length tokens.now < gas + first.after
        → Finds (λ x. (exp_view x.exp, x.after)) result
        (post_from gas (exp_at room tokens.now) tokens.now room (exp_view first.exp)
        first.after) }
    ensures within { IfOk result (λ x. (first.after ≤ x.after) × (x.after ≤ length tokens.now)) }
    ensures height { IfOk result (λ x. x.height ≡ height (exp_view x.exp)) }
    ensures low { IfOk result (λ x. x.height ≤ room + 1) }
{
    let mut left = first;
    'items: loop {
        if takes_index(tokens, &left) {
            if left.height > room {
                return Err(ParseFault::TooDeep);
            }
            left = index(alloc, tokens, left, room)?;
        } else if has(tokens, left.after, Terminal::Dot) {
            if left.height > room {
                return Err(ParseFault::TooDeep);
            }
            left = member(alloc, tokens, left, room)?;
        } else {
            return Ok(left);
        }
    }
}

/// Whether an index follows the expression.
fn takes_index(tokens: &[Token], left: &ExpPart) -> bool
    ensures value { result ≡ takes_index tokens.now (exp_view left.now.exp) left.now.after }
    ensures within { IsTrue result → left.now.after < length tokens.now }
{
    has(tokens, left.after, Terminal::LeftBracket) && !is_new_array(&left.exp)
}

fn is_new_array(exp: &Exp) -> bool
    ensures { result ≡ is_new_array (exp_view exp.now) }
{
    matches!(exp, Exp::NewArray { .. })
}

/// The element of an array at an index, with the bracket that closes it.
fn indexed(
    alloc: Global,
    tokens: &[Token],
    left: ExpPart,
    index: ExpPart,
) -> Result<ExpPart, ParseFault>
    requires within { (left.after < index.after) × (index.after ≤ length tokens.now) }
    requires heights { (left.height ≡ height (exp_view left.exp))
        × (index.height ≡ height (exp_view index.exp)) }
    requires low { (left.height ≤ most_levels) × (index.height ≤ most_levels) }
    ensures exact { Finds (λ x. (exp_view x.exp, x.after)) result
        (close tokens.now terminals.RightBracket (Index left.after (exp_view left.exp))
        (exp_view index.exp, index.after)) }
    ensures within { IfOk result (λ x. (left.after < x.after) × (x.after ≤ length tokens.now)) }
    ensures height { IfOk result (λ x. x.height ≡ height (exp_view x.exp)) }
    ensures low { IfOk result (λ x. x.height ≡ max left.height index.height + 1) }
{
    let index = closed(tokens, index, Terminal::RightBracket)?;
    let height = left.height.max(index.height) + 1;
    Ok(ExpPart {
        exp: nodes::index(alloc, left.after, left.exp, index.exp)?,
        after: index.after,
        height,
    })
}

#[cycle(expressions)]
#[tactic(auto, unfolding(crate::specs::ExpressionReading::index_at))]
#[inline(never)]
fn index(alloc: Global, tokens: &[Token], left: ExpPart, room: usize) -> Result<ExpPart, ParseFault>
    requires deep { room ≤ most_levels }
    requires within { left.after < length tokens.now }
    requires height { left.height ≡ height (exp_view left.exp) }
    requires low { left.height ≤ room }
    ensures exact { Finds (λ x. (exp_view x.exp, x.after)) result
        (index_at (exp_at room tokens.now) tokens.now (exp_view left.exp) left.after) }
    ensures within { IfOk result (λ x. (left.after < x.after) × (x.after ≤ length tokens.now)) }
    ensures height { IfOk result (λ x. x.height ≡ height (exp_view x.exp)) }
    ensures low { IfOk result (λ x. x.height ≤ room + 1) }
{
    let index = read(alloc, tokens, left.after + 1, room, ANY_TIER)?;
    indexed(alloc, tokens, left, index)
}

/// Expressions between commas, the place after them, and how many levels they have.
#[derive(Drop)]
struct ArgumentList {
    exps: Vec<Exp>,
    after: usize,
    height: usize,
}

/// The call of a method; its name stands two places before the arguments.
fn called(
    alloc: Global,
    left: ExpPart,
    name: &Name,
    listed: ArgumentList,
) -> Result<ExpPart, ParseFault>
    requires place { left.after < 2 ^ 63 }
    requires heights { (left.height ≡ height (exp_view left.exp))
        × (listed.height ≡ heights (exps_view listed.exps.items)) }
    requires low { (left.height ≤ most_levels) × (listed.height ≤ most_levels) }
    ensures exact { Finds {A = Expression × ℕ} (λ x. (exp_view x.exp, x.after)) result
        (Some (
          Call (left.after + 1) (exp_view left.exp) name.now
              (exps_view listed.exps.items),
          listed.after,
        )) }
    ensures place { IfOk result (λ x. x.after ≡ listed.after) }
    ensures height { IfOk result (λ x. x.height ≡ height (exp_view x.exp)) }
    ensures low { IfOk result (λ x. x.height ≡ max left.height listed.height + 1) }
{
    let height = left.height.max(listed.height) + 1;
    Ok(ExpPart {
        exp: nodes::call(alloc, left.after + 1, left.exp, name, listed.exps)?,
        after: listed.after,
        height,
    })
}

/// The length of an array; the word `length` has to stand behind the dot.
fn length_of(alloc: Global, tokens: &[Token], left: ExpPart) -> Result<ExpPart, ParseFault>
    requires within { left.after < length tokens.now }
    requires height { left.height ≡ height (exp_view left.exp) }
    requires low { left.height ≤ most_levels }
    ensures exact { Finds {A = Expression × ℕ} (λ x. (exp_view x.exp, x.after)) result
        (when (says tokens.now (left.after + 1) (codes "length"))
        (Some (Length (left.after + 1) (exp_view left.exp), left.after + 1 + 1))) }
    ensures within { IfOk result (λ x. (left.after < x.after) × (x.after ≤ length tokens.now)) }
    ensures height { IfOk result (λ x. x.height ≡ height (exp_view x.exp)) }
    ensures low { IfOk result (λ x. x.height ≡ left.height + 1) }
{
    let mark = left.after + 1;
    if !says(tokens, mark, b"length".as_slice()) {
        return Err(ParseFault::NotAFile(mark + 1));
    }
    Ok(ExpPart {
        exp: nodes::length(alloc, mark, left.exp)?,
        after: mark + 1,
        height: left.height + 1,
    })
}

#[cycle(expressions)]
#[tactic(auto, unfolding(crate::specs::ExpressionReading::member_at))]
#[inline(never)]
fn member(
    alloc: Global,
    tokens: &[Token],
    left: ExpPart,
    room: usize,
) -> Result<ExpPart, ParseFault>
    requires deep { room ≤ most_levels }
    requires within { left.after < length tokens.now }
    requires height { left.height ≡ height (exp_view left.exp) }
    requires low { left.height ≤ room }
    ensures exact { Finds (λ x. (exp_view x.exp, x.after)) result
        (member_at (exp_at room tokens.now) tokens.now (exp_view left.exp) (left.after + 1)) }
    ensures within { IfOk result (λ x. (left.after < x.after) × (x.after ≤ length tokens.now)) }
    ensures height { IfOk result (λ x. x.height ≡ height (exp_view x.exp)) }
    ensures low { IfOk result (λ x. x.height ≤ room + 1) }
{
    let mark = left.after + 1;
    let name = expect_name(tokens, mark)?;
    if has(tokens, mark + 1, Terminal::LeftParenthesis) {
        let listed = arguments(alloc, tokens, mark + 2, room)?;
        called(alloc, left, name, listed)
    } else {
        length_of(alloc, tokens, left)
    }
}

/// No arguments.
fn no_arguments(alloc: Global, after: usize) -> ArgumentList
    ensures { (result.exps.items ≡ []) × (result.after ≡ after) × (result.height ≡ 0) }
{
    ArgumentList {
        exps: Vec::new(alloc),
        after,
        height: 0,
    }
}

/// The arguments with one more behind them.
fn pushed(listed: ArgumentList, next: ExpPart) -> Result<ArgumentList, ParseFault>
    ensures found { IfOk result (λ x.
        (x.exps.items ≡ listed.exps.items ++ next.exp ∷ []) × (x.after ≡ next.after)
        × (x.height ≡ max listed.height next.height)) }
    ensures fault { IfErr result (λ e. e ≡ OutOfMemory) }
{
    let mut exps = listed.exps;
    exps.push(next.exp)?;
    Ok(ArgumentList {
        exps,
        after: next.after,
        height: listed.height.max(next.height),
    })
}

/// The arguments, with the parenthesis that closes them.
fn ended(tokens: &[Token], listed: ArgumentList) -> Result<ArgumentList, ParseFault>
    requires { listed.after < 2 ^ 63 }
    ensures found { IfOk result (λ x.
        (has tokens.now listed.after terminals.RightParenthesis ≡ true)
        × (x.exps.items ≡ listed.exps.items) × (x.after ≡ listed.after + 1)
        × (x.after ≤ length tokens.now)) }
    ensures height { IfOk result (λ x. x.height ≡ listed.height) }
    ensures fault { IfErr result (λ e.
        (e ≡ NotAFile listed.after)
        × (has tokens.now listed.after terminals.RightParenthesis ≡ false)) }
{
    let after = expect(tokens, listed.after, Terminal::RightParenthesis)?;
    Ok(ArgumentList { after, ..listed })
}

#[cycle(expressions)]
#[inline(never)]
fn arguments(
    alloc: Global,
    tokens: &[Token],
    at: usize,
    room: usize,
) -> Result<ArgumentList, ParseFault>
    requires deep { room ≤ most_levels }
    requires within { at ≤ length tokens.now }
    ensures exact { Finds (λ x. (map exp_view x.exps.items, x.after)) result
        (listed_at (exp_at room tokens.now any_tier) tokens.now at) }
    ensures within { IfOk result (λ x. (at < x.after) × (x.after ≤ length tokens.now)) }
    ensures height { IfOk result (λ x. x.height ≡ heights (exps_view x.exps.items)) }
    ensures low { IfOk result (λ x. x.height ≤ room) }
{
    if has(tokens, at, Terminal::RightParenthesis) {
        return Ok(no_arguments(alloc, at + 1));
    }
    let first = read(alloc, tokens, at, room, ANY_TIER)?;
    let mut listed = pushed(no_arguments(alloc, at), first)?;
    'list: while has(tokens, listed.after, Terminal::Comma) {
        let next = read(alloc, tokens, listed.after + 1, room, ANY_TIER)?;
        listed = pushed(listed, next)?;
    }
    ended(tokens, listed)
}

/// A new array of this length, with the bracket that closes it.
fn new_array(
    alloc: Global,
    tokens: &[Token],
    at: usize,
    size: ExpPart,
) -> Result<ExpPart, ParseFault>
    requires within { (at < size.after) × (size.after ≤ length tokens.now) }
    requires height { size.height ≡ height (exp_view size.exp) }
    requires low { size.height ≤ most_levels }
    ensures exact { Finds (λ x. (exp_view x.exp, x.after)) result
        (close tokens.now terminals.RightBracket (NewArray at)
        (exp_view size.exp, size.after)) }
    ensures within { IfOk result (λ x. (at < x.after) × (x.after ≤ length tokens.now)) }
    ensures height { IfOk result (λ x. x.height ≡ height (exp_view x.exp)) }
    ensures low { IfOk result (λ x. x.height ≡ size.height + 1) }
{
    let size = closed(tokens, size, Terminal::RightBracket)?;
    Ok(ExpPart {
        exp: nodes::new_array(alloc, at, size.exp)?,
        after: size.after,
        height: size.height + 1,
    })
}

/// A new object of a class; its name has to stand behind `new`.
fn new_object(alloc: Global, tokens: &[Token], at: usize) -> Result<ExpPart, ParseFault>
    requires { at < length tokens.now }
    ensures exact { Finds (λ x. (exp_view x.exp, x.after)) result (object_at tokens.now at) }
    ensures within { IfOk result (λ x. (at < x.after) × (x.after ≤ length tokens.now)) }
    ensures height { IfOk result (λ x. x.height ≡ height (exp_view x.exp)) }
    ensures low { IfOk result (λ x. x.height ≡ 1) }
{
    let class = expect_name(tokens, at + 1)?;
    let after = expect_two(
        tokens,
        at + 2,
        Terminal::LeftParenthesis,
        Terminal::RightParenthesis,
    )?;
    Ok(ExpPart {
        exp: nodes::new_object(alloc, at, class)?,
        after,
        height: 1,
    })
}

#[cycle(expressions)]
#[tactic(auto, using(crate::proofs::Loops::no_room), unfolding(crate::specs::ExpressionReading::new_at))]
#[inline(never)]
fn read_new(alloc: Global, tokens: &[Token], at: usize, room: usize) -> Result<ExpPart, ParseFault>
    requires deep { room ≤ most_levels }
    requires within { at < length tokens.now }
    ensures exact { Finds (λ x. (exp_view x.exp, x.after)) result
        (new_at (exp_at room tokens.now) tokens.now at) }
    ensures within { IfOk result (λ x. (at < x.after) × (x.after ≤ length tokens.now)) }
    ensures height { IfOk result (λ x. x.height ≡ height (exp_view x.exp)) }
    ensures low { IfOk result (λ x. x.height ≤ room + 1) }
{
    if has(tokens, at + 1, Terminal::Int) {
        if room == 0 {
            return Err(ParseFault::TooDeep);
        }
        let inside = expect(tokens, at + 2, Terminal::LeftBracket)?;
        let length = read(alloc, tokens, inside, room, ANY_TIER)?;
        new_array(alloc, tokens, at, length)
    } else {
        new_object(alloc, tokens, at)
    }
}

/// An expression of one token.
fn single(exp: Exp, at: usize) -> ExpPart
    requires { at < 2 ^ 63 }
    ensures { result ≡ record { exp = exp; after = at + 1; height = 1 } }
{
    ExpPart {
        exp,
        after: at + 1,
        height: 1,
    }
}

/// An expression in parentheses, with the one that closes them.
fn parenthesized(
    alloc: Global,
    tokens: &[Token],
    at: usize,
    inner: ExpPart,
) -> Result<ExpPart, ParseFault>
    requires within { (at < inner.after) × (inner.after ≤ length tokens.now) }
    requires height { inner.height ≡ height (exp_view inner.exp) }
    requires low { inner.height ≤ most_levels }
    ensures exact { Finds (λ x. (exp_view x.exp, x.after)) result
        (close tokens.now terminals.RightParenthesis (Parenthesized at)
        (exp_view inner.exp, inner.after)) }
    ensures within { IfOk result (λ x. (at < x.after) × (x.after ≤ length tokens.now)) }
    ensures height { IfOk result (λ x. x.height ≡ height (exp_view x.exp)) }
    ensures low { IfOk result (λ x. x.height ≡ inner.height + 1) }
{
    let inner = closed(tokens, inner, Terminal::RightParenthesis)?;
    Ok(ExpPart {
        exp: nodes::parentheses(alloc, at, inner.exp)?,
        after: inner.after,
        height: inner.height + 1,
    })
}

#[cycle(expressions)]
#[tactic(auto, using(crate::proofs::Loops::no_room), unfolding(crate::specs::ExpressionReading::prim_at, crate::specs::ExpressionReading::terminal_at))]
#[inline(never)]
fn prim(alloc: Global, tokens: &[Token], at: usize, room: usize) -> Result<ExpPart, ParseFault>
    requires deep { room ≤ most_levels }
    requires within { at ≤ length tokens.now }
    ensures exact { Finds (λ x. (exp_view x.exp, x.after)) result
        (prim_at (exp_at room tokens.now) tokens.now at) }
    ensures within { IfOk result (λ x. (at < x.after) × (x.after ≤ length tokens.now)) }
    ensures height { IfOk result (λ x. x.height ≡ height (exp_view x.exp)) }
    ensures low { IfOk result (λ x. x.height ≤ room + 1) }
{
    match kind(tokens, at) {
        Some(TokenKind::Identifier(name)) => Ok(single(nodes::variable(alloc, at, name)?, at)),
        Some(TokenKind::Literal(value)) => Ok(single(nodes::literal(at, *value), at)),
        Some(TokenKind::Terminal(terminal)) => match *terminal {
            Terminal::True => Ok(single(nodes::boolean(at, true), at)),
            Terminal::False => Ok(single(nodes::boolean(at, false), at)),
            Terminal::This => Ok(single(nodes::this(at), at)),
            Terminal::New => read_new(alloc, tokens, at, room),
            Terminal::LeftParenthesis if room == 0 => Err(ParseFault::TooDeep),
            Terminal::LeftParenthesis => {
                let inner = read(alloc, tokens, at + 1, room, ANY_TIER)?;
                parenthesized(alloc, tokens, at, inner)
            }
            _ => Err(ParseFault::NotAFile(at)),
        },
        None => Err(ParseFault::NotAFile(at)),
    }
}

//! Reading expressions.
ghost use Rattle.std.specs.Prelude.{◌≡◌, List, [], map};
ghost use Rattle.mj_tree.specs.Trees.{Literal, Named, NewObject};
ghost use Rattle.mj_tree.specs.Views.{exp_view, exps_view};
ghost use Rattle.byte_readers.specs.Reading.{Decodes, made_at, name_at, list_from, any};
ghost use Rattle.tree_spelling.specs.Reading.{literal_at, two_of, one_of, exp_at, exp_body_at, exps_at, top_exp_at};

use crate::tag::{ExpTag, OnePart, TwoParts, exp_tag_of};
use byte_readers::{ReadError, not_canonical, read_byte, read_eight, read_four, read_name};
use mj_lexer::GREATEST_LITERAL;
use mj_tree::{Exp, MOST_LEVELS};
use std::alloc::Global;

/// Reads an expression of level 1.
#[tactic(auto, unfolding(crate::specs::Reading::top_exp_at))]
pub fn read_top_exp(alloc: Global, bytes: &[u8]) -> Result<(Exp, &[u8]), ReadError>
    ensures { Decodes exp_view result (top_exp_at bytes.now) }
{
    read_exp(alloc, bytes, MOST_LEVELS)
}

/// Reads an expression of at most this many levels.
#[cycle(expressions)]
#[tactic(auto, unfolding(crate::specs::Reading::exp_at))]
#[inline(never)]
pub fn read_exp(alloc: Global, bytes: &[u8], room: usize) -> Result<(Exp, &[u8]), ReadError>
    ensures { Decodes exp_view result (exp_at room bytes.now) }
{
    let (tag, rest) = read_byte(bytes)?;
    if room == 0 {
        return Err(not_canonical(bytes));
    }
    let Some(tag) = exp_tag_of(tag) else {
        return Err(not_canonical(bytes));
    };
    let (mark, rest) = read_four(rest)?;
    read_exp_body(alloc, tag, mark as usize, rest, room - 1)
}

#[cycle(expressions)]
#[inline(never)]
fn read_exp_body(
    alloc: Global,
    tag: ExpTag,
    mark: usize,
    bytes: &[u8],
    room: usize,
) -> Result<(Exp, &[u8]), ReadError>
    ensures { Decodes exp_view result
        (exp_body_at (exp_at room) tag mark bytes.now) }
{
    match tag {
        ExpTag::Two(two) => read_two_parts(alloc, two, mark, bytes, room),
        ExpTag::One(one) => read_one_part(alloc, one, mark, bytes, room),
        ExpTag::Call => read_call(alloc, mark, bytes, room),
        ExpTag::Literal => read_literal(mark, bytes),
        ExpTag::Boolean(value) => Ok((Exp::Boolean { mark, value }, bytes)),
        ExpTag::Variable => read_variable(alloc, mark, bytes),
        ExpTag::This => Ok((Exp::This { mark }, bytes)),
        ExpTag::NewObject => read_new_object(alloc, mark, bytes),
    }
}

#[cycle(expressions)]
#[inline(never)]
fn read_boxed(alloc: Global, bytes: &[u8], room: usize) -> Result<(Box<Exp>, &[u8]), ReadError>
    ensures { Decodes (λ x. exp_view x.value) result (exp_at room bytes.now) }
{
    let (part, rest) = read_exp(alloc, bytes, room)?;
    Ok((Box::new(alloc, part)?, rest))
}

#[cycle(expressions)]
#[inline(never)]
fn read_two_parts(
    alloc: Global,
    two: TwoParts,
    mark: usize,
    bytes: &[u8],
    room: usize,
) -> Result<(Exp, &[u8]), ReadError>
    ensures { Decodes exp_view result
        (exp_body_at (exp_at room) (ExpTag.Two two) mark bytes.now) }
{
    let (first, rest) = read_boxed(alloc, bytes, room)?;
    let (second, rest) = read_boxed(alloc, rest, room)?;
    Ok((of_two(two, mark, first, second), rest))
}

#[cycle(expressions)]
#[inline(never)]
fn read_one_part(
    alloc: Global,
    one: OnePart,
    mark: usize,
    bytes: &[u8],
    room: usize,
) -> Result<(Exp, &[u8]), ReadError>
    ensures { Decodes exp_view result
        (exp_body_at (exp_at room) (ExpTag.One one) mark bytes.now) }
{
    let (part, rest) = read_boxed(alloc, bytes, room)?;
    Ok((of_one(one, mark, part), rest))
}

#[cycle(expressions)]
#[inline(never)]
fn read_call(
    alloc: Global,
    mark: usize,
    bytes: &[u8],
    room: usize,
) -> Result<(Exp, &[u8]), ReadError>
    ensures { Decodes exp_view result
        (exp_body_at (exp_at room) ExpTag.Call mark bytes.now) }
{
    let (receiver, rest) = read_boxed(alloc, bytes, room)?;
    let (method, rest) = read_name(alloc, rest)?;
    let (arguments, rest) = read_exps(alloc, rest, room)?;
    Ok((
        Exp::Call {
            mark,
            receiver,
            method,
            arguments,
        },
        rest,
    ))
}

#[cycle(expressions)]
#[tactic(auto, unfolding(byte_readers::specs::Reading::list_at))]
#[inline(never)]
fn read_exps(alloc: Global, bytes: &[u8], room: usize) -> Result<(Vec<Exp>, &[u8]), ReadError>
    ensures { Decodes (λ x. exps_view x.items) result
        (exps_at (exp_at room) bytes.now) }
{
    let (count, rest) = read_eight(bytes)?;
    read_all_exps(alloc, count, rest, room)
}

#[cycle(expressions)]
#[inline(never)]
fn read_all_exps(
    alloc: Global,
    count: u64,
    bytes: &[u8],
    room: usize,
) -> Result<(Vec<Exp>, &[u8]), ReadError>
    ensures { Decodes (λ x. map exp_view x.items) result
        (list_from (exp_at room) any [] count bytes.now) }
{
    let mut items = Vec::new(alloc);
    let mut rest = bytes;
    for _ in 0..count {
        let (item, after) = read_exp(alloc, rest, room)?;
        items.push(item)?;
        rest = after;
    }
    Ok((items, rest))
}

fn of_two(two: TwoParts, mark: usize, first: Box<Exp>, second: Box<Exp>) -> Exp
    ensures { exp_view result ≡ two_of two mark (exp_view first.value) (exp_view second.value) }
{
    match two {
        TwoParts::Binary(operator) => Exp::Binary {
            operator,
            mark,
            left: first,
            right: second,
        },
        TwoParts::Index => Exp::Index {
            mark,
            array: first,
            index: second,
        },
    }
}

fn of_one(one: OnePart, mark: usize, part: Box<Exp>) -> Exp
    ensures { exp_view result ≡ one_of one mark (exp_view part.value) }
{
    match one {
        OnePart::Length => Exp::Length { mark, array: part },
        OnePart::NewArray => Exp::NewArray { mark, length: part },
        OnePart::Not => Exp::Not {
            mark,
            operand: part,
        },
        OnePart::Parenthesized => Exp::Parenthesized { mark, inner: part },
    }
}

#[tactic(auto, unfolding(crate::specs::Reading::literal_at))]
fn read_literal(mark: usize, bytes: &[u8]) -> Result<(Exp, &[u8]), ReadError>
    ensures { Decodes exp_view result
        (made_at (Literal mark) literal_at bytes.now) }
{
    let (value, rest) = read_four(bytes)?;
    if u64::from(value) > GREATEST_LITERAL {
        return Err(not_canonical(bytes));
    }
    Ok((Exp::Literal { mark, value }, rest))
}

fn read_variable(alloc: Global, mark: usize, bytes: &[u8]) -> Result<(Exp, &[u8]), ReadError>
    ensures { Decodes exp_view result
        (made_at (Named mark) name_at bytes.now) }
{
    let (name, rest) = read_name(alloc, bytes)?;
    Ok((Exp::Variable { mark, name }, rest))
}

fn read_new_object(alloc: Global, mark: usize, bytes: &[u8]) -> Result<(Exp, &[u8]), ReadError>
    ensures { Decodes exp_view result
        (made_at (NewObject mark) name_at bytes.now) }
{
    let (class, rest) = read_name(alloc, bytes)?;
    Ok((Exp::NewObject { mark, class }, rest))
}

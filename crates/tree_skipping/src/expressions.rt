//! Skipping expressions.
ghost use Rattle.std.specs.Prelude.{◌≡◌};
ghost use Rattle.mj_tree.specs.Limits.{most_levels};
ghost use Rattle.tree_spelling.specs.declared.tag.ExpTag.{ExpTag};
ghost use Rattle.tree_spelling.specs.Reading.{literal_at};
ghost use Rattle.tree_skipping.specs.Skipping.{behind, Leaves, items_left, list_left, two_left, exp_left, exp_body_left};

use crate::parts::{skip_four, skip_name};
use byte_readers::{ReadError, not_canonical, read_byte, read_eight, read_four};
use mj_lexer::GREATEST_LITERAL;
use mj_tree::MOST_LEVELS;
use tree_spelling::{ExpTag, exp_tag_of};

/// Skips an expression of level 1.
pub fn skip_top_exp(bytes: &[u8]) -> Result<&[u8], ReadError>
    ensures { Leaves result (exp_left most_levels bytes.now) }
{
    skip_exp(bytes, MOST_LEVELS)
}

/// Skips an expression of at most this many levels.
#[cycle(skip_expressions)]
#[tactic(auto, unfolding(crate::specs::Skipping::exp_left))]
#[inline(never)]
pub fn skip_exp(bytes: &[u8], room: usize) -> Result<&[u8], ReadError>
    ensures { Leaves result (exp_left room bytes.now) }
{
    let (tag, rest) = read_byte(bytes)?;
    if room == 0 {
        return Err(not_canonical(bytes));
    }
    let Some(tag) = exp_tag_of(tag) else {
        return Err(not_canonical(bytes));
    };
    let rest = skip_four(rest)?;
    skip_exp_body(tag, rest, room - 1)
}

/// Skips what follows the tag and the mark of an expression.
#[cycle(skip_expressions)]
#[inline(never)]
fn skip_exp_body(tag: ExpTag, bytes: &[u8], room: usize) -> Result<&[u8], ReadError>
    ensures { Leaves result (exp_body_left (exp_left room) tag bytes.now) }
{
    match tag {
        ExpTag::Two(_) => skip_two_parts(bytes, room),
        ExpTag::One(_) => skip_exp(bytes, room),
        ExpTag::Call => skip_call(bytes, room),
        ExpTag::Literal => skip_literal(bytes),
        ExpTag::Boolean(_) => Ok(bytes),
        ExpTag::Variable => skip_name(bytes),
        ExpTag::This => Ok(bytes),
        ExpTag::NewObject => skip_name(bytes),
    }
}

/// Skips two expressions.
#[cycle(skip_expressions)]
#[inline(never)]
fn skip_two_parts(bytes: &[u8], room: usize) -> Result<&[u8], ReadError>
    ensures { Leaves result (two_left (exp_left room) bytes.now) }
{
    let rest = skip_exp(bytes, room)?;
    skip_exp(rest, room)
}

/// Skips what follows the tag and the mark of a call.
#[cycle(skip_expressions)]
#[inline(never)]
fn skip_call(bytes: &[u8], room: usize) -> Result<&[u8], ReadError>
    ensures { Leaves result (exp_body_left (exp_left room) ExpTag.Call bytes.now) }
{
    let rest = skip_exp(bytes, room)?;
    let rest = skip_name(rest)?;
    skip_exps(rest, room)
}

/// Skips a list of expressions.
#[cycle(skip_expressions)]
#[tactic(auto, unfolding(crate::specs::Skipping::list_left))]
#[inline(never)]
fn skip_exps(bytes: &[u8], room: usize) -> Result<&[u8], ReadError>
    ensures { Leaves result (list_left (exp_left room) bytes.now) }
{
    let (count, rest) = read_eight(bytes)?;
    skip_all_exps(count, rest, room)
}

/// Skips so many expressions.
#[cycle(skip_expressions)]
#[inline(never)]
fn skip_all_exps(count: u64, bytes: &[u8], room: usize) -> Result<&[u8], ReadError>
    ensures { Leaves result (items_left (exp_left room) count bytes.now) }
{
    let mut rest = bytes;
    for _ in 0..count {
        rest = skip_exp(rest, room)?;
    }
    Ok(rest)
}

/// Skips the value of a literal.
#[tactic(auto, unfolding(tree_spelling::specs::Reading::literal_at))]
fn skip_literal(bytes: &[u8]) -> Result<&[u8], ReadError>
    ensures { Leaves result (behind (literal_at bytes.now)) }
{
    let (value, rest) = read_four(bytes)?;
    if u64::from(value) > GREATEST_LITERAL {
        return Err(not_canonical(bytes));
    }
    Ok(rest)
}

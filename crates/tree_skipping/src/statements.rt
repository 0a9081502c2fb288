//! Skipping statements.
ghost use Rattle.std.specs.Prelude.{◌≡◌};
ghost use Rattle.mj_tree.specs.Limits.{most_levels};
ghost use Rattle.tree_spelling.specs.Reading.{top_stmt_at};
ghost use Rattle.tree_skipping.specs.Skipping.{Skips, Leaves, items_left, list_left, exp_left, stmt_left, stmt_body_left};

use crate::expressions::skip_exp;
use crate::parts::{skip_four, skip_name};
use byte_readers::{ReadError, not_canonical, read_byte, read_eight};
use mj_tree::MOST_LEVELS;
use tree_spelling::{StmtTag, stmt_tag_of};

/// Skips a statement of level 1.
pub fn skip_top_stmt(bytes: &[u8]) -> Result<&[u8], ReadError>
    ensures { Skips result (top_stmt_at bytes.now) }
{
    skip_stmt(bytes, MOST_LEVELS)
}

/// Skips the statements of a body.
pub fn skip_top_stmts(bytes: &[u8]) -> Result<&[u8], ReadError>
    ensures { Leaves result (list_left (stmt_left most_levels) bytes.now) }
{
    skip_stmts(bytes, MOST_LEVELS)
}

/// Skips a statement of at most this many levels.
#[cycle(skip_statements)]
#[tactic(auto, unfolding(crate::specs::Skipping::stmt_left))]
#[inline(never)]
fn skip_stmt(bytes: &[u8], room: usize) -> Result<&[u8], ReadError>
    ensures { Leaves result (stmt_left room bytes.now) }
{
    let (tag, rest) = read_byte(bytes)?;
    if room == 0 {
        return Err(not_canonical(bytes));
    }
    let Some(tag) = stmt_tag_of(tag) else {
        return Err(not_canonical(bytes));
    };
    let rest = skip_four(rest)?;
    skip_stmt_body(tag, rest, room - 1)
}

/// Skips what follows the tag and the mark of a statement.
#[cycle(skip_statements)]
#[inline(never)]
fn skip_stmt_body(tag: StmtTag, bytes: &[u8], room: usize) -> Result<&[u8], ReadError>
    ensures { Leaves result (stmt_body_left (exp_left room) (stmt_left room) tag bytes.now) }
{
    match tag {
        StmtTag::Block => skip_stmts(bytes, room),
        StmtTag::If => skip_if(bytes, room),
        StmtTag::While => skip_while(bytes, room),
        StmtTag::Print => skip_exp(bytes, room),
        StmtTag::Assign => skip_assign(bytes, room),
        StmtTag::Store => skip_store(bytes, room),
    }
}

/// Skips a list of statements.
#[cycle(skip_statements)]
#[tactic(auto, unfolding(crate::specs::Skipping::list_left))]
#[inline(never)]
fn skip_stmts(bytes: &[u8], room: usize) -> Result<&[u8], ReadError>
    ensures { Leaves result (list_left (stmt_left room) bytes.now) }
{
    let (count, rest) = read_eight(bytes)?;
    skip_all_stmts(count, rest, room)
}

/// Skips so many statements.
#[cycle(skip_statements)]
#[inline(never)]
fn skip_all_stmts(count: u64, bytes: &[u8], room: usize) -> Result<&[u8], ReadError>
    ensures { Leaves result (items_left (stmt_left room) count bytes.now) }
{
    let mut rest = bytes;
    for _ in 0..count {
        rest = skip_stmt(rest, room)?;
    }
    Ok(rest)
}

/// Skips what follows the tag and the mark of an `if`.
#[cycle(skip_statements)]
#[inline(never)]
fn skip_if(bytes: &[u8], room: usize) -> Result<&[u8], ReadError>
    ensures { Leaves result
        (stmt_body_left (exp_left room) (stmt_left room) StmtTag.If bytes.now) }
{
    let rest = skip_exp(bytes, room)?;
    let rest = skip_stmt(rest, room)?;
    skip_stmt(rest, room)
}

/// Skips what follows the tag and the mark of a `while`.
#[cycle(skip_statements)]
#[inline(never)]
fn skip_while(bytes: &[u8], room: usize) -> Result<&[u8], ReadError>
    ensures { Leaves result
        (stmt_body_left (exp_left room) (stmt_left room) StmtTag.While bytes.now) }
{
    let rest = skip_exp(bytes, room)?;
    skip_stmt(rest, room)
}

/// Skips what follows the tag and the mark of an assignment.
#[inline(never)]
fn skip_assign(bytes: &[u8], room: usize) -> Result<&[u8], ReadError>
    ensures { Leaves result
        (stmt_body_left (exp_left room) (stmt_left room) StmtTag.Assign bytes.now) }
{
    let rest = skip_name(bytes)?;
    let rest = skip_four(rest)?;
    skip_exp(rest, room)
}

/// Skips what follows the tag and the mark of an assignment to an element.
#[inline(never)]
fn skip_store(bytes: &[u8], room: usize) -> Result<&[u8], ReadError>
    ensures { Leaves result
        (stmt_body_left (exp_left room) (stmt_left room) StmtTag.Store bytes.now) }
{
    let rest = skip_name(bytes)?;
    let rest = skip_four(rest)?;
    let rest = skip_exp(rest, room)?;
    skip_exp(rest, room)
}

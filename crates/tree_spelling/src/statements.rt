//! Reading statements.
ghost use Rattle.std.specs.Prelude.{◌≡◌, List, [], map};
ghost use Rattle.mj_tree.specs.Views.{stmt_view, stmts_view};
ghost use Rattle.byte_readers.specs.Reading.{Decodes, list_from, any};
ghost use Rattle.tree_spelling.specs.Reading.{exp_at, stmt_at, stmt_body_at, stmts_at, top_stmt_at, top_stmts_at};

use crate::expressions::read_exp;
use crate::tag::{StmtTag, stmt_tag_of};
use byte_readers::{ReadError, not_canonical, read_byte, read_eight, read_four, read_name};
use mj_tree::{MOST_LEVELS, Stmt};
use std::alloc::Global;

/// Reads a statement of level 1.
#[tactic(auto, unfolding(crate::specs::Reading::top_stmt_at))]
pub fn read_top_stmt(alloc: Global, bytes: &[u8]) -> Result<(Stmt, &[u8]), ReadError>
    ensures { Decodes stmt_view result (top_stmt_at bytes.now) }
{
    read_stmt(alloc, bytes, MOST_LEVELS)
}

/// Reads the statements of a body.
#[tactic(auto, unfolding(crate::specs::Reading::top_stmts_at))]
pub fn read_top_stmts(alloc: Global, bytes: &[u8]) -> Result<(Vec<Stmt>, &[u8]), ReadError>
    ensures { Decodes (λ x. stmts_view x.items) result (top_stmts_at bytes.now) }
{
    read_stmts(alloc, bytes, MOST_LEVELS)
}

/// Reads a statement of at most this many levels.
#[cycle(statements)]
#[tactic(auto, unfolding(crate::specs::Reading::stmt_at))]
#[inline(never)]
fn read_stmt(alloc: Global, bytes: &[u8], room: usize) -> Result<(Stmt, &[u8]), ReadError>
    ensures { Decodes stmt_view result (stmt_at room bytes.now) }
{
    let (tag, rest) = read_byte(bytes)?;
    if room == 0 {
        return Err(not_canonical(bytes));
    }
    let Some(tag) = stmt_tag_of(tag) else {
        return Err(not_canonical(bytes));
    };
    let (mark, rest) = read_four(rest)?;
    read_stmt_body(alloc, tag, mark as usize, rest, room - 1)
}

#[cycle(statements)]
#[inline(never)]
fn read_stmt_body(
    alloc: Global,
    tag: StmtTag,
    mark: usize,
    bytes: &[u8],
    room: usize,
) -> Result<(Stmt, &[u8]), ReadError>
    ensures { Decodes stmt_view result
        (stmt_body_at (exp_at room) (stmt_at room) tag mark bytes.now) }
{
    match tag {
        StmtTag::Block => read_block(alloc, mark, bytes, room),
        StmtTag::If => read_if(alloc, mark, bytes, room),
        StmtTag::While => read_while(alloc, mark, bytes, room),
        StmtTag::Print => read_print(alloc, mark, bytes, room),
        StmtTag::Assign => read_assign(alloc, mark, bytes, room),
        StmtTag::Store => read_store(alloc, mark, bytes, room),
    }
}

#[cycle(statements)]
#[inline(never)]
fn read_block(
    alloc: Global,
    mark: usize,
    bytes: &[u8],
    room: usize,
) -> Result<(Stmt, &[u8]), ReadError>
    ensures { Decodes stmt_view result
        (stmt_body_at (exp_at room) (stmt_at room) StmtTag.Block mark bytes.now) }
{
    let (body, rest) = read_stmts(alloc, bytes, room)?;
    Ok((Stmt::Block { mark, body }, rest))
}

#[cycle(statements)]
#[tactic(auto, unfolding(byte_readers::specs::Reading::list_at))]
#[inline(never)]
fn read_stmts(alloc: Global, bytes: &[u8], room: usize) -> Result<(Vec<Stmt>, &[u8]), ReadError>
    ensures { Decodes (λ x. stmts_view x.items) result
        (stmts_at (stmt_at room) bytes.now) }
{
    let (count, rest) = read_eight(bytes)?;
    read_all_stmts(alloc, count, rest, room)
}

#[cycle(statements)]
#[inline(never)]
fn read_all_stmts(
    alloc: Global,
    count: u64,
    bytes: &[u8],
    room: usize,
) -> Result<(Vec<Stmt>, &[u8]), ReadError>
    ensures { Decodes (λ x. map stmt_view x.items) result
        (list_from (stmt_at room) any [] count bytes.now) }
{
    let mut items = Vec::new(alloc);
    let mut rest = bytes;
    for _ in 0..count {
        let (item, after) = read_stmt(alloc, rest, room)?;
        items.push(item)?;
        rest = after;
    }
    Ok((items, rest))
}

#[cycle(statements)]
#[inline(never)]
fn read_if(
    alloc: Global,
    mark: usize,
    bytes: &[u8],
    room: usize,
) -> Result<(Stmt, &[u8]), ReadError>
    ensures { Decodes stmt_view result
        (stmt_body_at (exp_at room) (stmt_at room) StmtTag.If mark bytes.now) }
{
    let (condition, rest) = read_exp(alloc, bytes, room)?;
    let (then_branch, rest) = read_boxed(alloc, rest, room)?;
    let (else_branch, rest) = read_boxed(alloc, rest, room)?;
    Ok((
        Stmt::If {
            mark,
            condition,
            then_branch,
            else_branch,
        },
        rest,
    ))
}

#[cycle(statements)]
#[inline(never)]
fn read_while(
    alloc: Global,
    mark: usize,
    bytes: &[u8],
    room: usize,
) -> Result<(Stmt, &[u8]), ReadError>
    ensures { Decodes stmt_view result
        (stmt_body_at (exp_at room) (stmt_at room) StmtTag.While mark bytes.now) }
{
    let (condition, rest) = read_exp(alloc, bytes, room)?;
    let (body, rest) = read_boxed(alloc, rest, room)?;
    Ok((
        Stmt::While {
            mark,
            condition,
            body,
        },
        rest,
    ))
}

#[cycle(statements)]
#[inline(never)]
fn read_boxed(alloc: Global, bytes: &[u8], room: usize) -> Result<(Box<Stmt>, &[u8]), ReadError>
    ensures { Decodes (λ x. stmt_view x.value) result (stmt_at room bytes.now) }
{
    let (part, rest) = read_stmt(alloc, bytes, room)?;
    Ok((Box::new(alloc, part)?, rest))
}

#[inline(never)]
fn read_print(
    alloc: Global,
    mark: usize,
    bytes: &[u8],
    room: usize,
) -> Result<(Stmt, &[u8]), ReadError>
    ensures { Decodes stmt_view result
        (stmt_body_at (exp_at room) (stmt_at room) StmtTag.Print mark bytes.now) }
{
    let (value, rest) = read_exp(alloc, bytes, room)?;
    Ok((Stmt::Print { mark, value }, rest))
}

#[inline(never)]
fn read_assign(
    alloc: Global,
    mark: usize,
    bytes: &[u8],
    room: usize,
) -> Result<(Stmt, &[u8]), ReadError>
    ensures { Decodes stmt_view result
        (stmt_body_at (exp_at room) (stmt_at room) StmtTag.Assign mark bytes.now) }
{
    let (name, rest) = read_name(alloc, bytes)?;
    let (name_mark, rest) = read_four(rest)?;
    let (value, rest) = read_exp(alloc, rest, room)?;
    Ok((
        Stmt::Assign {
            mark,
            name,
            name_mark: name_mark as usize,
            value,
        },
        rest,
    ))
}

#[inline(never)]
fn read_store(
    alloc: Global,
    mark: usize,
    bytes: &[u8],
    room: usize,
) -> Result<(Stmt, &[u8]), ReadError>
    ensures { Decodes stmt_view result
        (stmt_body_at (exp_at room) (stmt_at room) StmtTag.Store mark bytes.now) }
{
    let (name, rest) = read_name(alloc, bytes)?;
    let (name_mark, rest) = read_four(rest)?;
    let (index, rest) = read_exp(alloc, rest, room)?;
    let (value, rest) = read_exp(alloc, rest, room)?;
    Ok((
        Stmt::Store {
            mark,
            name,
            name_mark: name_mark as usize,
            index,
            value,
        },
        rest,
    ))
}

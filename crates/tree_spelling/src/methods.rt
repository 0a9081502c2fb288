//! Reading methods.
ghost use Rattle.mj_tree.specs.Views.{method_view};
ghost use Rattle.byte_readers.specs.Reading.{Decodes};
ghost use Rattle.tree_spelling.specs.Reading.{method_at};

use crate::expressions::read_top_exp;
use crate::statements::read_top_stmts;
use crate::types::read_ty;
use crate::variables::VariableFormat;
use byte_readers::{ReadError, read_four, read_list, read_name};
use mj_tree::MethodTree;
use std::alloc::Global;

/// Reads a method.
#[tactic(auto, unfolding(crate::specs::Reading::method_at))]
pub fn read_method(alloc: Global, bytes: &[u8]) -> Result<(MethodTree, &[u8]), ReadError>
    ensures { Decodes method_view result (method_at bytes.now) }
{
    let (name, rest) = read_name(alloc, bytes)?;
    let (returns, rest) = read_ty(alloc, rest)?;
    let (formals, rest) = read_list::<VariableFormat>(alloc, rest)?;
    let (locals, rest) = read_list::<VariableFormat>(alloc, rest)?;
    let (body, rest) = read_top_stmts(alloc, rest)?;
    let (returned, rest) = read_top_exp(alloc, rest)?;
    let (return_mark, rest) = read_four(rest)?;
    Ok((
        MethodTree {
            name,
            returns,
            formals,
            locals,
            body,
            returned,
            return_mark: return_mark as usize,
        },
        rest,
    ))
}

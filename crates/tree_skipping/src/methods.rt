//! Skipping methods.
ghost use Rattle.std.specs.Prelude.{◌≡◌};
ghost use Rattle.tree_spelling.specs.Reading.{method_at};
ghost use Rattle.tree_skipping.specs.Skipping.{Skips, Leaves, method_left};

use crate::expressions::skip_top_exp;
use crate::parts::{skip_four, skip_name, skip_ty, skip_variables};
use crate::statements::skip_top_stmts;
use byte_readers::ReadError;

/// Skips a method.
pub fn skip_method(bytes: &[u8]) -> Result<&[u8], ReadError>
    ensures { Skips result (method_at bytes.now) }
{
    skip_method_parts(bytes)
}

/// Skips the parts of a method, one behind the other.
#[tactic(auto, unfolding(crate::specs::Skipping::method_left))]
fn skip_method_parts(bytes: &[u8]) -> Result<&[u8], ReadError>
    ensures { Leaves result (method_left bytes.now) }
{
    let rest = skip_name(bytes)?;
    let rest = skip_ty(rest)?;
    let rest = skip_variables(rest)?;
    let rest = skip_variables(rest)?;
    let rest = skip_top_stmts(rest)?;
    let rest = skip_top_exp(rest)?;
    skip_four(rest)
}

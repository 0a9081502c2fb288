//! Reading what a method declares, and methods as trees keep them.
ghost use Rattle.std.specs.Prelude.{◌≡◌};
ghost use Rattle.byte_readers.specs.Reading.{Decodes};
ghost use Rattle.tree_spelling.specs.Reading.{tagged_method_at, types_at};
ghost use Rattle.tree_skipping.specs.Skipping.{Skips};
ghost use Rattle.tree_bytes.specs.BodyViews.{types_view};

use crate::body::{Body, MethodHead};
use crate::stored::StoredMethod;
use byte_readers::{Breach, ReadError, not_canonical, read_list, read_name_text};
use std::alloc::Global;
use tree_skipping::skip_method;
use tree_spelling::{VariableFormat, read_ty};

/// Reads the types that a method declares, behind its name.
pub fn read_types(alloc: Global, bytes: &[u8]) -> Result<(MethodHead, &[u8]), ReadError>
    ensures { Decodes types_view result (types_at bytes.now) }
{
    let (_, rest) = read_name_text(bytes)?;
    let (returns, rest) = read_ty(alloc, rest)?;
    let (formals, rest) = read_list::<VariableFormat>(alloc, rest)?;
    Ok((MethodHead { returns, formals }, rest))
}

/// Reads a method behind its tag, as its name and its bytes.
pub fn read_stored_method(alloc: Global, bytes: &[u8]) -> Result<(StoredMethod, &[u8]), ReadError>
    ensures { Decodes (λ x. x) result (tagged_method_at bytes.now) }
{
    let left = skip_tagged_method(bytes)?;
    let body = Body::front_method(alloc, bytes, left)?;
    let name = body.method_name(alloc)?;
    Ok((StoredMethod { name, body }, left))
}

/// What is left behind a method behind its tag.
#[tactic(auto, unfolding(tree_spelling::specs::Reading::tagged_method_at))]
fn skip_tagged_method(bytes: &[u8]) -> Result<&[u8], ReadError>
    ensures { Skips result (tagged_method_at bytes.now) }
{
    match bytes {
        [] => Err(ReadError::Breach(Breach::Short)),
        [0x01, rest @ ..] => skip_method(rest),
        [_, ..] => Err(not_canonical(bytes)),
    }
}

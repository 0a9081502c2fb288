//! A method, or the statement of `main`.
ghost use Rattle.std.specs.Prelude.{◌≡◌, IfOk, IfErr, option_copied, option_and_then};
ghost use Rattle.tree_bytes.specs.NamedBodies.{body_named};
ghost use Rattle.recorder.specs.Programs.{Goes, GivesUp};
ghost use Rattle.text_queries.specs.Method.{method_steps};

use crate::class_trees::{ask_class_tree, tree_of};
use ordered_names::Name;
use recorder::{Reader, Recorder, RunFault};
use result_bytes::Value;
use std::alloc::{AllocError, Global};
use tree_bytes::{Body, Tree};

/// The body of these names in a tree, if there is one.
fn body_for(
    alloc: Global,
    tree: Option<&Tree>,
    class: &Name,
    method: &Name,
) -> Result<Option<Body>, AllocError>
    ensures { IfOk result (λ body. body
        ≡ option_and_then (λ file. body_named file class.now method.now)
        (option_copied tree.entry)) }
{
    match tree {
        Some(tree) => tree.body(alloc, class, method),
        None => Ok(None),
    }
}

/// A method, by the index and the tree of the class's file.
pub fn run_method<D: Reader>(
    alloc: Global,
    recorder: &mut Recorder<D>,
    class: &Name,
    method: &Name,
) -> Result<Value, RunFault>
    ensures ok { IfOk result (λ v. Goes (method_steps class.now method.now) recorder.old v
        recorder.new) }
    ensures err { IfErr result (λ e. GivesUp (method_steps class.now method.now) recorder.old e
        recorder.new) }
    ensures follows { D.follows recorder.old.inner recorder.new.inner }
{
    let answer = ask_class_tree(alloc, recorder, class)?;
    let body = body_for(alloc, tree_of(&answer), class, method)?;
    Ok(Value::Method(body))
}

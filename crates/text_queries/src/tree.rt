//! The tree of a file.
ghost use Rattle.std.specs.Prelude.{◌≡◌, IfOk, IfErr, option_copied, option_and_then};
ghost use Rattle.mj_rules.specs.Sentences.{file_of};
ghost use Rattle.recorder.specs.Programs.{Goes, GivesUp};
ghost use Rattle.text_queries.specs.Tree.{tree_steps};

use item_ids::Key;
use mj_rules::read_file;
use ordered_names::Name;
use recorder::{Reader, Recorder, RunFault, read};
use result_bytes::{Text, Value};
use std::alloc::{AllocError, Global};
use tree_bytes::Tree;

/// The tree of bytes that are a sentence.
fn read_tree(alloc: Global, bytes: &[u8]) -> Result<Option<Tree>, AllocError>
    ensures { IfOk result (λ tree. tree ≡ file_of bytes.now) }
{
    let tree = read_file(alloc, bytes)?;
    match tree {
        Some(root) => Ok(Some(Tree::new(alloc, root)?)),
        None => Ok(None),
    }
}

/// The tree of a file, if there is one.
fn tree_for(alloc: Global, text: Option<&Text>) -> Result<Option<Tree>, AllocError>
    ensures { IfOk result (λ tree. tree ≡ option_and_then file_of (option_copied text.entry)) }
{
    match text {
        Some(text) => read_tree(alloc, text.bytes()),
        None => Ok(None),
    }
}

/// The tree of a file, by its source.
pub fn run_tree<D: Reader>(
    alloc: Global,
    recorder: &mut Recorder<D>,
    file: &Name,
) -> Result<Value, RunFault>
    ensures ok { IfOk result (λ v. Goes (tree_steps file.now) recorder.old v recorder.new) }
    ensures err { IfErr result (λ e. GivesUp (tree_steps file.now) recorder.old e recorder.new) }
    ensures follows { D.follows recorder.old.inner recorder.new.inner }
{
    let answer = read(recorder, Key::Source(file.copy(alloc)?))?;
    let tree = tree_for(alloc, answer.value().source())?;
    Ok(Value::Tree(tree))
}

//! The files of a project by their names and trees.
ghost use Rattle.std.specs.Prelude.{◌≡◌, ◌++◌, ◌∷◌, [], IfOk, IfErr, OnOk, option_copied};
ghost use Rattle.std.specs.Arc.{arc_value};
ghost use Rattle.recorder.specs.Programs.{Goes, GivesUp, each};
ghost use Rattle.result_bytes.specs.Parts.{tree_in};
ghost use Rattle.answer_queries.specs.Trees.{named_tree, named_trees, tree_step};

use fingerprint::Sealed;
use item_ids::Key;
use ordered_names::Name;
use recorder::{Reader, Recorder, RunFault, read};
use std::alloc::{AllocError, Global};
use std::sync::Arc;
use tree_bytes::Tree;

/// A file by its name, with the answer that has its tree.
#[derive(Drop)]
pub struct ParsedFile {
    pub name: Name,
    pub tree: Arc<Sealed>,
}

impl ParsedFile {
    /// The tree of the file.
    pub fn tree(&self) -> Option<&Tree>
        ensures { option_copied result ≡ (named_tree self.now).1 }
    {
        self.tree.value().tree()
    }
}

/// Adds a file.
fn add_file(
    alloc: Global,
    files: &mut Vec<ParsedFile>,
    file: &Name,
    tree: Arc<Sealed>,
) -> Result<(), AllocError>
    ensures { OnOk result
        (named_trees files.new.items
        ≡ named_trees files.old.items ++ (file.now, tree_in (arc_value tree)) ∷ []) }
{
    let name = file.copy(alloc)?;
    files.push(ParsedFile { name, tree })?;
    Ok(())
}

/// Asks the tree of one more file.
fn ask_tree<D: Reader>(
    alloc: Global,
    recorder: &mut Recorder<D>,
    file: &Name,
    files: &mut Vec<ParsedFile>,
) -> Result<(), RunFault>
    ensures ok { OnOk result (Goes (tree_step file.now (named_trees files.old.items))
        recorder.old (named_trees files.new.items) recorder.new) }
    ensures err { IfErr result (λ e. GivesUp (tree_step file.now (named_trees files.old.items))
        recorder.old e recorder.new) }
    ensures follows { D.follows recorder.old.inner recorder.new.inner }
{
    let tree = read(recorder, Key::Tree(file.copy(alloc)?))?;
    add_file(alloc, files, file, tree)?;
    Ok(())
}

/// Asks the tree of each file.
#[tactic(auto, using(recorder::proofs::Rules::loop_more, recorder::proofs::Rules::loop_up, recorder::proofs::Rules::loop_end))]
pub fn ask_all_trees<D: Reader>(
    alloc: Global,
    recorder: &mut Recorder<D>,
    names: &[Name],
) -> Result<Vec<ParsedFile>, RunFault>
    ensures ok { IfOk result (λ files. Goes (each tree_step names.now []) recorder.old
        (named_trees files.items) recorder.new) }
    ensures err { IfErr result (λ e. GivesUp (each tree_step names.now []) recorder.old e
        recorder.new) }
    ensures follows { D.follows recorder.old.inner recorder.new.inner }
{
    let mut files = Vec::new(alloc);
    for name in names {
        ask_tree(alloc, recorder, name, &mut files)?;
    }
    Ok(files)
}

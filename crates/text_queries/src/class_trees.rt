//! The tree of the file that declares a class.
ghost use Rattle.std.specs.Prelude.{◌≡◌, IfOk, IfErr, option_copied, option_map, option_and_then};
ghost use Rattle.std.specs.Arc.{arc_value};
ghost use Rattle.ordered_names.specs.Order.{IsAscendingByName};
ghost use Rattle.recorder.specs.Programs.{Goes, GivesUp};
ghost use Rattle.text_queries.specs.Index.{first_file};
ghost use Rattle.result_bytes.specs.Parts.{tree_in};
ghost use Rattle.text_queries.specs.ClassTrees.{file_step, class_tree_step};

use fingerprint::Sealed;
use item_ids::Key;
use mj_answer::find_by_name;
use ordered_names::Name;
use recorder::{Reader, Recorder, RunFault, read};
use result_bytes::IndexRow;
use std::alloc::Global;
use std::sync::Arc;
use tree_bytes::Tree;

/// The tree in an answer, if there is one.
pub fn tree_of(answer: &Option<Arc<Sealed>>) -> Option<&Tree>
    ensures { option_copied result ≡ option_and_then tree_in (option_map arc_value answer.now) }
{
    match answer {
        Some(sealed) => sealed.value().tree(),
        None => None,
    }
}

/// The file of a class, by the rows of an index.
fn file_of<'r>(rows: &'r [IndexRow], class: &Name) -> Option<&'r Name>
    requires { IsAscendingByName (λ row. row.class) rows.now }
    ensures { option_copied result ≡ first_file rows.now class.now }
{
    match find_by_name(rows, class) {
        Some(row) => Some(&row.file),
        None => None,
    }
}

/// Asks the tree of a file, if there is one.
fn ask_file<D: Reader>(
    alloc: Global,
    recorder: &mut Recorder<D>,
    file: Option<&Name>,
) -> Result<Option<Arc<Sealed>>, RunFault>
    ensures ok { IfOk result (λ a. Goes (file_step (option_copied file.entry)) recorder.old
        (option_and_then tree_in (option_map arc_value a)) recorder.new) }
    ensures err { IfErr result (λ e. GivesUp (file_step (option_copied file.entry)) recorder.old
        e recorder.new) }
    ensures follows { D.follows recorder.old.inner recorder.new.inner }
{
    match file {
        Some(file) => {
            let tree = read(recorder, Key::Tree(file.copy(alloc)?))?;
            Ok(Some(tree))
        }
        None => Ok(None),
    }
}

/// Asks the tree of the file that declares a class, by the index.
pub fn ask_class_tree<D: Reader>(
    alloc: Global,
    recorder: &mut Recorder<D>,
    class: &Name,
) -> Result<Option<Arc<Sealed>>, RunFault>
    ensures ok { IfOk result (λ a. Goes (class_tree_step class.now) recorder.old
        (option_and_then tree_in (option_map arc_value a)) recorder.new) }
    ensures err { IfErr result (λ e. GivesUp (class_tree_step class.now) recorder.old e
        recorder.new) }
    ensures follows { D.follows recorder.old.inner recorder.new.inner }
{
    let index = read(recorder, Key::Index)?;
    ask_file(alloc, recorder, file_of(index.value().index(), class))
}

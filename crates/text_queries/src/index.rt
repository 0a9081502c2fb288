//! Each class with the file that declares it.
ghost use Rattle.std.specs.Prelude.{◌≡◌, ◌++◌, ◌∷◌, ℕ, List, [], map, Some, None, option_copied, if◌then◌else◌, IfOk, IfErr, OnOk};
ghost use Rattle.std.specs.Option.{option_or};
ghost use Rattle.std.specs.Str.{bytes_eq};
ghost use Rattle.std.specs.BTreeMap.{get, IsOrdered};
ghost use Rattle.std.specs.Cmp.Lexicographic.{slice_cmp};
ghost use Rattle.std.specs.Ordering.{nat_cmp};
ghost use Rattle.recorder.specs.Programs.{Goes, GivesUp, each};
ghost use Rattle.text_queries.specs.Index.{row_in, file_rows, rows_step, first_file, first_rows, index_steps};

use item_ids::Key;
use ordered_names::Name;
use recorder::{Reader, Recorder, RunFault, read};
use result_bytes::{Index, IndexRow, Value};
use std::alloc::{AllocError, Global};
use std::collections::BTreeMap;
use tree_bytes::{StoredClass, Tree};

/// Adds the row of a class of a file.
fn add_row(
    alloc: Global,
    rows: &mut Vec<IndexRow>,
    file: &Name,
    class: &Name,
) -> Result<(), AllocError>
    ensures { OnOk result (rows.new.items ≡ rows.old.items ++ row_in file.now class.now ∷ []) }
{
    let class = class.copy(alloc)?;
    let file = file.copy(alloc)?;
    rows.push(IndexRow { class, file })?;
    Ok(())
}

/// Adds the rows of classes of a file.
fn add_classes(
    alloc: Global,
    rows: &mut Vec<IndexRow>,
    file: &Name,
    classes: &[StoredClass],
) -> Result<(), AllocError>
    ensures { OnOk result
        (rows.new.items
        ≡ rows.old.items ++ map (λ class. row_in file.now class.name) classes.now) }
{
    for class in classes {
        add_row(alloc, rows, file, &class.name)?;
    }
    Ok(())
}

/// Adds the rows of a file's classes. The main class comes first.
fn add_tree(
    alloc: Global,
    rows: &mut Vec<IndexRow>,
    file: &Name,
    tree: &Tree,
) -> Result<(), AllocError>
    ensures { OnOk result
        (rows.new.items ≡ rows.old.items ++ file_rows file.now (Some tree.now)) }
{
    let root = tree.root();
    match &root.main {
        Some(main) => {
            add_row(alloc, rows, file, main.name())?;
            add_classes(alloc, rows, file, &root.classes)
        }
        None => add_classes(alloc, rows, file, &root.classes),
    }
}

/// Adds the rows of a file's classes, if the file is a sentence.
fn add_file(
    alloc: Global,
    rows: &mut Vec<IndexRow>,
    file: &Name,
    tree: Option<&Tree>,
) -> Result<(), AllocError>
    ensures { OnOk result
        (rows.new.items ≡ rows.old.items ++ file_rows file.now (option_copied tree.entry)) }
{
    match tree {
        Some(tree) => add_tree(alloc, rows, file, tree),
        None => Ok(()),
    }
}

/// Asks the tree of one more file, and adds the rows of its classes.
fn ask_rows<D: Reader>(
    alloc: Global,
    recorder: &mut Recorder<D>,
    file: &Name,
    rows: &mut Vec<IndexRow>,
) -> Result<(), RunFault>
    ensures ok { OnOk result (Goes (rows_step file.now rows.old.items) recorder.old
        rows.new.items recorder.new) }
    ensures err { IfErr result (λ e. GivesUp (rows_step file.now rows.old.items) recorder.old e
        recorder.new) }
    ensures follows { D.follows recorder.old.inner recorder.new.inner }
{
    let answer = read(recorder, Key::Tree(file.copy(alloc)?))?;
    add_file(alloc, rows, file, answer.value().tree())?;
    Ok(())
}

/// The rows of the classes of all files, in their order.
#[tactic(auto, using(recorder::proofs::Rules::loop_more, recorder::proofs::Rules::loop_up, recorder::proofs::Rules::loop_end))]
fn ask_all_rows<D: Reader>(
    alloc: Global,
    recorder: &mut Recorder<D>,
    files: &[Name],
) -> Result<Vec<IndexRow>, RunFault>
    ensures ok { IfOk result (λ rows. Goes (each rows_step files.now []) recorder.old rows.items
        recorder.new) }
    ensures err { IfErr result (λ e. GivesUp (each rows_step files.now []) recorder.old e
        recorder.new) }
    ensures follows { D.follows recorder.old.inner recorder.new.inner }
{
    let mut rows = Vec::new(alloc);
    for file in files {
        ask_rows(alloc, recorder, file, &mut rows)?;
    }
    Ok(rows)
}

/// Keeps the file of a class that has none yet.
fn keep_first(files: &mut BTreeMap<Name, Name>, row: IndexRow) -> Result<(), AllocError>
    ensures { OnOk result
        ((class : List ℕ)
        → get (slice_cmp nat_cmp) files.new class
        ≡ option_or (get (slice_cmp nat_cmp) files.old class)
        (if bytes_eq row.class class then Some row.file else None)) }
{
    let IndexRow { class, file } = row;
    if !files.contains_key(&class) {
        files.insert(class, file)?;
    }
    Ok(())
}

/// The file of each class by its first row.
fn first_files(alloc: Global, rows: Vec<IndexRow>) -> Result<BTreeMap<Name, Name>, AllocError>
    ensures { IfOk result (λ files.
        (class : List ℕ)
        → get (slice_cmp nat_cmp) files class ≡ first_file rows.items class) }
{
    let mut files = BTreeMap::new(alloc);
    for row in rows {
        keep_first(&mut files, row)?;
    }
    Ok(files)
}

/// The entries of a map as rows, in their order.
fn rows_of(alloc: Global, files: BTreeMap<Name, Name>) -> Result<Vec<IndexRow>, AllocError>
    ensures value { IfOk result (λ rows.
        rows.items ≡ map (λ entry. row_in entry.1 entry.0) files.entries) }
    ensures ordered { IsOrdered (slice_cmp nat_cmp) files }
{
    let mut rows = Vec::new(alloc);
    for (class, file) in files {
        rows.push(IndexRow { class, file })?;
    }
    Ok(rows)
}

/// The first row of each class, in the order of the classes.
fn index_of(alloc: Global, rows: Vec<IndexRow>) -> Result<Index, AllocError>
    ensures { IfOk result (λ index. index ≡ first_rows rows.items) }
{
    let files = first_files(alloc, rows)?;
    let rows = rows_of(alloc, files)?;
    Ok(Index::new(rows))
}

/// Each class with the file that declares it first, by the trees of all files.
pub fn run_index<D: Reader>(alloc: Global, recorder: &mut Recorder<D>) -> Result<Value, RunFault>
    ensures ok { IfOk result (λ v. Goes index_steps recorder.old v recorder.new) }
    ensures err { IfErr result (λ e. GivesUp index_steps recorder.old e recorder.new) }
    ensures follows { D.follows recorder.old.inner recorder.new.inner }
{
    let answer = read(recorder, Key::Files)?;
    let rows = ask_all_rows(alloc, recorder, answer.value().files())?;
    let index = index_of(alloc, rows)?;
    Ok(Value::Index(index))
}

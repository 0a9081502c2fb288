//! The diagnostics of a project itself, by the trees of its files.
ghost use Rattle.std.specs.Prelude.{◌≡◌, ◌++◌, ◌≤◌, [], false, is_some, option_copied, slice_get, IfOk, OnOk};
ghost use Rattle.mj_classes.specs.Declarations.{classes_of, number_classes};
ghost use Rattle.named_files.specs.Repeats.{repeats as repeated_names};
ghost use Rattle.mj_rules.specs.FaultLists.{has_main as has_main_in, file_faults};
ghost use Rattle.answer_bytes.specs.Storable.{AreProjectFaults};
ghost use Rattle.answer_queries.specs.Trees.{named_tree, named_trees};
ghost use Rattle.answer_queries.specs.ProjectFaults.{any_main, files_faults, named_classes, declared_names, class_names, names_view, repeated_class, classes_faults, project_faults as project_faults_of};

use crate::trees::ParsedFile;
use body_query::note_fault;
use mj_answer::{Code, Diagnostic};
use mj_tree::Place;
use named_files::repeats;
use ordered_names::Name;
use std::alloc::{AllocError, Global};
use tree_bytes::Tree;

/// A class by its name.
#[derive(Clone, Copy)]
struct DeclaredName<'t> {
    /// The number of its file, counted from 0.
    file: usize,
    /// Its number in the file, counted from 0, the main class first.
    number: usize,
    name: &'t Name,
}

/// Whether a tree has a main class.
fn is_main(tree: &Tree) -> bool
    ensures { result ≡ is_some tree.now.main }
{
    tree.root().main.is_some()
}

/// Whether there is a tree with a main class.
fn has_main(tree: Option<&Tree>) -> bool
    ensures { result ≡ has_main_in (option_copied tree.entry) }
{
    match tree {
        Some(tree) => is_main(tree),
        None => false,
    }
}

/// Adds what is wrong with a file, by whether an earlier one has a main class.
fn add_file_fault(
    alloc: Global,
    faults: &mut Vec<Diagnostic>,
    main_before: bool,
    file: &ParsedFile,
) -> Result<(), AllocError>
    ensures { OnOk result
        (faults.new.items
        ≡ faults.old.items
        ++ file_faults main_before (named_tree file.now).0 (named_tree file.now).1) }
{
    let code = match file.tree() {
        None => Code::E101,
        Some(tree) if main_before && is_main(tree) => Code::E103,
        Some(_) => return Ok(()),
    };
    let place = Place::File(file.name.copy(alloc)?);
    note_fault(faults, place, code)
}

/// Adds what is wrong with the files, and says whether one of them has a main class.
fn add_file_faults(
    alloc: Global,
    faults: &mut Vec<Diagnostic>,
    files: &[ParsedFile],
) -> Result<bool, AllocError>
    ensures any { IfOk result (λ any. any ≡ any_main (named_trees files.now)) }
    ensures faults { OnOk result
        (faults.new.items ≡ faults.old.items ++ files_faults false (named_trees files.now)) }
{
    let mut main_before = false;
    for file in files {
        add_file_fault(alloc, faults, main_before, file)?;
        main_before = main_before || has_main(file.tree());
    }
    Ok(main_before)
}

/// Adds the classes of a file that aren't its main class, numbered from this number on.
fn add_classes<'t>(
    classes: &mut Vec<DeclaredName<'t>>,
    file: usize,
    first: usize,
    tree: &'t Tree,
) -> Result<(), AllocError>
    requires { first ≤ 1 }
    ensures { OnOk result
        (names_view classes.new.items
        ≡ names_view classes.old.items
        ++ named_classes (number_classes file first tree.now.classes)) }
{
    let root = tree.root();
    for (n, class) in root.classes.iter().enumerate() {
        classes.push(DeclaredName {
            file,
            number: first + n,
            name: &class.name,
        })?;
    }
    Ok(())
}

/// Adds the classes of a file. The main class comes first.
fn add_tree<'t>(
    classes: &mut Vec<DeclaredName<'t>>,
    file: usize,
    tree: &'t Tree,
) -> Result<(), AllocError>
    ensures { OnOk result
        (names_view classes.new.items
        ≡ names_view classes.old.items ++ named_classes (classes_of file tree.now)) }
{
    match &tree.root().main {
        Some(main) => {
            classes.push(DeclaredName {
                file,
                number: 0,
                name: main.name(),
            })?;
            add_classes(classes, file, 1, tree)
        }
        None => add_classes(classes, file, 0, tree),
    }
}

/// The classes of all files, in order.
fn all_classes<'t>(
    alloc: Global,
    files: &'t [ParsedFile],
) -> Result<Vec<DeclaredName<'t>>, AllocError>
    ensures { IfOk result (λ classes.
        names_view classes.items ≡ declared_names (named_trees files.now)) }
{
    let mut classes = Vec::new(alloc);
    for (number, file) in files.iter().enumerate() {
        if let Some(tree) = file.tree() {
            add_tree(&mut classes, number, tree)?;
        }
    }
    Ok(classes)
}

/// For each class, whether an earlier one has its name.
fn repeated_classes(alloc: Global, classes: &[DeclaredName]) -> Result<Vec<bool>, AllocError>
    ensures { IfOk result (λ flags.
        flags.items ≡ repeated_names (class_names (names_view classes.now))) }
{
    let mut names = Vec::new(alloc);
    for class in classes {
        names.push(class.name.as_str())?;
    }
    repeats(alloc, &names)
}

/// Adds the diagnostic of a class that has the name of an earlier one.
fn add_repeated_class(
    alloc: Global,
    faults: &mut Vec<Diagnostic>,
    files: &[ParsedFile],
    class: &DeclaredName,
) -> Result<(), AllocError>
    ensures { OnOk result
        (faults.new.items
        ≡ faults.old.items
        ++ repeated_class (slice_get (named_trees files.now) class.now.file) class.now.number) }
{
    match files.get(class.file) {
        Some(file) => {
            let place = Place::ClassOf(file.name.copy(alloc)?, class.number);
            note_fault(faults, place, Code::E104)
        }
        None => Ok(()),
    }
}

/// Adds the diagnostics of the classes whose names earlier classes have.
fn add_repeated_classes(
    alloc: Global,
    faults: &mut Vec<Diagnostic>,
    files: &[ParsedFile],
    classes: &[DeclaredName],
) -> Result<(), AllocError>
    ensures { OnOk result
        (faults.new.items
        ≡ faults.old.items
        ++ classes_faults (named_trees files.now) (names_view classes.now)) }
{
    let repeated = repeated_classes(alloc, classes)?;
    let flags = repeated.as_slice();
    for (number, class) in classes.iter().enumerate() {
        if flags[number] {
            add_repeated_class(alloc, faults, files, class)?;
        }
    }
    Ok(())
}

/// The diagnostics of a project whose files have these trees.
pub fn project_faults(alloc: Global, files: &[ParsedFile]) -> Result<Vec<Diagnostic>, AllocError>
    ensures value { IfOk result (λ faults.
        faults.items ≡ project_faults_of (named_trees files.now)) }
    ensures places { IfOk result (λ faults. AreProjectFaults faults.items) }
{
    let classes = all_classes(alloc, files)?;
    let mut faults = Vec::new(alloc);
    let has_main = add_file_faults(alloc, &mut faults, files)?;
    add_repeated_classes(alloc, &mut faults, files, &classes)?;
    if !has_main {
        note_fault(&mut faults, Place::Project, Code::E102)?;
    }
    Ok(faults)
}

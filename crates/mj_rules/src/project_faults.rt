//! The diagnostics of a project itself.
ghost use Rattle.std.specs.Prelude.{◌≡◌, [], ◌++◌, if◌then◌else◌, ◌||◌, ◌<◌, ◌≤◌, ℕ, List, map, option_map, length, false, All, IfOk, OnOk, slice_get};
ghost use Rattle.mj_tree.specs.Views.{file_view};
ghost use Rattle.mj_members.specs.Classes.{class_ref_view, classes_view};
ghost use Rattle.mj_classes.specs.Classes.{files_view};
ghost use Rattle.named_files.specs.Projects.{sources_view, names_of, IsFileName};
ghost use Rattle.named_files.specs.Repeats.{repeats};
ghost use Rattle.mj_rules.specs.Sentences.{trees_of, classes_in};
ghost use Rattle.mj_rules.specs.FaultLists.{has_main, any_main, file_faults, files_faults, repeated_class, repeated_class_faults, class_names, each_numbered, project_faults};

use mj_answer::{Code, Diagnostic};
use mj_classes::ClassRef;
use mj_tree::{FileTree, Place};
use named_files::{Project, repeats};
use ordered_names::Name;
use std::alloc::{AllocError, Global};

/// Adds what is wrong with a file, by whether an earlier one has a main class.
fn add_file_fault(
    alloc: Global,
    faults: &mut Vec<Diagnostic>,
    main_before: bool,
    name: &str,
    tree: &Option<FileTree>,
) -> Result<(), AllocError>
    requires some { 0 < length name.now }
    requires short { length name.now ≤ 255 }
    ensures { OnOk result
        (faults.new.items
        ≡ faults.old.items
        ++ file_faults main_before name.now (option_map file_view tree.now)) }
{
    let code = match tree {
        None => Code::E101,
        Some(tree) if main_before && tree.main.is_some() => Code::E103,
        Some(_) => return Ok(()),
    };
    let place = Place::File(Name::new(alloc, name)?);
    faults.push(Diagnostic { place, code })?;
    Ok(())
}

fn has_main(tree: &Option<FileTree>) -> bool
    ensures { result ≡ has_main (option_map file_view tree.now) }
{
    match tree {
        Some(tree) => tree.main.is_some(),
        None => false,
    }
}

/// Adds what is wrong with the files, and says whether one of them has a main class.
pub fn add_file_faults(
    alloc: Global,
    faults: &mut Vec<Diagnostic>,
    files: &[(String, Vec<u8>)],
    trees: &[Option<FileTree>],
) -> Result<bool, AllocError>
    requires names { All IsFileName (names_of (sources_view files.now)) }
    requires trees { files_view trees.now ≡ trees_of (sources_view files.now) }
    ensures any { IfOk result (λ any. any ≡ any_main (sources_view files.now)) }
    ensures faults { OnOk result
        (faults.new.items ≡ faults.old.items ++ files_faults false (sources_view files.now)) }
{
    let mut main_before = false;
    for (number, (name, _)) in files.iter().enumerate() {
        let tree = &trees[number];
        add_file_fault(alloc, faults, main_before, name.as_str(), tree)?;
        main_before = main_before || has_main(tree);
    }
    Ok(main_before)
}

/// Adds the diagnostic of a class whose name an earlier class has, given by its file and its number there.
fn add_repeated_class(
    alloc: Global,
    faults: &mut Vec<Diagnostic>,
    files: &[(String, Vec<u8>)],
    file: usize,
    number: usize,
) -> Result<(), AllocError>
    requires { All IsFileName (names_of (sources_view files.now)) }
    ensures { OnOk result
        (faults.new.items
        ≡ faults.old.items
        ++ repeated_class (slice_get (sources_view files.now) file) number) }
{
    if file >= files.len() {
        return Ok(());
    }
    let (name, _) = &files[file];
    let place = Place::ClassOf(Name::new(alloc, name.as_str())?, number);
    faults.push(Diagnostic {
        place,
        code: Code::E104,
    })?;
    Ok(())
}

/// For each class, whether an earlier one has its name.
fn repeated_classes(alloc: Global, classes: &[ClassRef]) -> Result<Vec<bool>, AllocError>
    ensures { IfOk result (λ flags.
        flags.items ≡ repeats (class_names (classes_view classes.now))) }
{
    let mut names = Vec::new(alloc);
    for class in classes {
        names.push(class.name().as_str())?;
    }
    repeats(alloc, &names)
}

/// Adds the diagnostics of the classes whose names earlier classes have.
pub fn add_repeated_classes(
    alloc: Global,
    faults: &mut Vec<Diagnostic>,
    files: &[(String, Vec<u8>)],
    classes: &[ClassRef],
) -> Result<(), AllocError>
    requires { All IsFileName (names_of (sources_view files.now)) }
    ensures { OnOk result
        (faults.new.items
        ≡ faults.old.items
        ++ each_numbered (repeated_class_faults (sources_view files.now)) 0
        (classes_view classes.now)
        (repeats (class_names (classes_view classes.now)))) }
{
    let repeated = repeated_classes(alloc, classes)?;
    let flags = repeated.as_slice();
    for (number, class) in classes.iter().enumerate() {
        if flags[number] {
            add_repeated_class(alloc, faults, files, class.file, class.number)?;
        }
    }
    Ok(())
}

/// The diagnostics of a project itself.
pub fn project_faults(
    alloc: Global,
    project: &Project,
    trees: &[Option<FileTree>],
    classes: &[ClassRef],
) -> Result<Vec<Diagnostic>, AllocError>
    requires trees { files_view trees.now ≡ trees_of project.now }
    requires classes { classes_view classes.now ≡ classes_in project.now }
    ensures { IfOk result (λ faults. faults.items ≡ project_faults project.now) }
{
    let files = project.files();
    let mut faults = Vec::new(alloc);
    let has_main = add_file_faults(alloc, &mut faults, files, trees)?;
    add_repeated_classes(alloc, &mut faults, files, classes)?;
    if !has_main {
        faults.push(Diagnostic {
            place: Place::Project,
            code: Code::E102,
        })?;
    }
    Ok(faults)
}

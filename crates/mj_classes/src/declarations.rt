//! The declared classes by their names.
ghost use Rattle.std.specs.Prelude.{◌≡◌, ◌++◌, ℕ, List, length, map, position, slice_get, Some, option_map, option_and_then, OnOk, IfOk, ◌≤◌, ◌<◌};
ghost use Rattle.std.specs.Str.{bytes_eq};
ghost use Rattle.std.specs.BTreeMap.{get};
ghost use Rattle.std.specs.Cmp.Lexicographic.{slice_cmp};
ghost use Rattle.std.specs.Ordering.{nat_cmp};
ghost use Rattle.mj_tree.specs.Views.{class_view, file_view};
ghost use Rattle.mj_members.specs.Declarations.{has_members};
ghost use Rattle.mj_classes.specs.Declarations.{classes_of, number_classes, declarations, decl, place, superclass_places};
ghost use Rattle.mj_members.specs.Classes.{class_ref_view, classes_view};
ghost use Rattle.mj_classes.specs.Classes.{files_view};
ghost use Rattle.mj_classes.specs.Walks.{AreStepsUp, AreTurns, AreNearest, IsTurn, IsNearestAt};

use crate::steps::{ends, turns};
use mj_members::{AnyClassTree, ClassRef};
use mj_tree::{ClassTree, FileTree};
use ordered_names::Name;
use std::alloc::{AllocError, Global};
use std::collections::BTreeMap;

/// The classes of a project in file order, found by their names.
#[derive(Drop)]
pub struct Declarations<'a> {
    classes: Vec<ClassRef<'a>>,
    by_name: BTreeMap<Name, usize>,
    /// For each class the place of the one that it extends, if that is declared.
    superclasses: Vec<Option<usize>>,
    /// For each class whether it declares a field or a method.
    declares: Vec<bool>,
    /// For each class where a walk up from it turns: at a class without a declared superclass, or where it enters a ring.
    turns: Vec<usize>,
    /// For each class where a walk up from it ends that halts at the first one which declares a field or a method.
    nearest: Vec<usize>,
    ghost indexed: { (q : List ℕ) → get (slice_cmp nat_cmp) by_name q
        ≡ position (λ k. bytes_eq k.name q) (classes_view classes.items) },
    ghost linked: { superclasses.items ≡ superclass_places (classes_view classes.items) },
    ghost flagged: { declares.items ≡ map has_members (classes_view classes.items) },
    ghost turned: { AreTurns (classes_view classes.items) turns.items },
    ghost near: { AreNearest (classes_view classes.items) nearest.items },
}

impl<'a> Declarations<'a> {
    ghost use Rattle.mj_classes.specs.Index.{declared_in};

    /// The classes of a project's files; a file that is no sentence has no tree.
    pub fn new(alloc: Global, files: &'a [Option<FileTree>]) -> Result<Self, AllocError>
        ensures { IfOk result (λ d. declared_in d ≡ declarations (files_view files.now)) }
    {
        let classes = all_classes(alloc, files)?;
        let by_name = index_by_name(alloc, &classes)?;
        let superclasses = link(alloc, &classes, &by_name)?;
        let declares = flag_members(alloc, &classes)?;
        let steps = steps_up(alloc, &superclasses)?;
        let turns = turns(alloc, &steps)?;
        let nearest = ends(alloc, &steps, &declares)?;
        Ok(Declarations {
            classes,
            by_name,
            superclasses,
            declares,
            turns,
            nearest,
        })
    }

    /// All classes, in file order.
    pub fn classes(&self) -> &[ClassRef<'a>]
        ensures { classes_view result.now ≡ declared_in self.now }
    {
        self.classes.as_slice()
    }

    /// The first class of a name.
    pub fn find(&self, name: &Name) -> Option<ClassRef<'a>>
        ensures { option_map class_ref_view result ≡ decl (declared_in self.now) name.now }
    {
        let at = *self.by_name.get(name)?;
        Some(self.classes[at])
    }

    /// The place of the first class of a name.
    pub fn place(&self, name: &Name) -> Option<usize>
        ensures { result ≡ place (declared_in self.now) name.now }
    {
        self.by_name.get(name).copied()
    }

    /// The class at this place.
    pub fn class_at(&self, at: usize) -> ClassRef<'a>
        requires { at < length (declared_in self.now) }
        ensures { slice_get (declared_in self.now) at ≡ Some (class_ref_view result) }
    {
        self.classes[at]
    }

    /// The place of the class that the one at this place extends, if that is declared.
    pub fn superclass_of(&self, at: usize) -> Option<usize>
        requires { at < length (declared_in self.now) }
        ensures { slice_get (superclass_places (declared_in self.now)) at ≡ Some result }
    {
        self.superclasses[at]
    }

    /// Where a walk up from the class at this place turns.
    pub fn turn_at(&self, at: usize) -> usize
        requires { at < length (declared_in self.now) }
        ensures { IsTurn (declared_in self.now) at result }
    {
        self.turns[at]
    }

    /// The nearest class of the walk up from the one at this place that declares a member.
    pub(crate) fn declaring_at(&self, at: usize) -> Option<usize>
        requires { at < length (declared_in self.now) }
        ensures { IsNearestAt (declared_in self.now) at result }
    {
        let place = self.nearest[at];
        if self.declares[place] {
            Some(place)
        } else {
            None
        }
    }
}

/// The classes of these files, in order.
fn all_classes<'a>(
    alloc: Global,
    files: &'a [Option<FileTree>],
) -> Result<Vec<ClassRef<'a>>, AllocError>
    ensures { IfOk result (λ v. classes_view v.items ≡ declarations (files_view files.now)) }
{
    let mut classes = Vec::new(alloc);
    for (file, tree) in files.iter().enumerate() {
        if let Some(tree) = tree {
            add_file(&mut classes, file, tree)?;
        }
    }
    Ok(classes)
}

/// Adds the classes of a file.
fn add_file<'a>(
    classes: &mut Vec<ClassRef<'a>>,
    file: usize,
    tree: &'a FileTree,
) -> Result<(), AllocError>
    ensures { OnOk result
        (classes_view classes.new.items
        ≡ classes_view classes.old.items ++ classes_of file (file_view tree.now)) }
{
    match &tree.main {
        Some(main) => {
            classes.push(ClassRef {
                file,
                number: 0,
                tree: AnyClassTree::Main(main),
            })?;
            add_classes(classes, file, 1, &tree.classes)
        }
        None => add_classes(classes, file, 0, &tree.classes),
    }
}

/// Adds the classes of a file that aren't its main class, numbered from this number on.
fn add_classes<'a>(
    classes: &mut Vec<ClassRef<'a>>,
    file: usize,
    first: usize,
    trees: &'a [ClassTree],
) -> Result<(), AllocError>
    requires { first ≤ 1 }
    ensures { OnOk result
        (classes_view classes.new.items
        ≡ classes_view classes.old.items ++ number_classes file first (map class_view trees.now)) }
{
    for (n, class) in trees.iter().enumerate() {
        classes.push(ClassRef {
            file,
            number: first + n,
            tree: AnyClassTree::Plain(class),
        })?;
    }
    Ok(())
}

/// The place of the first class of each name.
fn index_by_name(alloc: Global, classes: &[ClassRef]) -> Result<BTreeMap<Name, usize>, AllocError>
    ensures { IfOk result (λ m.
        (q : List ℕ)
        → get (slice_cmp nat_cmp) m q
        ≡ position (λ k. bytes_eq k.name q) (classes_view classes.now)) }
{
    let mut by_name = BTreeMap::new(alloc);
    for (at, class) in classes.iter().enumerate() {
        let name = class.name();
        if !by_name.contains_key(name) {
            by_name.insert(name.copy(alloc)?, at)?;
        }
    }
    Ok(by_name)
}

/// For each class the place of the one that it extends, if that is declared.
fn link(
    alloc: Global,
    classes: &[ClassRef],
    by_name: &BTreeMap<Name, usize>,
) -> Result<Vec<Option<usize>>, AllocError>
    requires { (q : List ℕ)
        → get (slice_cmp nat_cmp) by_name.now q
        ≡ position (λ k. bytes_eq k.name q) (classes_view classes.now) }
    ensures { IfOk result (λ v. v.items ≡ superclass_places (classes_view classes.now)) }
{
    let mut places = Vec::new(alloc);
    for class in classes {
        places.push(superclass_place(class, by_name))?;
    }
    Ok(places)
}

/// For each place the one above it, or itself if there is none.
fn steps_up(alloc: Global, superclasses: &[Option<usize>]) -> Result<Vec<usize>, AllocError>
    ensures { IfOk result (λ steps. AreStepsUp superclasses.now steps.items) }
{
    let mut steps = Vec::new(alloc);
    for (at, above) in superclasses.iter().enumerate() {
        steps.push(above.unwrap_or(at))?;
    }
    Ok(steps)
}

/// Where this index has the name that a class extends.
fn superclass_place(class: &ClassRef, by_name: &BTreeMap<Name, usize>) -> Option<usize>
    ensures { result
        ≡ option_and_then (get (slice_cmp nat_cmp) by_name.now)
        (class_ref_view class.now).superclass }
{
    by_name.get(class.superclass()?).copied()
}

/// For each class whether it declares a field or a method.
fn flag_members(alloc: Global, classes: &[ClassRef]) -> Result<Vec<bool>, AllocError>
    ensures { IfOk result (λ v. v.items ≡ map has_members (classes_view classes.now)) }
{
    let mut flags = Vec::new(alloc);
    for class in classes {
        flags.push(class.has_members())?;
    }
    Ok(flags)
}

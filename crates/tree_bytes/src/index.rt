//! Where the classes of a file and their methods stand, by their names.
ghost use Rattle.std.specs.Prelude.{◌≡◌, map, IfOk, option_and_then, slice_get};
ghost use Rattle.std.specs.BTreeMap.{get};
ghost use Rattle.std.specs.Cmp.Lexicographic.{slice_cmp};
ghost use Rattle.std.specs.Ordering.{nat_cmp};
ghost use Rattle.tree_bytes.specs.Indexes.{FindsClasses, FindsMethods, FindsEach, IsIndexOf};
ghost use Rattle.tree_bytes.specs.Stored.{stored_class};

use crate::stored::{StoredClass, StoredMethod};
use ordered_names::Name;
use std::alloc::{AllocError, Global};
use std::collections::BTreeMap;

/// The places of classes and of their methods, found by their names.
pub(crate) struct ClassIndex {
    /// The place of the first class of each name.
    classes: BTreeMap<Name, usize>,
    /// For each class the place of its first method of each name.
    methods: Vec<BTreeMap<Name, usize>>,
}

impl Drop for ClassIndex {
    fn drop(self) {
        let ClassIndex {
            classes: _,
            methods: _,
        } = self;
    }
}

impl ClassIndex {
    /// The index of these classes.
    pub(crate) fn new(alloc: Global, classes: &[StoredClass]) -> Result<Self, AllocError>
        ensures { IfOk result (λ index. IsIndexOf index (map stored_class classes.now)) }
    {
        let methods = index_each(alloc, classes)?;
        let classes = index_classes(alloc, classes)?;
        Ok(ClassIndex { classes, methods })
    }

    /// The place of the first class of this name.
    pub(crate) fn class(&self, name: &Name) -> Option<usize>
        ensures { result ≡ get (slice_cmp nat_cmp) self.now.classes name.now }
    {
        self.classes.get(name).copied()
    }

    /// The place of the first method of this name in the class at this place.
    pub(crate) fn method(&self, class: usize, name: &Name) -> Option<usize>
        ensures { result ≡ option_and_then (λ places. get (slice_cmp nat_cmp) places name.now)
            (slice_get self.now.methods.items class) }
    {
        self.methods.get(class)?.get(name).copied()
    }
}

/// The place of the first class of each name.
fn index_classes(
    alloc: Global,
    classes: &[StoredClass],
) -> Result<BTreeMap<Name, usize>, AllocError>
    ensures { IfOk result (λ places. FindsClasses places (map stored_class classes.now)) }
{
    let mut places = BTreeMap::new(alloc);
    for (at, class) in classes.iter().enumerate() {
        if !places.contains_key(&class.name) {
            places.insert(class.name.copy(alloc)?, at)?;
        }
    }
    Ok(places)
}

/// The place of the first method of each name.
fn index_methods(
    alloc: Global,
    methods: &[StoredMethod],
) -> Result<BTreeMap<Name, usize>, AllocError>
    ensures { IfOk result (λ places. FindsMethods places methods.now) }
{
    let mut places = BTreeMap::new(alloc);
    for (at, method) in methods.iter().enumerate() {
        let name = method.name();
        if !places.contains_key(name) {
            places.insert(name.copy(alloc)?, at)?;
        }
    }
    Ok(places)
}

/// For each class the place of its first method of each name.
fn index_each(
    alloc: Global,
    classes: &[StoredClass],
) -> Result<Vec<BTreeMap<Name, usize>>, AllocError>
    ensures { IfOk result (λ each. FindsEach each.items (map stored_class classes.now)) }
{
    let mut each = Vec::new(alloc);
    for class in classes {
        each.push(index_methods(alloc, &class.methods)?)?;
    }
    Ok(each)
}

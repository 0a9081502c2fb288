//! Where a diagnostic stands.
ghost use Rattle.std.specs.Prelude.{◌≡◌, IfOk};

use ordered_names::Name;
use std::alloc::{AllocError, Global};

/// A place that stays the same under edits outside its item. Places are ordered as they are listed here, then by
/// their contents, names by their bytes.
#[derive(Drop, PartialEq, Eq, PartialOrd, Ord)]
pub enum Place {
    /// The whole project.
    Project,
    /// A file.
    File(Name),
    /// The class with this number in a file. Classes are numbered from 0, the main class first.
    ClassOf(Name, usize),
    /// The class that is spoken of.
    Class,
    /// The field with this number in the class, counted from 0.
    Field(usize),
    /// The method with this number in the class, counted from 0.
    Method(usize),
    /// The token with this number in the first method of this name, counted from its `public`.
    Inside(Name, usize),
}

impl Place {
    /// An equal place.
    pub fn copy(&self, alloc: Global) -> Result<Place, AllocError>
        ensures { IfOk result (λ place. place ≡ self.now) }
    {
        match self {
            Place::Project => Ok(Place::Project),
            Place::File(name) => Ok(Place::File(name.copy(alloc)?)),
            Place::ClassOf(name, number) => Ok(Place::ClassOf(name.copy(alloc)?, *number)),
            Place::Class => Ok(Place::Class),
            Place::Field(number) => Ok(Place::Field(*number)),
            Place::Method(number) => Ok(Place::Method(*number)),
            Place::Inside(method, token) => Ok(Place::Inside(method.copy(alloc)?, *token)),
        }
    }
}

//! The bodies that a class and a method name in a file.
ghost use Rattle.std.specs.Prelude.{◌≡◌, IfOk};
ghost use Rattle.tree_bytes.specs.NamedBodies.{body_named, main_body, class_body};

use crate::body::Body;
use crate::stored::StoredMain;
use crate::tree::Tree;
use ordered_names::Name;
use std::alloc::{AllocError, Global};

impl Tree {
    /// A copy of the first method of a name in the first class of a name. The main class comes first; it has its
    /// statement for `main`, and nothing else.
    pub fn body(
        &self,
        alloc: Global,
        class: &Name,
        method: &Name,
    ) -> Result<Option<Body>, AllocError>
        ensures { IfOk result (λ body. body ≡ body_named self.now class.now method.now) }
    {
        match &self.root().main {
            Some(main) if main.name() == class => main_body(alloc, main, method),
            _ => self.class_body(alloc, class, method),
        }
    }

    /// A copy of the first method of a name in the first class of a name that isn't the main class.
    fn class_body(
        &self,
        alloc: Global,
        class: &Name,
        method: &Name,
    ) -> Result<Option<Body>, AllocError>
        ensures { IfOk result (λ body.
            body ≡ class_body class.now method.now self.now.classes) }
    {
        match self.method(class, method) {
            Some(found) => Ok(Some(found.body().copy(alloc)?)),
            None => Ok(None),
        }
    }
}

/// A copy of what the main class has of this name.
fn main_body(alloc: Global, main: &StoredMain, method: &Name) -> Result<Option<Body>, AllocError>
    ensures { IfOk result (λ body. body ≡ main_body method.now main.now) }
{
    if method.as_str() != "main" {
        return Ok(None);
    }
    Ok(Some(main.body().copy(alloc)?))
}

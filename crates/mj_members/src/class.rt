//! A declared class.
ghost use Rattle.std.specs.Prelude.{◌≡◌, map, option_copied};
ghost use Rattle.mj_tree.specs.Views.{method_view};
ghost use Rattle.mj_members.specs.Declarations.{has_members};
ghost use Rattle.mj_members.specs.Classes.{class_ref_view};

use mj_tree::{ClassTree, Field, MainTree, MethodTree};
use ordered_names::Name;

/// The tree of a main class or of another class.
#[derive(Clone, Copy)]
pub enum AnyClassTree<'a> {
    Main(&'a MainTree),
    Plain(&'a ClassTree),
}

/// A class and where it is declared.
#[derive(Clone, Copy)]
pub struct ClassRef<'a> {
    /// The number of its file, counted from 0.
    pub file: usize,
    /// Its number in the file, counted from 0, the main class first.
    pub number: usize,
    pub tree: AnyClassTree<'a>,
}

impl<'a> ClassRef<'a> {
    /// The name of the class.
    pub fn name(&self) -> &'a Name
        ensures { result.now ≡ (class_ref_view self.now).name }
    {
        match self.tree {
            AnyClassTree::Main(main) => &main.name,
            AnyClassTree::Plain(class) => &class.name,
        }
    }

    /// The name that the class extends.
    pub fn superclass(&self) -> Option<&'a Name>
        ensures { option_copied result ≡ (class_ref_view self.now).superclass }
    {
        match self.tree {
            AnyClassTree::Main(_) => None,
            AnyClassTree::Plain(class) => class.superclass.as_ref(),
        }
    }

    /// The fields that the class itself declares.
    pub fn fields(&self) -> &'a [Field]
        ensures { result.now ≡ (class_ref_view self.now).fields }
    {
        match self.tree {
            AnyClassTree::Main(_) => &[],
            AnyClassTree::Plain(class) => class.fields.as_slice(),
        }
    }

    /// The methods that the class itself declares.
    pub fn methods(&self) -> &'a [MethodTree]
        ensures { map method_view result.now ≡ (class_ref_view self.now).methods }
    {
        match self.tree {
            AnyClassTree::Main(_) => &[],
            AnyClassTree::Plain(class) => class.methods.as_slice(),
        }
    }

    /// Whether the class itself declares a field or a method.
    pub fn has_members(&self) -> bool
        ensures { result ≡ has_members (class_ref_view self.now) }
    {
        !(self.fields().is_empty() && self.methods().is_empty())
    }
}

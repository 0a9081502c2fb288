//! Classes and files as trees keep them: their methods are bytes, so that a tree takes hardly more room than its spelling.
ghost use Rattle.std.specs.Prelude.{◌≡◌, IfOk, IfSome, map, option_map};
ghost use Rattle.std.specs.List.{AllByRecursion};
ghost use Rattle.mj_tree.specs.Views.{main_view, class_view, file_view, method_view};
ghost use Rattle.tree_bytes.specs.Bodies.{OfMain, OfMethod};
ghost use Rattle.tree_spelling.specs.Storable.{MainFits, MethodFits, ClassFits, FileFits};
ghost use Rattle.tree_bytes.specs.Stored.{stored_class, stored_file};

use crate::body::Body;
use mj_tree::{ClassTree, Field, FileTree, MainTree, MethodTree};
use ordered_names::Name;
use std::alloc::{AllocError, Global};
use std::marker::Model;

/// A method: its name beside its body. Contracts see the method.
pub struct StoredMethod {
    pub(crate) name: Name,
    pub(crate) body: Body,
}

impl Drop for StoredMethod {
    fn drop(self) {
        let StoredMethod { name: _, body: _ } = self;
    }
}

impl Model for StoredMethod {
    ghost use Rattle.std.specs.Prelude.{◌≡◌};
    ghost use Rattle.mj_tree.specs.Trees.{Method};
    ghost use Rattle.tree_bytes.specs.Bodies.{OfMethod, method_of};
    ghost use Rattle.tree_spelling.specs.Codes.{method_code};
    ghost use Rattle.tree_spelling.specs.Storable.{MethodFits};

    ghost Value = { Method };

    ghost coded = { method_code };

    ghost view = { λ m. method_of m.body };

    ghost invariant = { λ m. (m.body ≡ OfMethod (method_of m.body))
        × (m.name ≡ (method_of m.body).name)
        × MethodFits (method_of m.body) };
}

impl StoredMethod {
    /// Its name.
    pub fn name(&self) -> &Name
        ensures value { result.now ≡ self.now.name }
        ensures fits { MethodFits self.now }
    {
        &self.name
    }

    /// Its body.
    pub fn body(&self) -> &Body
        ensures { result.now ≡ OfMethod self.now }
    {
        &self.body
    }
}

/// A main class: its name beside its body. Contracts see the main class.
pub struct StoredMain {
    pub(crate) name: Name,
    pub(crate) body: Body,
}

impl Drop for StoredMain {
    fn drop(self) {
        let StoredMain { name: _, body: _ } = self;
    }
}

impl Model for StoredMain {
    ghost use Rattle.std.specs.Prelude.{◌≡◌};
    ghost use Rattle.mj_tree.specs.Trees.{Main};
    ghost use Rattle.tree_bytes.specs.Bodies.{OfMain, statement_of};
    ghost use Rattle.tree_spelling.specs.Codes.{main_code};
    ghost use Rattle.tree_spelling.specs.Storable.{MainFits};

    ghost Value = { Main };

    ghost coded = { main_code };

    ghost view = { λ m. record { name = m.name; statement = statement_of m.body } };

    ghost invariant = { λ m. (m.body ≡ OfMain (statement_of m.body))
        × MainFits (record { name = m.name; statement = statement_of m.body }) };
}

impl StoredMain {
    /// Its name.
    pub fn name(&self) -> &Name
        ensures value { result.now ≡ self.now.name }
        ensures fits { MainFits self.now }
    {
        &self.name
    }

    /// Its body.
    pub fn body(&self) -> &Body
        ensures { result.now ≡ OfMain self.now.statement }
    {
        &self.body
    }
}

/// A class that isn't the main class.
pub struct StoredClass {
    pub name: Name,
    pub superclass: Option<Name>,
    pub fields: Vec<Field>,
    pub methods: Vec<StoredMethod>,
}

impl Drop for StoredClass {
    fn drop(self) {
        let StoredClass {
            name: _,
            superclass: _,
            fields: _,
            methods: _,
        } = self;
    }
}

/// A file: the main class, if it has one, and then its classes.
pub struct StoredFile {
    pub main: Option<StoredMain>,
    pub classes: Vec<StoredClass>,
}

impl Drop for StoredFile {
    fn drop(self) {
        let StoredFile {
            main: _,
            classes: _,
        } = self;
    }
}

/// A method with its body as bytes.
fn store_method(alloc: Global, method: &MethodTree) -> Result<StoredMethod, AllocError>
    requires { MethodFits (method_view method.now) }
    ensures { IfOk result (λ m. m ≡ method_view method.now) }
{
    let name = method.name.copy(alloc)?;
    let body = Body::of_method(alloc, method)?;
    Ok(StoredMethod { name, body })
}

/// Methods with their bodies as bytes.
fn store_methods(alloc: Global, methods: &[MethodTree]) -> Result<Vec<StoredMethod>, AllocError>
    requires { AllByRecursion MethodFits (map method_view methods.now) }
    ensures { IfOk result (λ stored. stored.items ≡ map method_view methods.now) }
{
    let mut stored = Vec::with_capacity(alloc, methods.len())?;
    for method in methods {
        stored.push(store_method(alloc, method)?)?;
    }
    Ok(stored)
}

/// A class with its methods as bytes.
fn store_class(alloc: Global, class: ClassTree) -> Result<StoredClass, AllocError>
    requires { ClassFits (class_view class) }
    ensures { IfOk result (λ stored. stored_class stored ≡ class_view class) }
{
    let ClassTree {
        name,
        superclass,
        fields,
        methods,
    } = class;
    let methods = store_methods(alloc, &methods)?;
    Ok(StoredClass {
        name,
        superclass,
        fields,
        methods,
    })
}

/// Classes with their methods as bytes.
fn store_classes(alloc: Global, classes: Vec<ClassTree>) -> Result<Vec<StoredClass>, AllocError>
    requires { AllByRecursion ClassFits (map class_view classes.items) }
    ensures { IfOk result (λ stored. map stored_class stored.items ≡ map class_view classes.items) }
{
    let mut stored = Vec::with_capacity(alloc, classes.len())?;
    for class in classes {
        stored.push(store_class(alloc, class)?)?;
    }
    Ok(stored)
}

/// A main class with its statement as bytes.
fn store_main(alloc: Global, main: &MainTree) -> Result<StoredMain, AllocError>
    requires { MainFits (main_view main.now) }
    ensures { IfOk result (λ m. m ≡ main_view main.now) }
{
    let name = main.name.copy(alloc)?;
    let body = Body::of_main(alloc, &main.statement)?;
    Ok(StoredMain { name, body })
}

/// A main class, if there is one, with its statement as bytes.
fn store_any_main(alloc: Global, main: Option<MainTree>) -> Result<Option<StoredMain>, AllocError>
    requires { IfSome (option_map main_view main) MainFits }
    ensures { IfOk result (λ stored. stored ≡ option_map main_view main) }
{
    match &main {
        Some(main) => Ok(Some(store_main(alloc, main)?)),
        None => Ok(None),
    }
}

/// A file with its methods as bytes.
pub(crate) fn store_file(alloc: Global, file: FileTree) -> Result<StoredFile, AllocError>
    requires { FileFits (file_view file) }
    ensures { IfOk result (λ stored. stored_file stored ≡ file_view file) }
{
    let FileTree { main, classes } = file;
    let main = store_any_main(alloc, main)?;
    let classes = store_classes(alloc, classes)?;
    Ok(StoredFile { main, classes })
}

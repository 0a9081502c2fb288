//! The header of a class.
ghost use Rattle.std.specs.Prelude.{◌≡◌, IfOk, IfErr, map, option_map, option_copied, option_and_then};
ghost use Rattle.tree_bytes.specs.Stored.{stored_class};
ghost use Rattle.recorder.specs.Programs.{Goes, GivesUp};
ghost use Rattle.query_rules.specs.Items.{header_of};
ghost use Rattle.text_queries.specs.ClassTrees.{class_named};
ghost use Rattle.text_queries.specs.NamedHeaders.{main_header, class_header, header_among, header_named};
ghost use Rattle.text_queries.specs.Header.{header_steps};

use crate::class_trees::{ask_class_tree, tree_of};
use mj_tree::{Field, copy_fields};
use ordered_names::Name;
use recorder::{Reader, Recorder, RunFault};
use result_bytes::{Header, Value};
use std::alloc::{AllocError, Global};
use tree_bytes::{StoredClass, StoredMethod, Tree};

/// The class that a class extends.
fn copy_superclass(alloc: Global, superclass: Option<&Name>) -> Result<Option<Name>, AllocError>
    ensures { IfOk result (λ copy. copy ≡ option_copied superclass.entry) }
{
    match superclass {
        Some(name) => Ok(Some(name.copy(alloc)?)),
        None => Ok(None),
    }
}

/// The names of methods.
fn method_names(alloc: Global, methods: &[StoredMethod]) -> Result<Vec<Name>, AllocError>
    ensures { IfOk result (λ names. names.items ≡ map (λ m. m.name) methods.now) }
{
    let mut names = Vec::new(alloc);
    for method in methods {
        names.push(method.name().copy(alloc)?)?;
    }
    Ok(names)
}

/// The header of the main class.
fn header_of_main(alloc: Global) -> Header
    ensures { result ≡ main_header }
{
    Header::new(true, None, Vec::new(alloc), Vec::new(alloc))
}

/// The header of a class that isn't the main class.
fn header_of_class(alloc: Global, class: &StoredClass) -> Result<Header, AllocError>
    ensures { IfOk result (λ header. header ≡ class_header (stored_class class.now)) }
{
    let superclass = copy_superclass(alloc, class.superclass.as_ref())?;
    let fields = copy_fields(alloc, &class.fields)?;
    let methods = method_names(alloc, &class.methods)?;
    Ok(Header::new(false, superclass, fields, methods))
}

/// The header of the first class of this name in a tree that isn't the main class.
fn header_among(alloc: Global, tree: &Tree, class: &Name) -> Result<Option<Header>, AllocError>
    ensures { IfOk result (λ header. header ≡ header_among class.now tree.now.classes) }
{
    match tree.class(class) {
        Some(found) => Ok(Some(header_of_class(alloc, found)?)),
        None => Ok(None),
    }
}

/// The header of the first class of this name in a tree. The main class comes first.
fn header_in(alloc: Global, tree: &Tree, class: &Name) -> Result<Option<Header>, AllocError>
    ensures { IfOk result (λ header. header ≡ header_named class.now tree.now) }
{
    match &tree.root().main {
        Some(main) if main.name() == class => Ok(Some(header_of_main(alloc))),
        _ => header_among(alloc, tree, class),
    }
}

/// The header of the class of this name in a tree, if there is one.
fn header_for(
    alloc: Global,
    tree: Option<&Tree>,
    class: &Name,
) -> Result<Option<Header>, AllocError>
    ensures { IfOk result (λ header. header
        ≡ option_map header_of (option_and_then (class_named class.now)
        (option_copied tree.entry))) }
{
    match tree {
        Some(tree) => header_in(alloc, tree, class),
        None => Ok(None),
    }
}

/// The header of a class, by the index and the tree of the class's file.
pub fn run_header<D: Reader>(
    alloc: Global,
    recorder: &mut Recorder<D>,
    class: &Name,
) -> Result<Value, RunFault>
    ensures ok { IfOk result (λ v. Goes (header_steps class.now) recorder.old v recorder.new) }
    ensures err { IfErr result (λ e. GivesUp (header_steps class.now) recorder.old e
        recorder.new) }
    ensures follows { D.follows recorder.old.inner recorder.new.inner }
{
    let answer = ask_class_tree(alloc, recorder, class)?;
    let header = header_for(alloc, tree_of(&answer), class)?;
    Ok(Value::Header(header))
}

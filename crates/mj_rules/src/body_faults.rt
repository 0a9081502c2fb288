//! The diagnostics of the bodies of a class.
ghost use Rattle.std.specs.Prelude.{◌≡◌, [], ◌++◌, if◌then◌else◌, map, OnOk};
ghost use Rattle.mj_tree.specs.Views.{method_view};
ghost use Rattle.mj_members.specs.Classes.{class_ref_view};
ghost use Rattle.mj_classes.specs.Index.{declared_in};
ghost use Rattle.mj_typing.specs.Bodies.{method_faults};
ghost use Rattle.named_files.specs.Repeats.{repeats};
ghost use Rattle.mj_rules.specs.Worlds.{world_of};
ghost use Rattle.mj_rules.specs.FaultLists.{each_numbered, inside, body_faults_of, main_method_faults, body_faults};

use crate::declaration_faults::repeated_methods;
use crate::world::World;
use mj_answer::Diagnostic;
use mj_classes::{AnyClassTree, ClassRef};
use mj_phrases::Mistake;
use mj_tables::MemberTables;
use mj_tree::{MethodTree, Place};
use mj_typing::{main_mistakes, method_mistakes};
use ordered_names::Name;
use std::alloc::{AllocError, Global};

/// Adds mistakes in the body of a method.
fn add_inside(
    alloc: Global,
    faults: &mut Vec<Diagnostic>,
    method: &Name,
    mistakes: &[Mistake],
) -> Result<(), AllocError>
    ensures { OnOk result (faults.new.items ≡ faults.old.items ++ inside method.now mistakes.now) }
{
    for mistake in mistakes {
        let place = Place::Inside(method.copy(alloc)?, mistake.mark);
        faults.push(Diagnostic {
            place,
            code: mistake.code,
        })?;
    }
    Ok(())
}

/// Adds what is wrong with the body of a method, unless its name stands before it.
fn add_body(
    alloc: Global,
    faults: &mut Vec<Diagnostic>,
    world: &World,
    class: &Name,
    repeated: bool,
    method: &MethodTree,
) -> Result<(), AllocError>
    ensures { OnOk result
        (faults.new.items
        ≡ faults.old.items
        ++ (if repeated then [] else inside (method_view method.now).name
        (method_faults (world_of (declared_in world.now.tables.now))
        class.now (method_view method.now)))) }
{
    if repeated {
        return Ok(());
    }
    let mistakes = method_mistakes(alloc, world, class, method)?;
    add_inside(alloc, faults, &method.name, &mistakes)
}

/// Adds what is wrong with the bodies of methods.
fn add_bodies(
    alloc: Global,
    faults: &mut Vec<Diagnostic>,
    world: &World,
    class: &Name,
    methods: &[MethodTree],
) -> Result<(), AllocError>
    ensures { OnOk result
        (faults.new.items
        ≡ faults.old.items
        ++ each_numbered
        (body_faults_of (declared_in world.now.tables.now) class.now) 0
        (map method_view methods.now)
        (repeats (map (λ m. m.name) (map method_view methods.now)))) }
{
    let repeated = repeated_methods(alloc, methods)?;
    let flags = repeated.as_slice();
    for (number, method) in methods.iter().enumerate() {
        add_body(alloc, faults, world, class, flags[number], method)?;
    }
    Ok(())
}

/// Adds what is wrong with main.
fn add_main(
    alloc: Global,
    faults: &mut Vec<Diagnostic>,
    world: &World,
    class: &ClassRef,
) -> Result<(), AllocError>
    ensures { OnOk result
        (faults.new.items
        ≡ faults.old.items
        ++ main_method_faults (declared_in world.now.tables.now)
        (class_ref_view class.now) (class_ref_view class.now).main) }
{
    match class.tree {
        AnyClassTree::Main(main) => {
            let name = Name::new(alloc, "main")?;
            let mistakes = main_mistakes(alloc, world, main)?;
            add_inside(alloc, faults, &name, &mistakes)
        }
        AnyClassTree::Plain(_) => Ok(()),
    }
}

/// Adds the diagnostics of the bodies of a class.
pub fn add_body_faults(
    alloc: Global,
    faults: &mut Vec<Diagnostic>,
    tables: &MemberTables,
    class: &ClassRef,
) -> Result<(), AllocError>
    ensures { OnOk result
        (faults.new.items
        ≡ faults.old.items
        ++ body_faults (declared_in tables.now) (class_ref_view class.now)) }
{
    let world = World { tables };
    add_bodies(alloc, faults, &world, class.name(), class.methods())?;
    add_main(alloc, faults, &world, class)
}

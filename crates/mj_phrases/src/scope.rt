//! The formals and locals of a method.
ghost use Rattle.std.specs.Prelude.{◌≡◌, ◌++◌, ◌∷◌, List, [], IfOk, OnOk};
ghost use Rattle.std.specs.Option.{option_copied};
ghost use Rattle.mj_tree.specs.Views.{method_view};
ghost use Rattle.mj_tree.specs.declared.tree.Variable.{Variable};
ghost use Rattle.mj_phrases.specs.Variables.{variables_of, name_mark, add_repeated, add_repeated_each};
ghost use Rattle.mj_phrases.specs.Seen.{Covers};
ghost use Rattle.mj_phrases.specs.Table.{local_of, main_scope, method_scope};

use crate::verdict::Mistake;
use mj_answer::Code;
use mj_tree::{MethodTree, Ty, Variable};
use ordered_names::Name;
use std::alloc::{AllocError, Global};
use std::collections::BTreeMap;
use std::marker::Model;

/// Where a phrase stands: in a method of a class, with its formals and locals, or in main, which has none.
#[derive(Drop)]
pub struct Scope<'a> {
    class: Option<&'a Name>,
    formals: &'a [Variable],
    locals: &'a [Variable],
    /// The type of the first variable of each name.
    types: BTreeMap<Name, Ty>,
}

impl<'a> Model for Scope<'a> {
    ghost use Rattle.std.specs.Option.{option_copied};
    ghost use Rattle.std.specs.Prelude.{◌++◌};
    ghost use Rattle.mj_phrases.specs.Seen.{Covers};
    ghost use Rattle.mj_phrases.specs.Table.{Scope};

    ghost Value = { Scope };

    ghost view = { λ s.
        record { class = option_copied s.class; variables = s.formals.now ++ s.locals.now } };

    ghost invariant = { λ s. Covers s.types (s.formals.now ++ s.locals.now) };
}

impl<'a> Scope<'a> {
    /// The scope of main.
    pub fn of_main(alloc: Global) -> Self
        ensures { result ≡ main_scope }
    {
        Scope {
            class: None,
            formals: &[],
            locals: &[],
            types: BTreeMap::new(alloc),
        }
    }

    /// The scope of a method of the class. Adds a mistake for each formal or local whose name stands before it.
    pub fn of_method(
        alloc: Global,
        class: &'a Name,
        method: &'a MethodTree,
        mistakes: &mut Vec<Mistake>,
    ) -> Result<Self, AllocError>
        ensures value { IfOk result (λ s. s ≡ method_scope class.now (method_view method.now)) }
        ensures repeated { OnOk result
            (mistakes.new.items
            ≡ add_repeated_each mistakes.old.items []
            (variables_of (method_view method.now))) }
    {
        let mut types = BTreeMap::new(alloc);
        declare_all(alloc, &mut types, &method.formals, mistakes)?;
        declare_all(alloc, &mut types, &method.locals, mistakes)?;
        Ok(Scope {
            class: Some(class),
            formals: &method.formals,
            locals: &method.locals,
            types,
        })
    }

    /// The class of the method, or `None` in main.
    pub fn class(&self) -> Option<&Name>
        ensures { option_copied result ≡ self.now.class }
    {
        self.class
    }

    /// The type of the first formal or local of the name.
    pub fn local(&self, name: &Name) -> Option<&Ty>
        ensures { option_copied result ≡ local_of self.now.variables name.now }
    {
        self.types.get(name)
    }
}

/// The number of the token of a variable's name.
fn name_mark(variable: &Variable) -> usize
    ensures { result ≡ name_mark variable.now }
{
    let type_len = match variable.ty {
        Ty::IntArray => 3,
        Ty::Int | Ty::Boolean | Ty::Class(_) => 1,
    };
    variable.mark.saturating_add(type_len)
}

/// One more variable, unless its name stands before it.
fn declare(
    alloc: Global,
    types: &mut BTreeMap<Name, Ty>,
    variable: &Variable,
    mistakes: &mut Vec<Mistake>,
) -> Result<(), AllocError>
    ensures types { OnOk result
        ((before : List Variable) → Covers types.old before
        → Covers types.new (before ++ variable.now ∷ [])) }
    ensures repeated { OnOk result
        ((before : List Variable) → Covers types.old before
        → mistakes.new.items ≡ add_repeated mistakes.old.items before variable.now) }
{
    if types.contains_key(&variable.name) {
        let mark = name_mark(variable);
        mistakes.push(Mistake {
            mark,
            code: Code::E207,
        })?;
        return Ok(());
    }
    let name = variable.name.copy(alloc)?;
    let ty = variable.ty.copy(alloc)?;
    types.insert(name, ty)?;
    Ok(())
}

/// More variables in their order.
fn declare_all(
    alloc: Global,
    types: &mut BTreeMap<Name, Ty>,
    variables: &[Variable],
    mistakes: &mut Vec<Mistake>,
) -> Result<(), AllocError>
    ensures types { OnOk result
        ((before : List Variable) → Covers types.old before
        → Covers types.new (before ++ variables.now)) }
    ensures repeated { OnOk result
        ((before : List Variable) → Covers types.old before
        → mistakes.new.items ≡ add_repeated_each mistakes.old.items before variables.now) }
{
    for variable in variables {
        declare(alloc, types, variable, mistakes)?;
    }
    Ok(())
}

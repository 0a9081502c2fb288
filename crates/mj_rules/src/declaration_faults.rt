//! The diagnostics of the declarations of a class.
ghost use Rattle.std.specs.Prelude.{◌≡◌, ◌++◌, ℕ, List, map, Some, IfOk, OnOk, is_some};
ghost use Rattle.mj_tree.specs.Views.{method_view};
ghost use Rattle.mj_classes.specs.Declarations.{decl, place};
ghost use Rattle.mj_classes.specs.Chains.{chain_of};
ghost use Rattle.mj_members.specs.Classes.{class_ref_view};
ghost use Rattle.mj_classes.specs.Index.{declared_in};
ghost use Rattle.mj_classes.specs.Walks.{IsFirstPlace};
ghost use Rattle.named_files.specs.Repeats.{repeats};
ghost use Rattle.mj_rules.specs.Worlds.{sig_of};
ghost use Rattle.mj_rules.specs.FaultLists.{each_numbered, superclass_faults, chain_faults, is_undeclared, field_faults, same_type, same_types, same_signature, accepts, may_override, override_faults, method_faults_of, rest_of, nearest_sig, declaration_faults};

use mj_answer::{Code, Diagnostic};
use mj_classes::{ClassRef, Declarations, End};
use mj_tables::MemberTables;
use mj_tree::{Field, MethodTree, Place, Ty, Variable};
use named_files::repeats;
use ordered_names::Name;
use profiles::Profile;
use std::alloc::{AllocError, Global};

fn is_declared(declarations: &Declarations, name: &Name) -> bool
    ensures { result ≡ is_some (decl (declared_in declarations.now) name.now) }
{
    declarations.find(name).is_some()
}

fn is_undeclared(declarations: &Declarations, ty: &Ty) -> bool
    ensures { result ≡ is_undeclared (declared_in declarations.now) ty.now }
{
    match ty {
        Ty::Class(name) => !is_declared(declarations, name),
        Ty::Int | Ty::Boolean | Ty::IntArray => false,
    }
}

/// Adds the diagnostic of a class that extends an undeclared name.
pub fn add_superclass_fault(
    faults: &mut Vec<Diagnostic>,
    declarations: &Declarations,
    class: &ClassRef,
) -> Result<(), AllocError>
    ensures { OnOk result
        (faults.new.items
        ≡ faults.old.items
        ++ superclass_faults (declared_in declarations.now)
        (class_ref_view class.now).superclass) }
{
    if let Some(superclass) = class.superclass() {
        if !is_declared(declarations, superclass) {
            faults.push(Diagnostic {
                place: Place::Class,
                code: Code::E201,
            })?;
        }
    }
    Ok(())
}

/// Adds the diagnostic of the class at this place, the first one of its name, if its chain runs into a cycle.
pub fn add_chain_fault(
    faults: &mut Vec<Diagnostic>,
    declarations: &Declarations,
    at: usize,
) -> Result<(), AllocError>
    requires { IsFirstPlace (declared_in declarations.now) at }
    ensures { OnOk result
        ((c : List ℕ)
        → place (declared_in declarations.now) c ≡ Some at
        → faults.new.items
        ≡ faults.old.items ++ chain_faults (chain_of (declared_in declarations.now) c)) }
{
    if let End::Repeated(_) = declarations.chain_end_at(at) {
        faults.push(Diagnostic {
            place: Place::Class,
            code: Code::E202,
        })?;
    }
    Ok(())
}

/// For each field, whether its name stands before it.
pub fn repeated_fields(alloc: Global, fields: &[Field]) -> Result<Vec<bool>, AllocError>
    ensures { IfOk result (λ flags. flags.items ≡ repeats (map (λ f. f.name) fields.now)) }
{
    let mut names = Vec::new(alloc);
    for field in fields {
        names.push(field.name.as_str())?;
    }
    repeats(alloc, &names)
}

/// For each method, whether its name stands before it.
pub fn repeated_methods(alloc: Global, methods: &[MethodTree]) -> Result<Vec<bool>, AllocError>
    ensures { IfOk result (λ flags.
        flags.items ≡ repeats (map (λ m. m.name) (map method_view methods.now))) }
{
    let mut names = Vec::new(alloc);
    for method in methods {
        names.push(method.name.as_str())?;
    }
    repeats(alloc, &names)
}

/// Adds what is wrong with a field.
fn add_field(
    faults: &mut Vec<Diagnostic>,
    declarations: &Declarations,
    number: usize,
    repeated: bool,
    field: &Field,
) -> Result<(), AllocError>
    ensures { OnOk result
        (faults.new.items
        ≡ faults.old.items
        ++ field_faults (declared_in declarations.now) number repeated field.now) }
{
    if repeated {
        faults.push(Diagnostic {
            place: Place::Field(number),
            code: Code::E203,
        })?;
    }
    if is_undeclared(declarations, &field.ty) {
        faults.push(Diagnostic {
            place: Place::Field(number),
            code: Code::E206,
        })?;
    }
    Ok(())
}

/// Adds what is wrong with the fields of a class.
pub fn add_fields(
    alloc: Global,
    faults: &mut Vec<Diagnostic>,
    declarations: &Declarations,
    fields: &[Field],
) -> Result<(), AllocError>
    ensures { OnOk result
        (faults.new.items
        ≡ faults.old.items
        ++ each_numbered (field_faults (declared_in declarations.now)) 0 fields.now
        (repeats (map (λ f. f.name) fields.now))) }
{
    let repeated = repeated_fields(alloc, fields)?;
    let flags = repeated.as_slice();
    for (number, field) in fields.iter().enumerate() {
        add_field(faults, declarations, number, flags[number], field)?;
    }
    Ok(())
}

/// Whether a type is the same as another.
pub fn same_type(ty: &Ty, other: &Ty) -> bool
    ensures { result ≡ same_type ty.now other.now }
{
    ty == other
}

/// Whether parameters have the types of others.
fn same_types(formals: &[Variable], others: &[Variable]) -> bool
    ensures { result ≡ same_types formals.now (map (λ v. v.ty) others.now) }
{
    if formals.len() != others.len() {
        return false;
    }
    for (number, formal) in formals.iter().enumerate() {
        if !same_type(&formal.ty, &others[number].ty) {
            return false;
        }
    }
    true
}

/// Whether a method has the parameter types and the return type of another.
fn same_signature(method: &MethodTree, other: &MethodTree) -> bool
    ensures { result ≡ same_signature (method_view method.now) (sig_of (method_view other.now)) }
{
    same_type(&method.returns, &other.returns) && same_types(&method.formals, &other.formals)
}

/// Whether a type is accepted by another.
#[tactic(auto, unfolding(mj_phrases::specs::Table::is_accepted))]
fn accepts(declarations: &Declarations, ty: &Ty, other: &Ty) -> bool
    ensures { result ≡ accepts (declared_in declarations.now) ty.now other.now }
{
    match (ty, other) {
        (Ty::Class(class), Ty::Class(ancestor)) => {
            class == ancestor || declarations.descends(class, ancestor)
        }
        (Ty::Class(_), _) => false,
        (Ty::Int, _) => matches!(other, Ty::Int),
        (Ty::Boolean, _) => matches!(other, Ty::Boolean),
        (Ty::IntArray, _) => matches!(other, Ty::IntArray),
    }
}

/// Whether a method may override another.
fn may_override(
    profile: Profile,
    declarations: &Declarations,
    method: &MethodTree,
    other: &MethodTree,
) -> bool
    ensures { result
        ≡ may_override profile (declared_in declarations.now) (method_view method.now)
        (sig_of (method_view other.now)) }
{
    match profile {
        Profile::One => same_signature(method, other),
        Profile::Two => {
            same_types(&method.formals, &other.formals)
                && accepts(declarations, &method.returns, &other.returns)
        }
    }
}

/// Adds the diagnostic of a method that may not override the one of its name behind its class in the chain.
fn add_override(
    profile: Profile,
    faults: &mut Vec<Diagnostic>,
    tables: &MemberTables,
    class: &ClassRef,
    number: usize,
    method: &MethodTree,
) -> Result<(), AllocError>
    requires { decl (declared_in tables.now) (class_ref_view class.now).name
        ≡ Some (class_ref_view class.now) }
    ensures { OnOk result
        (faults.new.items
        ≡ faults.old.items
        ++ override_faults profile (declared_in tables.now) number (method_view method.now)
        (nearest_sig (rest_of (declared_in tables.now) (class_ref_view class.now).name)
        (method_view method.now).name)) }
{
    if let Some(other) = tables.method_behind(class, &method.name) {
        if !may_override(profile, tables.declarations(), method, other.method) {
            faults.push(Diagnostic {
                place: Place::Method(number),
                code: Code::E205,
            })?;
        }
    }
    Ok(())
}

/// Adds what is wrong with these methods of a class.
pub fn add_methods(
    alloc: Global,
    profile: Profile,
    faults: &mut Vec<Diagnostic>,
    tables: &MemberTables,
    class: &ClassRef,
    methods: &[MethodTree],
) -> Result<(), AllocError>
    requires { decl (declared_in tables.now) (class_ref_view class.now).name
        ≡ Some (class_ref_view class.now) }
    ensures { OnOk result
        (faults.new.items
        ≡ faults.old.items
        ++ each_numbered
        (method_faults_of profile (declared_in tables.now)
        (nearest_sig (rest_of (declared_in tables.now) (class_ref_view class.now).name))) 0
        (map method_view methods.now)
        (repeats (map (λ m. m.name) (map method_view methods.now)))) }
{
    let repeated = repeated_methods(alloc, methods)?;
    let flags = repeated.as_slice();
    for (number, method) in methods.iter().enumerate() {
        if flags[number] {
            faults.push(Diagnostic {
                place: Place::Method(number),
                code: Code::E204,
            })?;
        } else {
            add_override(profile, faults, tables, class, number, method)?;
        }
    }
    Ok(())
}

/// The diagnostics of the declarations of the class at this place, the first one of its name.
pub fn declaration_faults(
    alloc: Global,
    profile: Profile,
    tables: &MemberTables,
    at: usize,
    class: &ClassRef,
) -> Result<Vec<Diagnostic>, AllocError>
    requires first { decl (declared_in tables.now) (class_ref_view class.now).name
        ≡ Some (class_ref_view class.now) }
    requires at { place (declared_in tables.now) (class_ref_view class.now).name ≡ Some at }
    ensures { IfOk result (λ faults.
        faults.items ≡ declaration_faults profile (declared_in tables.now) (class_ref_view class.now)) }
{
    let declarations = tables.declarations();
    let mut faults = Vec::new(alloc);
    add_superclass_fault(&mut faults, declarations, class)?;
    add_chain_fault(&mut faults, declarations, at)?;
    add_fields(alloc, &mut faults, declarations, class.fields())?;
    add_methods(alloc, profile, &mut faults, tables, class, class.methods())?;
    Ok(faults)
}

//! The methods that override one that they may not.
ghost use Rattle.std.specs.Prelude.{◌≡◌, ◌++◌, ◌∷◌, [], false, map, Some, IfOk, IfErr, OnOk, option_map, option_copied};
ghost use Rattle.std.specs.Arc.{arc_value};
ghost use Rattle.item_ids.specs.declared.key.Key.TheVariants as keys;
ghost use Rattle.mj_tree.specs.declared.tree.Ty.TheVariants as types;
ghost use Rattle.profiles.specs.declared.profile.Profile.TheVariants.{Two};
ghost use Rattle.recorder.specs.Programs.{Goes, GivesUp, Ask, each};
ghost use Rattle.body_questions.specs.Members.{row_types};
ghost use Rattle.answer_queries.specs.Signatures.{same_types as are_same_types, same_signature as is_same_signature};
ghost use Rattle.answer_queries.specs.CheckClass.{overridden_class as overridden, accept_step, may_step, override_flag, override_flag_step, override_step};

use crate::fields::add_flag;
use body_questions::{ask_descends, method_row};
use item_ids::Key;
use mj_answer::MethodRow;
use mj_rules::same_type;
use mj_tree::Ty;
use ordered_names::Name;
use profiles::Profile;
use recorder::{Reader, Recorder, RunFault, read};
use result_bytes::Value;
use std::alloc::{AllocError, Global};

/// Whether these are the same types in the same order.
fn same_types(types: &[Ty], others: &[Ty]) -> bool
    ensures { result ≡ are_same_types types.now others.now }
{
    if types.len() != others.len() {
        return false;
    }
    for (number, ty) in types.iter().enumerate() {
        if !same_type(ty, &others[number]) {
            return false;
        }
    }
    true
}

/// Whether two methods have the same parameter types and the same return type.
fn same_signature(own: &MethodRow, other: &MethodRow) -> bool
    ensures { result ≡ is_same_signature (row_types own.now) (row_types other.now) }
{
    same_type(own.returns(), other.returns()) && same_types(own.formals(), other.formals())
}

/// Whether a class is accepted by another, by its chain if they differ.
fn ask_class<D: Reader>(
    alloc: Global,
    recorder: &mut Recorder<D>,
    class: &Name,
    other: &Name,
) -> Result<bool, RunFault>
    ensures ok { IfOk result (λ answer. Goes
        (accept_step (types.Class class.now) (types.Class other.now)) recorder.old answer
        recorder.new) }
    ensures err { IfErr result (λ e. GivesUp
        (accept_step (types.Class class.now) (types.Class other.now)) recorder.old e
        recorder.new) }
    ensures follows { D.follows recorder.old.inner recorder.new.inner }
{
    if class == other {
        Ok(true)
    } else {
        ask_descends(alloc, recorder, class, other)
    }
}

/// Whether a type is accepted by another.
fn ask_accepted<D: Reader>(
    alloc: Global,
    recorder: &mut Recorder<D>,
    ty: &Ty,
    other: &Ty,
) -> Result<bool, RunFault>
    ensures ok { IfOk result (λ answer. Goes (accept_step ty.now other.now) recorder.old answer
        recorder.new) }
    ensures err { IfErr result (λ e. GivesUp (accept_step ty.now other.now) recorder.old e
        recorder.new) }
    ensures follows { D.follows recorder.old.inner recorder.new.inner }
{
    match (ty, other) {
        (Ty::Class(class), Ty::Class(ancestor)) => ask_class(alloc, recorder, class, ancestor),
        _ => Ok(same_type(ty, other)),
    }
}

/// Whether a method has the parameter types of another and a return type that is accepted by the other's.
fn ask_covariant<D: Reader>(
    alloc: Global,
    recorder: &mut Recorder<D>,
    own: &MethodRow,
    other: &MethodRow,
) -> Result<bool, RunFault>
    ensures ok { IfOk result (λ may. Goes (may_step Two (row_types own.now) (row_types other.now))
        recorder.old may recorder.new) }
    ensures err { IfErr result (λ e. GivesUp
        (may_step Two (row_types own.now) (row_types other.now)) recorder.old e recorder.new) }
    ensures follows { D.follows recorder.old.inner recorder.new.inner }
{
    if same_types(own.formals(), other.formals()) {
        ask_accepted(alloc, recorder, own.returns(), other.returns())
    } else {
        Ok(false)
    }
}

/// Whether a method may override another.
fn ask_may_override<D: Reader>(
    alloc: Global,
    recorder: &mut Recorder<D>,
    profile: Profile,
    own: &MethodRow,
    other: &MethodRow,
) -> Result<bool, RunFault>
    ensures ok { IfOk result (λ may. Goes
        (may_step profile (row_types own.now) (row_types other.now)) recorder.old may
        recorder.new) }
    ensures err { IfErr result (λ e. GivesUp
        (may_step profile (row_types own.now) (row_types other.now)) recorder.old e
        recorder.new) }
    ensures follows { D.follows recorder.old.inner recorder.new.inner }
{
    match profile {
        Profile::One => Ok(same_signature(own, other)),
        Profile::Two => ask_covariant(alloc, recorder, own, other),
    }
}

/// Whether a method overrides one that it may not.
fn ask_override<D: Reader>(
    alloc: Global,
    recorder: &mut Recorder<D>,
    profile: Profile,
    own: Option<&MethodRow>,
    other: Option<&MethodRow>,
) -> Result<bool, RunFault>
    ensures ok { IfOk result (λ flag. Goes
        (override_flag profile (option_map row_types (option_copied own.entry))
        (option_map row_types (option_copied other.entry))) recorder.old flag recorder.new) }
    ensures err { IfErr result (λ e. GivesUp
        (override_flag profile (option_map row_types (option_copied own.entry))
        (option_map row_types (option_copied other.entry))) recorder.old e recorder.new) }
    ensures follows { D.follows recorder.old.inner recorder.new.inner }
{
    match (own, other) {
        (Some(own), Some(other)) => {
            let may = ask_may_override(alloc, recorder, profile, own, other)?;
            Ok(!may)
        }
        _ => Ok(false),
    }
}

/// Asks whether one more method overrides one that it may not, by the members of both classes.
fn ask_method<D: Reader>(
    alloc: Global,
    recorder: &mut Recorder<D>,
    profile: Profile,
    own: &Value,
    other: &Value,
    method: &Name,
    flags: &mut Vec<bool>,
) -> Result<(), RunFault>
    ensures ok { OnOk result (Goes
        (override_flag_step profile own.now other.now method.now flags.old.items) recorder.old
        flags.new.items recorder.new) }
    ensures err { IfErr result (λ e. GivesUp
        (override_flag_step profile own.now other.now method.now flags.old.items) recorder.old e
        recorder.new) }
    ensures follows { D.follows recorder.old.inner recorder.new.inner }
{
    let own = method_row(own, method);
    let other = method_row(other, method);
    let flag = ask_override(alloc, recorder, profile, own, other)?;
    add_flag(flags, flag)?;
    Ok(())
}

/// For each of these methods, whether it overrides one that it may not, by the members of both classes.
#[tactic(auto, using(recorder::proofs::Rules::loop_more, recorder::proofs::Rules::loop_up, recorder::proofs::Rules::loop_end))]
fn ask_methods<D: Reader>(
    alloc: Global,
    recorder: &mut Recorder<D>,
    profile: Profile,
    own: &Value,
    other: &Value,
    methods: &[Name],
) -> Result<Vec<bool>, RunFault>
    ensures ok { IfOk result (λ flags. Goes
        (each (override_flag_step profile own.now other.now) methods.now []) recorder.old
        flags.items recorder.new) }
    ensures err { IfErr result (λ e. GivesUp
        (each (override_flag_step profile own.now other.now) methods.now []) recorder.old e
        recorder.new) }
    ensures follows { D.follows recorder.old.inner recorder.new.inner }
{
    let mut flags = Vec::new(alloc);
    for method in methods {
        ask_method(alloc, recorder, profile, own, other, method, &mut flags)?;
    }
    Ok(flags)
}

/// For each of these methods, that it overrides none.
fn none_differ(alloc: Global, methods: &[Name]) -> Result<Vec<bool>, AllocError>
    ensures { IfOk result (λ flags. flags.items ≡ map (λ m. false) methods.now) }
{
    let mut flags = Vec::new(alloc);
    for _method in methods {
        flags.push(false)?;
    }
    Ok(flags)
}

/// The class whose members a class with these methods and this chain may override.
pub fn overridden_class<'c>(methods: &[Name], chain: &'c [Name]) -> Option<&'c Name>
    ensures { option_copied result ≡ overridden methods.now chain.now }
{
    if methods.is_empty() {
        None
    } else {
        chain.get(1)
    }
}

/// For each of these methods of a class, whether it overrides one of another class that it may not.
fn compare_classes<D: Reader>(
    alloc: Global,
    recorder: &mut Recorder<D>,
    profile: Profile,
    class: &Name,
    other: &Name,
    methods: &[Name],
) -> Result<Vec<bool>, RunFault>
    ensures ok { IfOk result (λ flags. Goes
        (override_step profile class.now methods.now (Some other.now)) recorder.old flags.items
        recorder.new) }
    ensures err { IfErr result (λ e. GivesUp
        (override_step profile class.now methods.now (Some other.now)) recorder.old e
        recorder.new) }
    ensures follows { D.follows recorder.old.inner recorder.new.inner }
{
    let own = read(recorder, Key::Members(class.copy(alloc)?))?;
    let other = read(recorder, Key::Members(other.copy(alloc)?))?;
    let flags = ask_methods(
        alloc,
        recorder,
        profile,
        own.value(),
        other.value(),
        methods,
    )?;
    Ok(flags)
}

/// For each method of a class, whether it overrides one of the other class that it may not.
pub fn ask_overrides<D: Reader>(
    alloc: Global,
    recorder: &mut Recorder<D>,
    profile: Profile,
    class: &Name,
    methods: &[Name],
    other: Option<&Name>,
) -> Result<Vec<bool>, RunFault>
    ensures ok { IfOk result (λ flags. Goes
        (override_step profile class.now methods.now (option_copied other.entry)) recorder.old
        flags.items recorder.new) }
    ensures err { IfErr result (λ e. GivesUp
        (override_step profile class.now methods.now (option_copied other.entry)) recorder.old e
        recorder.new) }
    ensures follows { D.follows recorder.old.inner recorder.new.inner }
{
    match other {
        Some(second) => compare_classes(alloc, recorder, profile, class, second, methods),
        None => Ok(none_differ(alloc, methods)?),
    }
}

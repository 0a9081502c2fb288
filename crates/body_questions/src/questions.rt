//! What a check of a body asks, each by one read.
ghost use Rattle.std.specs.Prelude.{◌≡◌, IfOk, IfErr, option_map};
ghost use Rattle.recorder.specs.Programs.{Goes, GivesUp};
ghost use Rattle.body_questions.specs.Questions.{declared_step, descends_step, field_step, method_step};

use crate::classes::{descends_in, is_declared_in};
use crate::members::{field_in, method_in};
use item_ids::Key;
use mj_phrases::{MethodSignature, MethodTypes};
use mj_tree::Ty;
use ordered_names::Name;
use recorder::{Reader, Recorder, RunFault, read};
use std::alloc::Global;

/// Whether a class is declared, by its header.
pub fn ask_declared<D: Reader>(
    alloc: Global,
    recorder: &mut Recorder<D>,
    class: &Name,
) -> Result<bool, RunFault>
    ensures ok { IfOk result (λ answer. Goes (declared_step class.now) recorder.old answer
        recorder.new) }
    ensures err { IfErr result (λ e. GivesUp (declared_step class.now) recorder.old e
        recorder.new) }
    ensures follows { D.follows recorder.old.inner recorder.new.inner }
{
    let header = read(recorder, Key::Header(class.copy(alloc)?))?;
    Ok(is_declared_in(header.value()))
}

/// Whether a class stands in the chain of another.
pub fn ask_descends<D: Reader>(
    alloc: Global,
    recorder: &mut Recorder<D>,
    class: &Name,
    ancestor: &Name,
) -> Result<bool, RunFault>
    ensures ok { IfOk result (λ answer. Goes (descends_step class.now ancestor.now) recorder.old
        answer recorder.new) }
    ensures err { IfErr result (λ e. GivesUp (descends_step class.now ancestor.now) recorder.old
        e recorder.new) }
    ensures follows { D.follows recorder.old.inner recorder.new.inner }
{
    let chain = read(recorder, Key::Supers(class.copy(alloc)?))?;
    Ok(descends_in(chain.value(), ancestor))
}

/// The type of a field.
pub fn ask_field<D: Reader>(
    alloc: Global,
    recorder: &mut Recorder<D>,
    class: &Name,
    name: &Name,
) -> Result<Option<Ty>, RunFault>
    ensures ok { IfOk result (λ answer. Goes (field_step class.now name.now) recorder.old
        answer recorder.new) }
    ensures err { IfErr result (λ e. GivesUp (field_step class.now name.now) recorder.old e
        recorder.new) }
    ensures follows { D.follows recorder.old.inner recorder.new.inner }
{
    let fields = read(recorder, Key::Members(class.copy(alloc)?))?;
    let ty = field_in(alloc, fields.value(), name)?;
    Ok(ty)
}

/// The types of a method.
pub fn ask_method<D: Reader>(
    alloc: Global,
    recorder: &mut Recorder<D>,
    class: &Name,
    name: &Name,
) -> Result<Option<MethodTypes>, RunFault>
    ensures ok { IfOk result (λ answer. Goes (method_step class.now name.now) recorder.old
        (option_map ⟦<MethodTypes as MethodSignature>⟧.sig answer) recorder.new) }
    ensures err { IfErr result (λ e. GivesUp (method_step class.now name.now) recorder.old e
        recorder.new) }
    ensures follows { D.follows recorder.old.inner recorder.new.inner }
{
    let methods = read(recorder, Key::Members(class.copy(alloc)?))?;
    let types = method_in(alloc, methods.value(), name)?;
    Ok(types)
}

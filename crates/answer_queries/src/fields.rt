//! The types of fields that are classes which aren't declared.
ghost use Rattle.std.specs.Prelude.{◌≡◌, ◌++◌, ◌∷◌, [], IfOk, IfErr, OnOk};
ghost use Rattle.recorder.specs.Programs.{Goes, GivesUp, each};
ghost use Rattle.answer_queries.specs.CheckClass.{type_step, field_type_step};

use body_questions::is_declared_in;
use item_ids::Key;
use mj_tree::{Field, Ty};
use recorder::{Reader, Recorder, RunFault, read};
use std::alloc::{AllocError, Global};

/// Whether a type is a class that isn't declared, by the header of the class.
fn ask_type<D: Reader>(alloc: Global, recorder: &mut Recorder<D>, ty: &Ty) -> Result<bool, RunFault>
    ensures ok { IfOk result (λ flag. Goes (type_step ty.now) recorder.old flag recorder.new) }
    ensures err { IfErr result (λ e. GivesUp (type_step ty.now) recorder.old e recorder.new) }
    ensures follows { D.follows recorder.old.inner recorder.new.inner }
{
    match ty {
        Ty::Class(class) => {
            let header = read(recorder, Key::Header(class.copy(alloc)?))?;
            Ok(!is_declared_in(header.value()))
        }
        Ty::Int | Ty::Boolean | Ty::IntArray => Ok(false),
    }
}

/// One more flag.
pub fn add_flag(flags: &mut Vec<bool>, flag: bool) -> Result<(), AllocError>
    ensures { OnOk result (flags.new.items ≡ flags.old.items ++ flag ∷ []) }
{
    flags.push(flag)?;
    Ok(())
}

/// Asks whether the type of one more field is undeclared.
fn ask_field<D: Reader>(
    alloc: Global,
    recorder: &mut Recorder<D>,
    field: &Field,
    flags: &mut Vec<bool>,
) -> Result<(), RunFault>
    ensures ok { OnOk result (Goes (field_type_step field.now flags.old.items) recorder.old
        flags.new.items recorder.new) }
    ensures err { IfErr result (λ e. GivesUp (field_type_step field.now flags.old.items) recorder.old e
        recorder.new) }
    ensures follows { D.follows recorder.old.inner recorder.new.inner }
{
    let undeclared = ask_type(alloc, recorder, &field.ty)?;
    add_flag(flags, undeclared)?;
    Ok(())
}

/// For each field, whether its type is a class that isn't declared.
#[tactic(auto, using(recorder::proofs::Rules::loop_more, recorder::proofs::Rules::loop_up, recorder::proofs::Rules::loop_end))]
pub fn ask_fields<D: Reader>(
    alloc: Global,
    recorder: &mut Recorder<D>,
    fields: &[Field],
) -> Result<Vec<bool>, RunFault>
    ensures ok { IfOk result (λ flags. Goes (each field_type_step fields.now []) recorder.old
        flags.items recorder.new) }
    ensures err { IfErr result (λ e. GivesUp (each field_type_step fields.now []) recorder.old e
        recorder.new) }
    ensures follows { D.follows recorder.old.inner recorder.new.inner }
{
    let mut flags = Vec::new(alloc);
    for field in fields {
        ask_field(alloc, recorder, field, &mut flags)?;
    }
    Ok(flags)
}

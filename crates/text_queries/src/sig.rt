//! The types of a method.
ghost use Rattle.std.specs.Prelude.{◌≡◌, IfOk, IfErr, map, option_copied, option_and_then};
ghost use Rattle.recorder.specs.Programs.{Goes, GivesUp};
ghost use Rattle.query_rules.specs.Items.{signature_of};
ghost use Rattle.text_queries.specs.Sig.{sig_steps};

use item_ids::Key;
use mj_tree::{Ty, Variable};
use ordered_names::Name;
use recorder::{Reader, Recorder, RunFault, read};
use result_bytes::{Signature, Value};
use std::alloc::{AllocError, Global};
use tree_bytes::{Body, MethodHead};

/// The types of variables.
fn types_of(alloc: Global, variables: &[Variable]) -> Result<Vec<Ty>, AllocError>
    ensures { IfOk result (λ types. types.items ≡ map (λ v. v.ty) variables.now) }
{
    let mut types = Vec::new(alloc);
    for variable in variables {
        types.push(variable.ty.copy(alloc)?)?;
    }
    Ok(types)
}

/// The types of a body; the statement of `main` has none.
fn signature_of(alloc: Global, body: &Body) -> Result<Option<Signature>, AllocError>
    ensures { IfOk result (λ signature. signature ≡ signature_of body.now) }
{
    match body.types(alloc)? {
        Some(MethodHead { returns, formals }) => {
            let formals = types_of(alloc, &formals)?;
            Ok(Some(Signature::new(formals, returns)))
        }
        None => Ok(None),
    }
}

/// The types of a body, if there is one.
fn signature_for(alloc: Global, body: Option<&Body>) -> Result<Option<Signature>, AllocError>
    ensures { IfOk result (λ signature. signature
        ≡ option_and_then signature_of (option_copied body.entry)) }
{
    match body {
        Some(body) => signature_of(alloc, body),
        None => Ok(None),
    }
}

/// The types of a method, by the method.
pub fn run_sig<D: Reader>(
    alloc: Global,
    recorder: &mut Recorder<D>,
    class: &Name,
    method: &Name,
) -> Result<Value, RunFault>
    ensures ok { IfOk result (λ v. Goes (sig_steps class.now method.now) recorder.old v
        recorder.new) }
    ensures err { IfErr result (λ e. GivesUp (sig_steps class.now method.now) recorder.old e
        recorder.new) }
    ensures follows { D.follows recorder.old.inner recorder.new.inner }
{
    let key = Key::Method(class.copy(alloc)?, method.copy(alloc)?);
    let answer = read(recorder, key)?;
    let signature = signature_for(alloc, answer.value().body())?;
    Ok(Value::Sig(signature))
}

//! Values to bytes.
ghost use Rattle.std.specs.Prelude.{◌≡◌, ◌++◌, IfOk, OnOk};
ghost use Rattle.steps_values.specs.Values.{content, canon};

use crate::files::{TextFormat, put_file_names};
use crate::plan::PlanFormat;
use crate::value::Value;
use byte_readers::put_option;
use std::alloc::{AllocError, Global};

/// The canonical bytes of a value.
#[tactic(auto, unfolding(crate::specs::Values::canon))]
pub fn encode(alloc: Global, value: &Value) -> Result<Vec<u8>, AllocError>
    ensures { IfOk result (λ bytes. bytes.items ≡ canon value.now) }
{
    let mut out = Vec::new(alloc);
    out.push(value.kind().number())?;
    put_content(&mut out, value)?;
    Ok(out)
}

/// Writes the bytes that follow the kind's number.
fn put_content(out: &mut Vec<u8>, value: &Value) -> Result<(), AllocError>
    ensures { OnOk result (out.new.items ≡ out.old.items ++ content value.now) }
{
    match value {
        Value::Files(files) => put_file_names(out, files)?,
        Value::Source(text) => put_option::<TextFormat>(out, text)?,
        Value::Plan(plan) => put_option::<PlanFormat>(out, plan)?,
        Value::Compile(text) => put_option::<TextFormat>(out, text)?,
        Value::Link(text) => put_option::<TextFormat>(out, text)?,
        Value::Answer(text) => put_option::<TextFormat>(out, text)?,
    }
    Ok(())
}

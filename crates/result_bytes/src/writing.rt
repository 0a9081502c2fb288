//! Values to bytes.
ghost use Rattle.std.specs.Prelude.{◌≡◌, ◌++◌, IfOk, OnOk};
ghost use Rattle.result_bytes.specs.Values.{content, canon};

use crate::class::{HeaderFormat, SignatureFormat, SupersFormat};
use crate::files::{TextFormat, put_file_names, put_index};
use crate::value::Value;
use answer_bytes::{MembersFormat, put_answer, put_faults};
use byte_readers::put_option;
use std::alloc::{AllocError, Global};
use tree_bytes::{BodyFormat, TreeFormat};

/// The canonical bytes of a value.
#[tactic(auto, unfolding(crate::specs::Values::canon))]
pub fn encode(alloc: Global, value: &Value) -> Result<Vec<u8>, AllocError>
    ensures { IfOk result (λ bytes. bytes.items ≡ canon value.now) }
{
    let mut out = Vec::new(alloc);
    out.push(value.kind().number())?;
    put_content(&mut out, value)?;
    Ok(out)
}

/// Writes the bytes that follow the kind's number.
fn put_content(out: &mut Vec<u8>, value: &Value) -> Result<(), AllocError>
    ensures { OnOk result (out.new.items ≡ out.old.items ++ content value.now) }
{
    match value {
        Value::Files(files) => put_file_names(out, files)?,
        Value::Source(text) => put_option::<TextFormat>(out, text)?,
        Value::Tree(tree) => put_option::<TreeFormat>(out, tree)?,
        Value::Index(index) => put_index(out, index)?,
        Value::Header(header) => put_option::<HeaderFormat>(out, header)?,
        Value::Method(body) => put_option::<BodyFormat>(out, body)?,
        Value::Sig(signature) => put_option::<SignatureFormat>(out, signature)?,
        Value::Supers(chain) => put_option::<SupersFormat>(out, chain)?,
        Value::Members(members) => put_option::<MembersFormat>(out, members)?,
        Value::CheckClass(faults) => put_faults(out, faults)?,
        Value::CheckBody(faults) => put_faults(out, faults)?,
        Value::Diags(faults) => put_faults(out, faults)?,
        Value::Answer(whole) => put_answer(out, whole)?,
    }
    Ok(())
}

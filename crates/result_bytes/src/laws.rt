//! Laws of all values.
ghost use Rattle.std.specs.Prelude.{◌≡◌};
ghost use Rattle.result_bytes.specs.declared.value.Value.{Value};
ghost use Rattle.result_bytes.specs.Values.{IsValue, canon};

use crate::value::Value;

/// A value's type keeps what its spelling demands.
#[tactic(auto, unfolding(crate::specs::Values::IsValue))]
pub fn is_value(value: &Value)
    ensures { IsValue value.now }
{
    match value {
        Value::Files(files) => {
            let _names = files.names();
        }
        Value::Source(Some(text)) => {
            let _bytes = text.bytes();
        }
        Value::Tree(Some(tree)) => {
            let _root = tree.root();
        }
        Value::Index(index) => {
            let _rows = index.rows();
        }
        Value::Header(Some(header)) => {
            let _is_main = header.is_main();
        }
        Value::Method(Some(body)) => {
            let _bytes = body.bytes();
        }
        Value::Sig(Some(signature)) => {
            let _formals = signature.formals();
        }
        Value::Supers(Some(chain)) => {
            let _classes = chain.classes();
        }
        Value::Members(Some(members)) => {
            let _table = members.table();
        }
        Value::CheckClass(faults) | Value::CheckBody(faults) | Value::Diags(faults) => {
            let _list = faults.list();
        }
        Value::Answer(whole) => {
            let _answer = whole.answer();
        }
        Value::Source(None)
        | Value::Tree(None)
        | Value::Header(None)
        | Value::Method(None)
        | Value::Sig(None)
        | Value::Supers(None)
        | Value::Members(None) => {}
    }
}

/// No spelling has two values.
pub fn one_spelling()
    ensures { (v w : Value) → IsValue v → IsValue w → canon v ≡ canon w → v ≡ w }
{}

//! Laws of all values.
ghost use Rattle.std.specs.Prelude.{◌≡◌};
ghost use Rattle.steps_values.specs.declared.value.Value.{Value};
ghost use Rattle.steps_values.specs.Values.{IsValue, canon};

use crate::value::Value;

/// A value's type keeps what its spelling demands.
#[tactic(auto, unfolding(crate::specs::Values::IsValue))]
pub fn is_value(value: &Value)
    ensures { IsValue value.now }
{
    match value {
        Value::Files(files) => {
            let _names = files.names();
        }
        Value::Plan(Some(plan)) => {
            let _steps = plan.steps();
        }
        Value::Source(Some(text))
        | Value::Compile(Some(text))
        | Value::Link(Some(text))
        | Value::Answer(Some(text)) => {
            let _bytes = text.bytes();
        }
        Value::Source(None)
        | Value::Plan(None)
        | Value::Compile(None)
        | Value::Link(None)
        | Value::Answer(None) => {}
    }
}

/// No spelling has two values.
pub fn one_spelling()
    ensures { (v w : Value) → IsValue v → IsValue w → canon v ≡ canon w → v ≡ w }
{}

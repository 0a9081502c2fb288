//! The answer that a result is.
ghost use Rattle.std.specs.Prelude.{◌≡◌};
ghost use Rattle.result_bytes.specs.declared.value.Value.TheVariants as values;
ghost use Rattle.providers.specs.AnswerValues.{IsAnswerValue};

use mj_answer::Answer;
use result_bytes::Value;

/// The answer for a project that a result of the query of the answer is.
pub fn answer_of(value: &Value) -> &Answer
    requires { IsAnswerValue value.now }
    ensures { value.now ≡ values.Answer result.now }
{
    match value {
        Value::Answer(whole) => whole.answer(),
        _ => unreachable!(),
    }
}

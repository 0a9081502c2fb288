//! What results say about a class: whether it is declared, and what stands in its chain.
ghost use Rattle.std.specs.Prelude.{◌≡◌};
ghost use Rattle.std.specs.Str.{bytes_eq};
ghost use Rattle.std.specs.List.{list_any};
ghost use Rattle.body_questions.specs.Classes.{is_declared_in as declared_told, descends_in as descent_told};

use ordered_names::Name;
use result_bytes::Value;

/// Whether an answer has the header of a class.
pub fn is_declared_in(value: &Value) -> bool
    ensures { result ≡ declared_told value.now }
{
    value.header().is_some()
}

/// Whether a name is among these.
fn has_name(names: &[Name], name: &Name) -> bool
    ensures { result ≡ list_any (λ n. bytes_eq n name.now) names.now }
{
    names.iter().any(|n| n == name)
}

/// Whether an answer has a chain in which the class stands.
pub fn descends_in(value: &Value, ancestor: &Name) -> bool
    ensures { result ≡ descent_told value.now ancestor.now }
{
    match value.supers() {
        Some(chain) => has_name(chain.classes(), ancestor),
        None => false,
    }
}

//! The words for names and marks.
ghost use Rattle.std.specs.Prelude.{◌≡◌};
ghost use Rattle.std.specs.Option.{option_copied};
ghost use Rattle.session_text.specs.SessionText.{mark_word, name_word};

use ordered_names::Name;
use sessions::Mark;

pub(crate) fn name_word(name: Option<&Name>) -> &str
    ensures { result.now ≡ name_word (option_copied name.entry) }
{
    match name {
        Some(name) => name.as_str(),
        None => "-",
    }
}

pub(crate) fn mark_word(mark: Mark) -> &'static str
    ensures { result.now ≡ mark_word mark }
{
    match mark {
        Mark::Input => "Input",
        Mark::Executed => "Executed",
        Mark::Green => "Green",
    }
}

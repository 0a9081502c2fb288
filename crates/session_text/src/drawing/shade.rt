//! The colours of records.
ghost use Rattle.std.specs.Prelude.{◌≡◌, ◌↔◌, IsTrue};
ghost use Rattle.std.specs.Option.{option_copied};
ghost use Rattle.fingerprint.specs.Prints.{print_of};
ghost use Rattle.sessions.specs.Sessions.{past_entry};
ghost use Rattle.session_text.specs.Shades.{class_word, fill_word, has_print, mark_shade, shade_of};

use sessions::{Finder, Mark, Record, Session};

/// In which colour a record is drawn.
#[derive(Clone, Copy)]
pub(crate) enum Shade {
    /// An input that is what it was in the session before.
    Input,
    /// Its key is new, or it has another fingerprint than in the session before.
    Red,
    /// It was run, and comes to the fingerprint that it had.
    Executed,
    /// Taken over from the session before.
    Green,
}

impl Shade {
    /// The colour of a record of the session behind this one.
    pub(crate) fn of(finder: &mut Finder, past: Option<&Session>, item: &Record) -> Shade
        ensures { result ≡ shade_of (option_copied past.entry) item.now }
    {
        if is_as_before(finder, past, item) {
            mark_shade(item.mark())
        } else {
            Shade::Red
        }
    }

    /// The class of its nodes.
    pub(crate) fn class(self) -> &'static str
        ensures { result.now ≡ class_word self }
    {
        match self {
            Shade::Input => "input",
            Shade::Red => "red",
            Shade::Executed => "executed",
            Shade::Green => "green",
        }
    }

    /// The colour that its nodes are filled with.
    pub(crate) fn fill(self) -> &'static str
        ensures { result.now ≡ fill_word self }
    {
        match self {
            Shade::Input => "#e8e8e8",
            Shade::Red => "#f6c1ba",
            Shade::Executed => "#fbe3a6",
            Shade::Green => "#cdebcf",
        }
    }
}

fn mark_shade(mark: Mark) -> Shade
    ensures { result ≡ mark_shade mark }
{
    match mark {
        Mark::Input => Shade::Input,
        Mark::Executed => Shade::Executed,
        Mark::Green => Shade::Green,
    }
}

/// Whether the session before, if there is one, has the key with the same fingerprint.
fn is_as_before(finder: &mut Finder, past: Option<&Session>, item: &Record) -> bool
    ensures { result
        ≡ has_print (past_entry (option_copied past.entry) item.now.key) (print_of item.now.value) }
{
    let Some(past) = past else {
        return false;
    };
    let Some((_, had)) = finder.find(past, item.key()) else {
        return false;
    };
    has_same_print(had, item)
}

/// Whether two records have the same fingerprint.
fn has_same_print(had: &Record, item: &Record) -> bool
    ensures { IsTrue result ↔ (print_of had.now.value ≡ print_of item.now.value) }
{
    had.sealed().same_print(item.sealed())
}

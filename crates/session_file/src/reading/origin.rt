//! What the records of a file are read over.
ghost use Rattle.std.specs.Prelude.{◌≡◌, IfSome, option_map};
ghost use Rattle.std.specs.Arc.{arc_value};
ghost use Rattle.std.specs.Option.{option_copied};
ghost use Rattle.sessions.specs.Sessions.{IsSession};
ghost use Rattle.sessions.specs.Terms.{ends_with_print};
ghost use Rattle.session_file.specs.Reading.{past_value};

use fingerprint::Sealed;
use item_ids::Key;
use sessions::{Finder, Form, Mark, Session};
use std::marker::Model;
use std::sync::Arc;

/// What the records of a file are read over: the previous session, if there is one, and the form of the file. Results
/// that other threads opened are at hand, too, by the records' indices; they may be any.
#[derive(Drop)]
pub(crate) struct Origin<'a> {
    past: Option<&'a Session>,
    form: Form,
    finder: Finder,
    opened: &'a [Option<Arc<Sealed>>],
}

impl<'a> Model for Origin<'a> {
    ghost use Rattle.std.specs.Option.{option_copied};
    ghost use Rattle.std.specs.Coded.{codes};
    ghost use Rattle.result_bytes.specs.contracts.value.Value as value_contracts;
    ghost use Rattle.session_file.specs.Reading.{OriginValue};

    ghost Value = { OriginValue };

    ghost coded = { Prim.hlevel (codes, value_contracts.the_row.coded) };

    ghost view = { λ o. record { past = option_copied o.past; form = o.form } };
}

impl<'a> Origin<'a> {
    /// The previous session and a form.
    pub(crate) fn new(
        past: Option<&'a Session>,
        form: Form,
        opened: &'a [Option<Arc<Sealed>>],
    ) -> Self
        ensures { result ≡ record { past = option_copied past.entry; form = form } }
    {
        Origin {
            past,
            form,
            finder: Finder::new(),
            opened,
        }
    }

    /// The result that the previous session has of a key.
    pub(crate) fn result_of(&mut self, key: &Key) -> Option<&'a Arc<Sealed>>
        ensures value { option_map arc_value (option_copied result)
            ≡ past_value self.old.past key.now }
        ensures same { self.new ≡ self.old }
    {
        match self.past {
            Some(past) => match self.finder.find(past, key) {
                Some((_, record)) => Some(record.sealed()),
                None => None,
            },
            None => None,
        }
    }

    /// The result that another thread opened for the record at an index, if one did.
    pub(crate) fn opened_at(&self, index: usize) -> Option<&'a Arc<Sealed>> {
        self.opened.get(index)?.as_ref()
    }

    /// Whether a record of this mark ends with the fingerprint of its result.
    pub(crate) fn ends_with_print(&self, mark: Mark) -> bool
        ensures { result ≡ ends_with_print self.now.form mark }
    {
        self.form.ends_with_print(mark)
    }
}

/// A previous session is a session.
pub(crate) fn check_past(past: Option<&Session>)
    ensures { IfSome (option_copied past.entry) IsSession }
{
    if let Some(past) = past {
        let _records = past.records();
    }
}

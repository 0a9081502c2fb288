//! Phrases.
ghost use Rattle.std.specs.Prelude.{◌≡◌, IfOk, map};
ghost use Rattle.run_fixtures.specs.Phrases.{phrase_for, phrases_of, Named, Called};
ghost use Rattle.run_fixtures.specs.View.{view_of};

use ordered_names::Name;
use std::alloc::{AllocError, AllocFailed, Global};

/// A name, or a phrase with a list of parts.
pub enum Phrase {
    Name(Name),
    Call(Box<Phrase>, Vec<Phrase>),
}

impl Drop for Phrase {
    fn drop(self) {
        match self {
            Phrase::Name(_) | Phrase::Call(_, _) => {}
        }
    }
}

/// The phrase that is looked at for two names.
pub fn phrase_of(alloc: Global, first: &Name, second: &Name) -> Result<Phrase, AllocError>
    ensures { IfOk result (λ e. view_of e ≡ phrase_for first.now second.now) }
{
    let mut inner = Vec::new(alloc);
    inner.push(Phrase::Name(first.copy(alloc)?))?;
    let called = call(alloc, second, inner)?;
    let mut parts = Vec::new(alloc);
    parts.push(Phrase::Name(second.copy(alloc)?))?;
    parts.push(called)?;
    call(alloc, first, parts)
}

/// A phrase with parts, after a name.
fn call(alloc: Global, name: &Name, parts: Vec<Phrase>) -> Result<Phrase, AllocError>
    ensures { IfOk result (λ e. view_of e
        ≡ Called (Named name.now) (phrases_of (map view_of parts.items))) }
{
    let front = Box::new(alloc, Phrase::Name(name.copy(alloc)?))?;
    Ok(Phrase::Call(front, parts))
}

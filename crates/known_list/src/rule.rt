//! The rule of a list, and the one step that changes it.

use logbook::{Gain, Play, Rule};

/// The rule: the shared word is the length of the list.
pub struct Law;

impl<E> Rule<E, u64> for Law {
    ghost use Rattle.std.specs.Prelude.{[]};
    ghost use base.Fml.{ftrue};
    ghost use Rattle.known_list.specs.Rules.{IsKept};

    ghost holds = { λ cells log. IsKept cells log };

    ghost first = { [] };

    ghost hinted = { λ n log. Unit {0} };

    ghost shows = { λ log. [] };

    ghost keeps = { λ names log. ftrue };

    ghost moves = { λ ask before after answer. Unit {0} };
}

/// Callers trade nothing.
pub struct Nothing;

impl<E> Gain<E, u64> for Nothing {
    ghost use base.Fml.{ftrue};

    ghost after = { λ names about answer. ftrue };
}

/// A step that adds an entry.
pub struct Adding;

impl<E> Play<E, u64> for Adding {
    ghost use Rattle.known_list.specs.Rules.{Adds};

    ghost then = { Adds };
}

//! Which records are to be replayed.
ghost use Rattle.std.specs.Prelude.{◌≡◌, IfOk};
ghost use Rattle.audit_graph.specs.Plans.{executed_in};

use sessions::{Mark, Session};
use std::alloc::{AllocError, Global};
use std::marker::Model;

/// The executed records of a session, which are to be replayed. Contracts see their indices.
#[derive(Drop)]
pub struct Plan {
    indices: Vec<usize>,
}

impl Model for Plan {
    ghost use Rattle.std.specs.Prelude.{ℕ, List};

    ghost Value = { List ℕ };

    ghost view = { λ p. p.indices.items };
}

impl Plan {
    /// The plan of a session.
    pub(crate) fn of(alloc: Global, session: &Session) -> Result<Self, AllocError>
        ensures { IfOk result (λ plan. plan ≡ executed_in session.now) }
    {
        Ok(Plan {
            indices: executed_in(alloc, session)?,
        })
    }

    /// The indices of the executed records, in order.
    pub fn indices(&self) -> &[usize]
        ensures { result.now ≡ self.now }
    {
        self.indices.as_slice()
    }
}

/// The indices of a session's executed records.
fn executed_in(alloc: Global, session: &Session) -> Result<Vec<usize>, AllocError>
    ensures { IfOk result (λ v. v.items ≡ executed_in session.now) }
{
    let mut executed = Vec::new(alloc);
    for (i, item) in session.records().iter().enumerate() {
        if matches!(item.mark(), Mark::Executed) {
            executed.push(i)?;
        }
    }
    Ok(executed)
}

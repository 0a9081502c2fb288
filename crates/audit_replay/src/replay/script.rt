//! The answers for the edges of a record.
ghost use Rattle.std.specs.Prelude.{◌≡◌, ◌∷◌, ◌++◌, ◌<◌, [], length, IfOk, OnOk};
ghost use Rattle.sessions.specs.Sessions.{AreInside, key_at, entry_at, entry_of};
ghost use Rattle.audit_graph.specs.Replays.{IsHeld};
ghost use Rattle.recorder.specs.Backed.{ReadValue};
ghost use Rattle.audit_replay.specs.Reruns.{AreAllEdges, AddsEdge};

use recorder::AnswerList;
use sessions::{Record, Session};
use std::alloc::{AllocError, Global};
use std::sync::Arc;

/// A record's edges with the results that the session holds for them.
pub(crate) fn script_of(
    alloc: Global,
    session: &Session,
    item: &Record,
) -> Result<AnswerList, AllocError>
    requires { AreInside session.now.records item.now.edges }
    ensures { IfOk result
        (AreAllEdges (entry_at session.now) (entry_of session.now.records item.now)) }
{
    let mut script = AnswerList::new(alloc);
    for edge in item.edges() {
        add_edge(alloc, &mut script, session, *edge)?;
    }
    Ok(script)
}

/// Adds an edge with its result.
fn add_edge(
    alloc: Global,
    script: &mut AnswerList,
    session: &Session,
    edge: usize,
) -> Result<(), AllocError>
    requires { edge < length session.now.records }
    ensures { OnOk result (AddsEdge session.now edge script.old script.new) }
{
    let item = &session.records()[edge];
    script.add(item.key().copy(alloc)?, Arc::try_clone(item.sealed())?)
}

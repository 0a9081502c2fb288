//! Replays of events.
ghost use Rattle.std.specs.Prelude.{◌≡◌, List, [], ◌∷◌, ◌++◌, map, None, IfOk, OnOk};
ghost use Rattle.std.specs.Arc.{arc_value};
ghost use Rattle.recorder.specs.Runs.{OutcomeValue};
ghost use Rattle.sessions.specs.Sessions.{session_in};
ghost use Rattle.graph_rules.specs.Steps.{Event as SpecEvent, Finish};
ghost use Rattle.answer_fixtures.specs.Telling.{IsKeyOf, one_file};
ghost use Rattle.job_table.specs.Kept.{event_of};
ghost use Rattle.table_fixtures.specs.Called.{IsLast, run_events, AreReplayedEvents, AreEventsOfRun, EndsSo, IsReplay};

use crate::again::replay;
use crate::calls::events;
use crate::runs::outcome_of;
use answer_fixtures::{Unfit, key_of, project_of};
use item_ids::Key;
use job_table::{Event, ReplayFault};
use mini_java::MiniJava;
use named_files::Project;
use profiles::Profile;
use recorder::Outcome;
use session_fixtures::Kept;
use sessions::{Session, Terms};
use std::alloc::{AllocError, AllocFailed, Global};
use std::sync::Arc;

/// The events of a run by the worker 0 in a project of this text, for a table of these terms: the key of the last of
/// these records is claimed and finished over the answers of its edges, in a profile, with a begin between them or
/// without. None if there are no records.
#[derive(Clone, Copy)]
pub struct Replay {
    pub terms: Terms,
    pub text: &'static str,
    pub profile: Profile,
    pub records: &'static [Kept],
    pub begins: bool,
}

type Events = Vec<Event<MiniJava>>;

fn add(events: &mut Events, event: Event<MiniJava>) -> Result<(), AllocError>
    ensures { OnOk result (events.new.items ≡ events.old.items ++ event ∷ []) }
{
    Ok(events.push(event)?)
}

/// Adds that the key is claimed, and that its run begins if it does.
fn add_start(alloc: Global, events: &mut Events, key: &Key, begins: bool) -> Result<(), AllocError>
    requires { events.old.items ≡ [] }
    ensures { (o : OutcomeValue) → OnOk result
        (map event_of events.new.items ++ Finish 0 o ∷ [] ≡ run_events begins key.now o) }
{
    add(events, Event::Claim(0, key.copy(alloc)?))?;
    if begins {
        add(events, Event::Begin(0, key.copy(alloc)?))?;
    }
    Ok(())
}

/// The events of a run of the key that has this outcome.
fn run_of(
    alloc: Global,
    key: &Key,
    begins: bool,
    outcome: Arc<Outcome<MiniJava>>,
) -> Result<Events, AllocError>
    ensures { IfOk result (λ events.
        map event_of events.items ≡ run_events begins key.now (arc_value outcome)) }
{
    let mut events = Vec::new(alloc);
    add_start(alloc, &mut events, key, begins)?;
    add(&mut events, Event::Finish(0, outcome))?;
    Ok(events)
}

/// The events of the run of the key, which is the record's.
fn events_with(alloc: Global, key: &Key, replay: &Replay, kept: &Kept) -> Result<Events, Unfit>
    requires last { IsLast replay.now.records.now kept.now }
    requires told { IsKeyOf kept.now.key key.now }
    ensures { IfOk result (λ events. AreEventsOfRun replay.now (map event_of events.items)) }
{
    match outcome_of(alloc, replay.profile, replay.records, kept) {
        Ok(outcome) => Ok(run_of(alloc, key, replay.begins, outcome)?),
        Err(fault) => Err(fault),
    }
}

/// The events of the run of a record's key.
fn events_by(alloc: Global, replay: &Replay, kept: &Kept) -> Result<Events, Unfit>
    requires { IsLast replay.now.records.now kept.now }
    ensures { IfOk result (λ events. AreEventsOfRun replay.now (map event_of events.items)) }
{
    let key = key_of(alloc, kept.key)?;
    events_with(alloc, &key, replay, kept)
}

fn events_of(alloc: Global, replay: &Replay) -> Result<Events, Unfit>
    ensures { IfOk result (λ events. AreReplayedEvents replay.now (map event_of events.items)) }
{
    match replay.records.last() {
        Some(kept) => events_by(alloc, replay, kept),
        None => Ok(Vec::new(alloc)),
    }
}

/// How many events the replay has in a table of these terms over the previous session in a project, or why there is none.
pub(crate) fn replay_in(
    alloc: Global,
    terms: Terms,
    past: &Option<Arc<Session>>,
    project: &Project,
    list: &[Event<MiniJava>],
) -> Result<Result<usize, ReplayFault>, AllocError>
    ensures { IfOk result (EndsSo terms (session_in past.now) project.now (map event_of list.now)) }
{
    match replay(alloc, terms, past, project, list)? {
        Ok(table) => Ok(Ok(events(&table))),
        Err(fault) => Ok(Err(fault)),
    }
}

fn replay_over(
    alloc: Global,
    project: &Project,
    replay: &Replay,
) -> Result<Result<usize, ReplayFault>, Unfit>
    ensures { IfOk result (λ ending. (events : List SpecEvent) × AreReplayedEvents replay.now events
        × EndsSo replay.now.terms None project.now events ending) }
{
    let events = events_of(alloc, replay)?;
    Ok(replay_in(alloc, replay.terms, &None, project, &events)?)
}

/// How many events the replay has with no previous session, or why there is none.
pub fn replay_of(alloc: Global, replay: &Replay) -> Result<Result<usize, ReplayFault>, Unfit>
    ensures { IfOk result (IsReplay replay.now) }
{
    let project = project_of(alloc, replay.text)?;
    replay_over(alloc, &project, replay)
}

//! Tables.
ghost use Rattle.std.specs.Prelude.{◌≡◌, ◌↔◌, map, IfOk, IsTrue};
ghost use Rattle.std.specs.Arc.{arc_value};
ghost use Rattle.sessions.specs.Terms.{first_terms};
ghost use Rattle.sessions.specs.Sessions.{session_in};
ghost use Rattle.key_states.specs.Closing.{IsFull};
ghost use Rattle.job_table.specs.Kept.{event_of};

use crate::event::Event;
use crate::fault::{Asked, CloseFault, OpenFault, TableFault};
use crate::reads::first_stale;
use crate::room::{
    FinishParts, claim, note, note_begin, put_mark, room_at_opening, room_for_finish, room_for_mark,
};
use crate::walks::{WalkEnd, crosses, walk_edges, why_not};
use fingerprint::Sealed;
use graph_rules::{histories_are_orderly, histories_are_sound, sound_is_in_order};
use item_ids::Key;
use key_states::{
    KeyState, NodeMap, Standing, check_past, find_claimed, find_running, key_state, result_of,
    session_of,
};
use named_files::Project;
use project_inputs::Inputs;
use recorder::{Outcome, Runner};
use sessions::{Finder, Mark, Session, Terms, share};
use std::alloc::{AllocError, Global};
use std::marker::Model;
use std::sync::Arc;
use std::thread::Threads;

/// The table of one session of these terms over a previous session and a project, and the events that led to its state.
/// The contract of each call speaks of the table before and after it; a call that is refused leaves it as it was.
pub struct Table<R: Runner> {
    alloc: Global,
    terms: Terms,
    past: Option<Arc<Session>>,
    inputs: Inputs,
    nodes: NodeMap,
    history: Vec<Event<R>>,
    failed: bool,
    finder: Finder,
}

impl<R: Runner> Drop for Table<R> {
    fn drop(self) {
        let Table {
            alloc: _,
            terms: _,
            past: _,
            inputs: _,
            nodes: _,
            history: _,
            failed: _,
            finder: _,
        } = self;
    }
}

impl<R: Runner> Model for Table<R> {
    ghost use Rattle.std.specs.Prelude.{◌≡◌, ◌<◌, false, map, vec_len, vec_capacity};
    ghost use Rattle.std.specs.Coded.{codes};
    ghost use Rattle.result_bytes.specs.contracts.value.Value as value_contracts;
    ghost use Rattle.sessions.specs.Sessions.{session_in};
    ghost use Rattle.graph_rules.specs.Settings.{crossing_kinds, setting_of};
    ghost use Rattle.graph_rules.specs.Sound.{AreBacked};
    ghost use Rattle.key_states.specs.Closing.{IsFull};
    ghost use Rattle.job_table.specs.Tables.{TableValue};
    ghost use Rattle.job_table.specs.Kept.{event_of, StandsByHistory};

    ghost Value = { TableValue };

    ghost coded = { Prim.hlevel (codes, value_contracts.the_row.coded) };

    ghost view = { λ t. record {
      terms = t.terms;
      past = session_in t.past;
      crossing = crossing_kinds R.queries.by_profile t.terms.profile (session_in t.past);
      project = t.inputs;
      history = map
          event_of t.history.items;
    } };

    ghost invariant = { λ t. StandsByHistory
        (setting_of R.queries.by_profile t.terms.profile (session_in t.past)) t.inputs t.nodes
        t.failed (map event_of t.history.items)
        × AreBacked (R.queries.mean t.terms.profile) (R.queries.reads t.terms.profile)
        (map event_of t.history.items)
        × (t.failed ≡ false → vec_len t.history < vec_capacity t.history)
        × ¬ IsFull (session_in t.past) };
}

impl<R: Runner> Table<R> {
    ghost use Rattle.graph_rules.specs.Steps.{Legal, AreHeld};
    ghost use Rattle.graph_rules.specs.Settings.{crossing_kinds};
    ghost use Rattle.graph_rules.specs.Sound.{AreBacked, IsSound, IsInOrder};
    ghost use Rattle.graph_rules.specs.Histories.{IsOrderly};
    ghost use Rattle.named_files.specs.Projects.{IsProject};
    ghost use Rattle.job_table.specs.Tables.{past_of, state_of};
    ghost use Rattle.job_table.specs.Calls.{OpenGives, AskGives, MarkGives, BeginGives, FinishGives, FailGives};
    ghost use Rattle.job_table.specs.Closes.{CloseGives};

    /// Opens the table of a session of the project, of the first terms, over the previous session.
    pub fn open(
        alloc: Global,
        past: Option<Arc<Session>>,
        project: &Project,
    ) -> Result<Self, OpenFault>
        ensures { OpenGives R.queries.by_profile first_terms (session_in past) project.now result }
    {
        Table::open_as(alloc, past, project, Terms::first())
    }

    /// Opens the table of a session of the project, of these terms, over the previous session.
    pub fn open_as(
        alloc: Global,
        past: Option<Arc<Session>>,
        project: &Project,
        terms: Terms,
    ) -> Result<Self, OpenFault>
        ensures { OpenGives R.queries.by_profile terms (session_in past) project.now result }
    {
        if is_full(&past) {
            return Err(OpenFault::ChainFull);
        }
        match Inputs::new(alloc, &past, project) {
            Ok(inputs) => Table::of_inputs(alloc, terms, past, inputs),
            Err(_) => Err(OpenFault::OutOfMemory),
        }
    }

    /// Opens the table as `open_as` does. So many threads, up to four, seal the project's sources.
    pub fn open_by<T: Threads + Sync>(
        rt: &T,
        alloc: Global,
        past: Option<Arc<Session>>,
        project: &Project,
        terms: Terms,
        workers: usize,
    ) -> Result<Self, OpenFault>
        ensures { OpenGives R.queries.by_profile terms (session_in past) project.now result }
    {
        if is_full(&past) {
            return Err(OpenFault::ChainFull);
        }
        match Inputs::by_workers(rt, alloc, &past, project, workers) {
            Ok(inputs) => Table::of_inputs(alloc, terms, past, inputs),
            Err(_) => Err(OpenFault::OutOfMemory),
        }
    }

    /// The table of a project's inputs, over the previous session.
    fn of_inputs(
        alloc: Global,
        terms: Terms,
        past: Option<Arc<Session>>,
        inputs: Inputs,
    ) -> Result<Self, OpenFault>
        requires { ¬ IsFull (session_in past) }
        ensures { OpenGives R.queries.by_profile terms (session_in past) inputs result }
    {
        // Inputs are those of a project, by their type.
        inputs.project();
        let Ok((nodes, history)) = room_at_opening(alloc, &inputs, &past) else {
            return Err(OpenFault::OutOfMemory);
        };
        Ok(Table {
            alloc,
            terms,
            past,
            inputs,
            nodes,
            history,
            failed: false,
            finder: Finder::new(),
        })
    }

    /// Asks for a key. If nobody has claimed it, the worker claims it.
    pub fn ask(&mut self, w: u32, key: &Key) -> Result<Asked, TableFault>
        ensures { AskGives self.old w key.now result self.new }
    {
        if self.failed {
            return Ok(Asked::Stopped);
        }
        match key_state(&self.inputs, &self.nodes, key) {
            KeyState::Done(sealed) => {
                return match Arc::try_clone(sealed) {
                    Ok(sealed) => Ok(Asked::Done(sealed)),
                    Err(_) => Err(TableFault::OutOfMemory),
                };
            }
            KeyState::Pending if self.nodes.is_below(w, key) => return Ok(Asked::Busy),
            KeyState::Pending => return Err(TableFault::OutOfRank),
            KeyState::Unknown => {}
        }
        if !self.nodes.is_below(w, key) {
            return Err(TableFault::OutOfRank);
        }
        let Ok(()) = claim(self.alloc, &mut self.nodes, &mut self.history, w, key) else {
            return Err(TableFault::OutOfMemory);
        };
        Ok(Asked::Yours)
    }

    /// Takes over the previous session's result for a key that the worker has claimed, if all its previous edges are
    /// unchanged. Of a key that goes by the profile nothing is taken over from a session of another profile.
    pub fn mark(&mut self, w: u32, key: &Key) -> Result<Arc<Sealed>, TableFault>
        ensures { MarkGives self.old w key.now result self.new }
    {
        if self.failed {
            return Err(TableFault::Failed);
        }
        let Some(at) = find_claimed(&self.nodes, w, key) else {
            return Err(TableFault::NotYours);
        };
        let Some(past) = &self.past else {
            return Err(TableFault::NotInPast);
        };
        let Some((index, record)) = self.finder.find(past, key) else {
            return Err(TableFault::NotInPast);
        };
        if crosses::<R>(past, self.terms.profile, key.kind()) {
            return Err(TableFault::AcrossProfiles);
        }
        match walk_edges(&self.inputs, &self.nodes, past, record.edges()) {
            WalkEnd::Open(i) => return Err(TableFault::EdgeOpen(i)),
            WalkEnd::Changed(i) => return Err(TableFault::EdgeChanged(i)),
            WalkEnd::AllUnchanged => {}
        }
        let Some(parts) = room_for_mark(self.alloc, &mut self.history, key, past, index, record)
        else {
            return Err(TableFault::OutOfMemory);
        };
        Ok(put_mark(&mut self.nodes, &mut self.history, at, w, parts))
    }

    /// Begins the run of a key that the worker has claimed, if the previous session lacks the key, a previous edge
    /// is changed, or the key may not be taken over since it goes by the profile.
    pub fn begin_run(&mut self, w: u32, key: &Key) -> Result<(), TableFault>
        ensures { BeginGives self.old w key.now result self.new }
    {
        if self.failed {
            return Err(TableFault::Failed);
        }
        let Some(at) = find_claimed(&self.nodes, w, key) else {
            return Err(TableFault::NotYours);
        };
        if let Some(fault) = why_not::<R>(
            &self.inputs,
            &self.nodes,
            &self.past,
            self.terms.profile,
            &mut self.finder,
            key,
        ) {
            return Err(fault);
        }
        let Ok(()) = note_begin(self.alloc, &mut self.history, w, key) else {
            return Err(TableFault::OutOfMemory);
        };
        self.nodes.put(at, Standing::Running(w));
        Ok(())
    }

    /// Ends the run of a key with its outcome, if that is of the session's profile, and all that it read still
    /// stands in the table.
    pub fn finish(&mut self, w: u32, outcome: Arc<Outcome<R>>) -> Result<(), TableFault>
        ensures { FinishGives self.old w (arc_value outcome) result self.new }
    {
        if self.failed {
            return Err(TableFault::Failed);
        }
        let Some(_) = find_running(&self.nodes, w, outcome.key()) else {
            return Err(TableFault::NotYours);
        };
        if !outcome.profile().is(self.terms.profile) {
            return Err(TableFault::OtherProfile);
        }
        if let Some(i) = first_stale(&self.inputs, &self.nodes, outcome.reads()) {
            return Err(TableFault::StaleRead(i));
        }
        self.finish_held(w, outcome)
    }

    /// Ends the run of a key as `finish` does, for a caller who knows that all that it read still stands in the table,
    /// so that no result has to be compared.
    pub fn finish_held(&mut self, w: u32, outcome: Arc<Outcome<R>>) -> Result<(), TableFault>
        requires { AreHeld (state_of self.old) (arc_value outcome).told }
        ensures { FinishGives self.old w (arc_value outcome) result self.new }
    {
        let stopped = self.failed;
        if stopped {
            return Err(TableFault::Failed);
        }
        let Some(at) = find_running(&self.nodes, w, outcome.key()) else {
            return Err(TableFault::NotYours);
        };
        if !outcome.profile().is(self.terms.profile) {
            return Err(TableFault::OtherProfile);
        }
        let Some(FinishParts { edges, sealed }) = room_for_finish(
            self.alloc,
            &mut self.history,
            &*outcome,
        ) else {
            return Err(TableFault::OutOfMemory);
        };
        self.nodes
            .put(at, Standing::Done(sealed, edges, Mark::Executed));
        note(&mut self.history, Event::Finish(w, outcome));
        Ok(())
    }

    /// Notes that the worker gives up. This takes no memory.
    pub fn fail(&mut self, w: u32) -> Result<(), TableFault>
        ensures { FailGives self.old w result self.new }
    {
        if self.failed {
            return Err(TableFault::Failed);
        }
        note(&mut self.history, Event::Fail(w));
        self.failed = true;
        Ok(())
    }

    /// Closes the table: the session of the keys that Answer and the inputs lead to, each as it became done.
    pub fn close(&self) -> Result<Session, CloseFault>
        ensures { CloseGives self.now result }
    {
        if self.failed {
            return Err(CloseFault::Failed);
        }
        if !self.nodes.is_quiet() {
            return Err(CloseFault::StillRunning);
        }
        let Some(_) = result_of(&self.inputs, &self.nodes, &Key::Answer) else {
            return Err(CloseFault::NoAnswer);
        };
        // A past is a graph, by its type.
        check_past(&self.past);
        match session_of(
            self.alloc,
            self.terms,
            &self.past,
            &self.inputs,
            &self.nodes,
        ) {
            Ok(session) => Ok(session),
            Err(_) => Err(CloseFault::OutOfMemory),
        }
    }

    /// The terms, as they were handed in.
    pub fn terms(&self) -> Terms
        ensures { result ≡ self.now.terms }
    {
        self.terms
    }

    /// The previous session, as it was handed in.
    pub fn past(&self) -> Result<Option<Arc<Session>>, AllocError>
        ensures { IfOk result (λ past. session_in past ≡ self.now.past) }
    {
        share(&self.past)
    }

    /// All events, from the first.
    pub fn history(&self) -> &[Event<R>]
        ensures { map event_of result.now ≡ self.now.history }
    {
        self.history.as_slice()
    }

    /// What the type keeps: the project is one, the history is legal, and each outcome in it follows from its reads.
    /// Nothing is taken over of the kinds that go by the profile, from a session of another one.
    pub fn laws(&self)
        ensures project { IsProject self.now.project }
        ensures legal { Legal (past_of self.now) self.now.project self.now.history }
        ensures backed { AreBacked (R.queries.mean self.now.terms.profile)
            (R.queries.reads self.now.terms.profile) self.now.history }
        ensures crossing { self.now.crossing ≡ crossing_kinds R.queries.by_profile
            self.now.terms.profile self.now.past }
        // So every key is as its status says: none was marked over a changed or open edge, none was run that
        // could be marked, and each executed value follows from values in the state.
        ensures sound { IsSound (R.queries.mean self.now.terms.profile)
            (R.queries.reads self.now.terms.profile) (past_of self.now) self.now.project
            (state_of self.now) }
        // A done key's edges are done and of lower rank.
        ensures order { IsInOrder (state_of self.now) }
        // No key became done twice, and none before its edges.
        ensures orderly { IsOrderly (past_of self.now) self.now.project self.now.history }
    {
        check_past(&self.past);
        histories_are_sound();
        sound_is_in_order();
        histories_are_orderly();
    }
}

/// Whether no session can follow.
fn is_full(past: &Option<Arc<Session>>) -> bool
    ensures { IsTrue result ↔ IsFull (session_in past.now) }
{
    match past {
        Some(past) => past.number() >= Session::MOST,
        None => false,
    }
}

//! Sessions by several workers.
ghost use Rattle.std.specs.Prelude.{◌≡◌, None, IfOk, IfSome, length, sum};
ghost use Rattle.std.specs.Arc.{arc_value};
ghost use Rattle.query_rules.specs.Queries.{queries};
ghost use Rattle.sessions.specs.Spelling.{digest_of};
ghost use Rattle.sessions.specs.Sessions.{session_in, many_of};
ghost use Rattle.mini_java.specs.Sessions.{IsSessionOf};
ghost use Rattle.crew_fixtures.specs.Made.{AreMade, IsMadeBy, IsMadeOf, after, before, source_files};

use crate::files::{File, project_of};
use crate::hooks::{Holding, Meeting};
use crate::large::{chain, cut_chain, empty_classes};
use answer_fixtures::Unfit;
use item_ids::Kind;
use mini_java::{Gate, Open, Reports, run_session, run_session_as};
use named_files::Project;
use session_file::digest;
use sessions::{Mark, Session, Terms};
use std::alloc::{AllocError, AllocFailed, Global};
use std::sync::{Arc, Wait};
use std::thread::Threads;

/// The terms of a first session, and of the one over it.
#[derive(Clone, Copy)]
pub struct BothTerms {
    pub first: Terms,
    pub second: Terms,
}

/// A project of one file, and the text of this file after an edit.
#[derive(Clone, Copy)]
pub struct Edit {
    pub file: File,
    pub edited: &'static str,
}

/// What was made of a session: the SHA-256 of its file, how many records it has, how many of them are executed and green, the
/// length of the history, and how many events its workers have counted together.
#[derive(Clone, Copy, PartialEq, Eq)]
pub struct Made {
    pub digest: [u8; 32],
    pub records: usize,
    pub executed: usize,
    pub green: usize,
    pub history: usize,
    pub events: usize,
}

/// How many events the workers have counted together. None if that is past the numbers that there are.
fn total(events: &[usize]) -> Option<usize>
    ensures { IfSome result (λ n. n ≡ sum events.now) }
{
    let mut total = 0usize;
    for made in events {
        total = total.checked_add(*made)?;
    }
    Some(total)
}

fn made_of(session: &Session, reports: &Reports) -> Result<Made, Unfit>
    ensures digest { IfOk result (λ made. made.digest ≡ digest_of session.now) }
    ensures records { IfOk result (λ made. made.records ≡ length session.now.records) }
    ensures executed { IfOk result (λ made.
        made.executed ≡ many_of Mark.Executed session.now.records) }
    ensures green { IfOk result (λ made. made.green ≡ many_of Mark.Green session.now.records) }
    ensures history { IfOk result (λ made. made.history ≡ reports.now.history) }
    ensures events { IfOk result (λ made. made.events ≡ sum reports.now.events.items) }
{
    match total(reports.events.as_slice()) {
        Some(events) => Ok(Made {
            digest: digest(session),
            records: session.records().len(),
            executed: session.count(Mark::Executed),
            green: session.count(Mark::Green),
            history: reports.history,
            events,
        }),
        None => Err(Unfit),
    }
}

/// A session, to be shared.
pub(crate) fn share(alloc: Global, session: Session) -> Result<Arc<Session>, AllocError>
    ensures { IfOk result (λ shared. arc_value shared ≡ session) }
{
    Ok(Arc::new(alloc, session)?)
}

/// The session of these terms and of a project over the previous one, by so many workers, and what was made of it.
fn session_over<T: Threads + Wait + Sync, G: Gate + Sync>(
    rt: &T,
    alloc: Global,
    terms: Terms,
    past: Option<Arc<Session>>,
    project: &Project,
    workers: usize,
    gate: &G,
) -> Result<(Arc<Session>, Made), Unfit>
    ensures { IfOk result (λ both.
        IsMadeOf terms (session_in past) project.now workers (arc_value both.0) both.1) }
{
    match run_session_as(rt, alloc, past, project, terms, workers, gate) {
        Ok((session, reports)) => {
            let made = made_of(&session, &reports)?;
            Ok((share(alloc, session)?, made))
        }
        Err(_) => Err(Unfit),
    }
}

/// What is made of a first session of one project, and of the one over it of another, each of its terms, by so many workers.
fn made_of_both<T: Threads + Wait + Sync, G: Gate + Sync>(
    rt: &T,
    alloc: Global,
    terms: BothTerms,
    first: &Project,
    second: &Project,
    workers: usize,
    gate: &G,
) -> Result<(Made, Made), Unfit>
    ensures { IfOk result (λ both.
        AreMade terms first.now second.now workers both.0 both.1) }
{
    let (past, first) = session_over(rt, alloc, terms.first, None, first, workers, gate)?;
    let (_session, second) = session_over(
        rt,
        alloc,
        terms.second,
        Some(past),
        second,
        workers,
        gate,
    )?;
    Ok((first, second))
}

/// What is made of a first session of the project, and of the one over it after the edit, each of its terms, by so many
/// workers.
pub fn made_by<T: Threads + Wait + Sync>(
    rt: &T,
    alloc: Global,
    terms: BothTerms,
    edit: &Edit,
    workers: usize,
) -> Result<(Made, Made), Unfit>
    ensures { IfOk result (λ both.
        AreMade terms (before edit.now) (after edit.now) workers both.0 both.1) }
{
    let project = project_of(alloc, &[edit.file])?;
    let edited = project_of(alloc, &[File(edit.file.0, edit.edited)])?;
    made_of_both(rt, alloc, terms, &project, &edited, workers, &Open)
}

/// What is made of a first session of a chain of so many classes, and of the one over it after the chain is cut in the middle,
/// each of its terms, by so many workers, whose runs are held as this seed decides.
#[tactic(auto, using(crate::proofs::SomeProjects::of_some))]
pub fn made_while_held<T: Threads + Wait + Sync>(
    rt: &T,
    alloc: Global,
    terms: BothTerms,
    classes: usize,
    workers: usize,
    seed: u64,
) -> Result<(Made, Made), Unfit>
    ensures { IfOk result (λ both. (p : Project) × (q : Project)
        × AreMade terms p q workers both.0 both.1) }
{
    let project = chain(alloc, classes)?;
    let edited = cut_chain(alloc, classes, classes / 2)?;
    made_of_both(
        rt,
        alloc,
        terms,
        &project,
        &edited,
        workers,
        &Holding::new(seed),
    )
}

/// What is made of a first session of so many classes without members beside one with main, and of the one over it of the
/// same files, each of its terms, by so many workers.
#[tactic(auto, using(crate::proofs::SomeProjects::of_one))]
pub fn made_of_empty_classes<T: Threads + Wait + Sync>(
    rt: &T,
    alloc: Global,
    terms: BothTerms,
    classes: usize,
    workers: usize,
) -> Result<(Made, Made), Unfit>
    ensures { IfOk result (λ both. (p : Project) × AreMade terms p p workers both.0 both.1) }
{
    let project = empty_classes(alloc, classes)?;
    made_of_both(rt, alloc, terms, &project, &project, workers, &Open)
}

/// Whether in a session of these files by so many workers the first run of the kind that begins, held for so many turns at
/// most, sees another one end.
pub fn workers_meet<T: Threads + Wait + Sync>(
    rt: &T,
    alloc: Global,
    files: &[File],
    kind: Kind,
    workers: usize,
    turns: u64,
) -> Result<bool, Unfit>
    ensures { IfOk result (λ _. IsMadeBy (source_files files.now) workers) }
{
    let project = project_of(alloc, files)?;
    let gate = Meeting::new(kind, turns);
    match run_session(rt, alloc, None, &project, workers, &gate) {
        Ok(_made) => Ok(gate.has_met()),
        Err(_) => Err(Unfit),
    }
}

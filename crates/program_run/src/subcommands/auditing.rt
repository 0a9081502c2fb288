//! The audit of a chain of session files, each opened in its turn.
ghost use Rattle.std.specs.Prelude.{◌≡◌, ◌++◌, ◌∷◌, [], ℕ, List, None, IfOk, IfErr, OnOk, map, string_bytes};
ghost use Rattle.std.specs.Arc.{arc_value};
ghost use Rattle.std.specs.Io.KnownBytes.{Appends};
ghost use Rattle.audit_replay.specs.Audits.{last_of};
ghost use Rattle.mini_java.specs.Taken.{HasTaken};
ghost use Rattle.commands.specs.Chains.{IsAcceptedOver, RefusesOver};
ghost use Rattle.program_run.specs.Audits.{AuditFails, AuditsTo, FailsAtOpened, FailsBehind, IsProjectOf, IsStopped, SourcesFail, TakeFails, TakesMore, TakesNext, TakesOpened, TellFails, TookAll, failure_of, told_last};

use crate::failure::Failure;
use crate::files::{failure_to_read, read_files};
use crate::report::{Report, write};
use crate::subcommands::audit_lines::progress_text;
use audit_graph::AuditFault;
use command_line::AuditWords;
use commands::accepted_texts;
use devices::ReaderFeed;
use mini_java::{Audited, ChainAuditor};
use mj_rules::Project;
use session_file::FileFault;
use std::alloc::Global;
use std::fs;
use std::io::{BufReader, Read, Write};
use std::rt::Files;

/// The report on the chain of the session files of these names, the first session's first. Each file is read once, and
/// closed before the next is opened; the sources, if there are any, are read before the first of them. If it is wanted
/// standard error gets a line for each file as soon as it is taken.
pub(crate) fn audit<R: Files + AllocGlobal, E: Write>(
    rt: &R,
    asked: AuditWords,
    err: &mut E,
) -> Result<Report, Failure>
    ensures reports { IfOk result (λ report. (told : List ℕ)
        × Appends (E.contents err.old) (E.contents err.new) told
        × AuditsTo R.File.Read.remaining asked told report) }
    ensures failed { IfErr result (AuditFails R.File.Read.remaining asked
        (E.contents err.old) (E.contents err.new)) }
{
    let AuditWords {
        sources,
        progress,
        files,
    } = asked;
    let project = project_of(rt, sources)?;
    let auditor = take_files(rt, files, progress, err)?;
    match end_over(auditor, &project) {
        Ok(audited) => Ok(Report::on_chain(accepted_texts(rt.alloc(), &audited)?)),
        Err(fault) => Err(Failure::Chain(fault)),
    }
}

// The project of the sources of these names, if there are any.
fn project_of<R: Files + AllocGlobal>(
    rt: &R,
    names: Vec<String>,
) -> Result<Option<Project>, Failure>
    ensures named { IfOk result (IsProjectOf R.File.Read.remaining (map string_bytes names.items)) }
    ensures failed { IfErr result (SourcesFail R.File.Read.remaining (map string_bytes names.items)) }
{
    if names.is_empty() {
        return Ok(None);
    }
    Ok(Some(Project::new(rt.alloc(), read_files(rt, names)?)?))
}

// What the chain of the files taken ends with, over the project if there is one.
fn end_over(auditor: ChainAuditor, project: &Option<Project>) -> Result<Audited, AuditFault>
    ensures accepted { IfOk result (λ a. (files : List (List ℕ)) → HasTaken files auditor
        → IsAcceptedOver project.now files a.profile (arc_value a.answer) a.sessions a.runs) }
    ensures refused { IfErr result (λ fault. (files : List (List ℕ)) → HasTaken files auditor
        → RefusesOver project.now files fault) }
{
    match project {
        Some(project) => auditor.end_against(project),
        None => auditor.end(),
    }
}

// Takes the files of these names in their order, up to the first that stops the audit.
#[tactic(auto, using(crate::proofs::Progress::took_none))]
fn take_files<R: Files + AllocGlobal, E: Write>(
    rt: &R,
    names: Vec<String>,
    progress: bool,
    err: &mut E,
) -> Result<ChainAuditor, Failure>
    ensures taken { IfOk result (TookAll R.File.Read.remaining (map string_bytes names.items)
        progress (E.contents err.old) (E.contents err.new)) }
    ensures failed { IfErr result (IsStopped R.File.Read.remaining (map string_bytes names.items)
        progress (E.contents err.old) (E.contents err.new)) }
{
    let mut auditor = ChainAuditor::new(rt.alloc());
    for name in names {
        match take_named(rt, &mut auditor, name, progress, err) {
            Ok(()) => {}
            Err(failure) => return Err(failure),
        }
    }
    Ok(auditor)
}

// Takes the file of this name as the next one, and says so if that is wanted.
fn take_named<R: Files + AllocGlobal, E: Write>(
    rt: &R,
    auditor: &mut ChainAuditor,
    name: String,
    progress: bool,
    err: &mut E,
) -> Result<(), Failure>
    ensures taken { (front : List (List ℕ)) (was : HasTaken front auditor.old) → OnOk result
        (TakesMore R.File.Read.remaining front was.sessions (string_bytes name) progress auditor.new
        (E.contents err.old) (E.contents err.new)) }
    ensures failed { (front : List (List ℕ)) → HasTaken front auditor.old → IfErr result
        (TakeFails R.File.Read.remaining front (string_bytes name) progress
        (E.contents err.old) (E.contents err.new)) }
{
    match take_file(rt, auditor, name) {
        Ok(name) => tell(rt.alloc(), auditor, name.as_str(), progress, err),
        Err(failure) => Err(failure),
    }
}

// Opens the file of this name, takes it as the next one, and hands the name back.
fn take_file<R: Files + AllocGlobal>(
    rt: &R,
    auditor: &mut ChainAuditor,
    name: String,
) -> Result<String, Failure>
    ensures named { IfOk result (λ same. same ≡ name) }
    ensures taken { OnOk result (TakesNext R.File.Read.remaining auditor.old auditor.new) }
    ensures failed { (front : List (List ℕ)) → HasTaken front auditor.old
        → IfErr result (FailsBehind R.File.Read.remaining front (string_bytes name)) }
{
    match fs::open(rt, name.as_str()) {
        Ok(file) => take_opened(rt.alloc(), auditor, file, name),
        Err(error) => Err(failure_to_read(&error, name)),
    }
}

// Takes an opened file as the next one, and hands its name back.
fn take_opened<F: Read + Drop>(
    alloc: Global,
    auditor: &mut ChainAuditor,
    file: F,
    name: String,
) -> Result<String, Failure>
    ensures named { IfOk result (λ same. same ≡ name) }
    ensures taken { OnOk result (TakesOpened F.remaining file auditor.old auditor.new) }
    ensures failed { (front : List (List ℕ)) → HasTaken front auditor.old
        → IfErr result (FailsAtOpened F.remaining file front (string_bytes name)) }
{
    let Ok(reader) = BufReader::new(alloc, file) else {
        return Err(Failure::OutOfMemory);
    };
    let mut feed = ReaderFeed::new(reader);
    match auditor.take(alloc, &mut feed) {
        Ok(()) => Ok(name),
        Err(fault) => Err(failure_in(name, fault)),
    }
}

// The failure of a run with this fault at the file of this name.
fn failure_in(name: String, fault: AuditFault) -> Failure
    ensures { result ≡ failure_of name fault }
{
    match fault {
        AuditFault::File(_, FileFault::Device) => Failure::CannotRead(name),
        fault => Failure::Chain(fault),
    }
}

// Says on standard error that the file of this name was taken, if that is wanted.
fn tell<E: Write>(
    alloc: Global,
    auditor: &ChainAuditor,
    name: &str,
    progress: bool,
    err: &mut E,
) -> Result<(), Failure>
    ensures told { (front : List (List ℕ)) (taken : HasTaken front auditor.now) → OnOk result
        (Appends (E.contents err.old) (E.contents err.new)
        (told_last progress name.now (last_of None taken.sessions))) }
    ensures failed { IfErr result (TellFails progress) }
{
    if !progress {
        return Ok(());
    }
    let Some(session) = auditor.session() else {
        return Ok(());
    };
    let line = progress_text(alloc, name, session)?;
    match write(err, line.as_bytes()) {
        Ok(()) => Ok(()),
        Err(_) => Err(Failure::Untold),
    }
}

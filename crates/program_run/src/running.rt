//! One run of the program.
ghost use Rattle.std.specs.Prelude.{◌≡◌, ◌≢◌, ◌⊎◌, ℕ, List, false, map, Some, [], IfOk, IfErr, IsTrue, string_bytes};
ghost use Rattle.command_line.specs.CommandLine.{AsksFor};
ghost use Rattle.command_line.specs.Plain.{asks_plainly, files_for};
ghost use Rattle.command_line.specs.declared.asked.Subcommand.{Subcommand};
ghost use Rattle.program_run.specs.Audits.{StopsAt};
ghost use Rattle.program_run.specs.Believed.{PrintsBelieved};
ghost use Rattle.program_run.specs.Endings.{IsStatus, status_of_failure};
ghost use Rattle.program_run.specs.Failures.{MayFail};
ghost use Rattle.program_run.specs.Refusals.{IsFailureText};
ghost use Rattle.program_run.specs.Runs.{EndsWithAnswer, IsAnswerStatus, Prints, PrintsPlain, PrintsRefusal, ReportsAsked, ReportsFailure, ReportsRefusal, ReportsUnreadable, TellsHelp};

use crate::failure::Failure;
use crate::refusals::{file_refusal, no_record, unreadable, unwritten};
use crate::report::{Report, Status, deliver, no_memory};
use crate::subcommands::auditing::audit;
use crate::subcommands::checking::check;
use crate::subcommands::explaining::explain_codes;
use crate::subcommands::scratching::scratch;
use crate::subcommands::showing::show;
use crate::subcommands::why::why;
use code_words::unknown_text;
use command_line::{Words, WordsFault, words};
use commands::{chain_refusal, refusal_text};
use std::alloc::{AllocError, Global};
use std::io::Write;
use std::rt::Files;
use std::sync::Wait;
use std::thread::Threads;

/// Does what the arguments of the command line ask for; the first is the program's name. Writes standard error, then
/// standard output, and gives the exit status. Only a check starts threads, and only an audit writes to standard error
/// before it is done, if that is asked for.
pub fn run<R: Files + AllocGlobal, T: Threads + Wait + Sync, W: Write, E: Write>(
    rt: &R,
    threads: &T,
    list: Vec<String>,
    out: &mut W,
    err: &mut E,
) -> u8
    ensures status { IsStatus result }
    ensures answer { EndsWithAnswer result
        → Prints R.File.Read.remaining (map string_bytes list.items) result
        (W.contents out.old) (W.contents out.new) (E.contents err.old) (E.contents err.new) }
    // What a check prints is the answer that the session made over the previous one records, whatever that one is. It may be
    // believed if that is one of some project and results with equal fingerprints are equal.
    ensures believed { AsksFor (map string_bytes list.items) Subcommand.Check → EndsWithAnswer result
        → PrintsBelieved R.File.Read.remaining (map string_bytes list.items)
        (W.contents out.old) (W.contents out.new) }
    ensures plain { (subcommand : Subcommand) (names : List (List ℕ))
        → files_for subcommand (map string_bytes list.items) ≡ Some names → EndsWithAnswer result
        → PrintsPlain R.File.Read.remaining subcommand names result
        (W.contents out.old) (W.contents out.new) (E.contents err.old) (E.contents err.new) }
    // Why an audit refuses a chain, by the bytes of the files that were opened, if their type says which.
    ensures refused { result ≡ 3 → PrintsRefusal R.File.Read.remaining
        (map string_bytes list.items) (W.contents out.old) (W.contents out.new)
        (E.contents err.old) (E.contents err.new) }
{
    let status = match report_of(rt, threads, list, err) {
        Ok(report) => deliver(&report, out, err),
        Err(AllocError) => no_memory(err),
    };
    status.number()
}

// The texts and the end of a run with these arguments.
#[tactic(auto, using(crate::proofs::Failures::reports_refusal, crate::proofs::Failures::reports_failure))]
fn report_of<R: Files + AllocGlobal, T: Threads + Wait + Sync, E: Write>(
    rt: &R,
    threads: &T,
    list: Vec<String>,
    err: &mut E,
) -> Result<Report, AllocError>
    ensures answer { IfOk result (λ report. IsAnswerStatus report.status
        → ReportsAsked R.File.Read.remaining (map string_bytes list.items)
        (E.contents err.old) (E.contents err.new) report
        ⊎ TellsHelp (map string_bytes list.items) (E.contents err.old) (E.contents err.new) report) }
    ensures refused { IfOk result (λ report. report.status ≡ Status.ChainRefused
        → ReportsRefusal R.File.Read.remaining (map string_bytes list.items)
        (E.contents err.old) (E.contents err.new) report) }
    // The report of a plain audit is `Refused` only because a file can't be read.
    ensures unreadable { (names : List (List ℕ))
        → files_for Subcommand.Audit (map string_bytes list.items) ≡ Some names → IfOk result (λ report.
        report.status ≡ Status.Refused
        → ReportsUnreadable R.File.Read.remaining names
        (E.contents err.old) (E.contents err.new) report) }
    // Why a run is refused.
    ensures failed { IfOk result (λ report. report.status ≡ Status.Refused
        → ReportsFailure R.File.Read.remaining (map string_bytes list.items)
        (E.contents err.old) (E.contents err.new) report) }
{
    match perform(rt, threads, list, err) {
        Ok(report) => Ok(report),
        Err(failure) => failure_report(rt.alloc(), failure),
    }
}

// What the arguments ask for.
#[tactic(auto, using(crate::proofs::Failures::answer_ends, crate::proofs::Failures::accepted_ends, crate::proofs::Failures::refused_stops))]
fn perform<R: Files + AllocGlobal, T: Threads + Wait + Sync, E: Write>(
    rt: &R,
    threads: &T,
    list: Vec<String>,
    err: &mut E,
) -> Result<Report, Failure>
    ensures reports { IfOk result (ReportsAsked R.File.Read.remaining (map string_bytes list.items)
        (E.contents err.old) (E.contents err.new)) }
    ensures answered { IfOk result (λ report. IsAnswerStatus report.status) }
    ensures plain { (subcommand : Subcommand)
        → IsTrue (asks_plainly subcommand (map string_bytes list.items))
        → IfErr result (λ failure. status_of_failure failure ≢ Status.Clean) }
    ensures refused { IfErr result (MayFail R.File.Read.remaining (map string_bytes list.items)
        (E.contents err.old) (E.contents err.new)) }
    ensures audit { (names : List (List ℕ))
        → files_for Subcommand.Audit (map string_bytes list.items) ≡ Some names
        → IfErr result (λ failure. status_of_failure failure ≡ Status.Refused
        → StopsAt R.File.Read.remaining names false (E.contents err.old) (E.contents err.new)
        failure) }
{
    match words(rt.alloc(), list)? {
        Words::Scratch(asked) => scratch(rt, asked),
        Words::Check(asked) => check(rt, threads, asked),
        Words::Audit(asked) => audit(rt, asked, err),
        Words::Show(asked) => show(rt, asked),
        Words::Why(asked) => why(rt, asked),
        Words::Explain(asked) => explain_codes(rt.alloc(), asked),
    }
}

// What is written of a failure. Out of memory has no text, which would take memory.
fn failure_report(alloc: Global, failure: Failure) -> Result<Report, AllocError>
    ensures status { IfOk result (λ report. report.status ≡ status_of_failure failure) }
    ensures no_answer { IfOk result (λ report.
        report.status ≢ Status.Clean → string_bytes report.answer ≡ []) }
    ensures help { IfOk result (λ report.
        IsAnswerStatus report.status → (string_bytes report.notes ≡ []) × (report.status ≡ Status.Clean)) }
    ensures notes { IfOk result (λ report. IsFailureText failure (string_bytes report.notes)) }
    ensures told { IfOk result (λ report. report.status ≢ Status.OutOfMemory) }
{
    match failure {
        Failure::Words(WordsFault::Help(text)) => Ok(Report::clean(alloc, text)),
        Failure::Words(WordsFault::Refused(text)) => Ok(Report::refusal(alloc, text)),
        Failure::CannotRead(name) => Ok(Report::refusal(alloc, unreadable(alloc, &name)?)),
        Failure::CannotWrite(notes, path) => {
            Ok(Report::refusal(alloc, unwritten(alloc, &notes, &path)?))
        }
        Failure::Untold => Ok(Report::refusal(alloc, String::new(alloc))),
        Failure::NoRecord(key) => Ok(Report::refusal(alloc, no_record(alloc, &key)?)),
        Failure::UnknownCode(code) => Ok(Report::refusal(alloc, unknown_text(alloc, &code)?)),
        Failure::Project(fault) => Ok(Report::refusal(alloc, refusal_text(alloc, fault)?)),
        Failure::Chain(fault) => Ok(Report::chain_refusal(alloc, chain_refusal(alloc, fault)?)),
        Failure::SessionFile(fault) => Ok(Report::refusal(alloc, file_refusal(alloc, fault)?)),
        Failure::Words(WordsFault::OutOfMemory) | Failure::OutOfMemory => Err(AllocError),
    }
}

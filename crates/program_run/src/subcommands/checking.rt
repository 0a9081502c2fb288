//! The check of a project over a cache.
ghost use Rattle.std.specs.Prelude.{◌≡◌, ◌≤◌, IfOk, IfErr, map, string_bytes};
ghost use Rattle.named_files.specs.Projects.{names_of};
ghost use Rattle.command_line.specs.Runnable.{IsCheckable};
ghost use Rattle.program_run.specs.Checks.{ChecksAsked, ChecksTo};
ghost use Rattle.program_run.specs.Failures.{CheckFails};
ghost use Rattle.program_run.specs.Unread.{AreReadSources};

use crate::failure::Failure;
use crate::files::read_files;
use crate::report::Report;
use crate::terms::{form_of, profile_of};
use command_line::CheckWords;
use commands::{Beginning, begin, next_session, session_texts};
use mj_rules::Project;
use session_cache::{CacheWriteFault, write_file};
use sessions::{Terms, share};
use std::mem::forget;
use std::rt::Files;
use std::sync::Wait;
use std::thread::Threads;

/// The options of a check, but for its cache.
#[derive(Clone, Copy)]
struct CheckOptions {
    /// The terms of its session.
    terms: Terms,
    /// Whether a diagnostic's line has its sentence.
    messages: bool,
    /// How many workers run the queries.
    jobs: usize,
}

/// The report on a check of these files over the cache, by the session of these terms that follows the last one there,
/// whose workers are threads. All of it is made before the session's file is written.
pub(crate) fn check<R: Files + AllocGlobal, T: Threads + Wait + Sync>(
    rt: &R,
    threads: &T,
    asked: CheckWords,
) -> Result<Report, Failure>
    requires { IsCheckable asked }
    ensures reports { IfOk result (ChecksAsked R.File.Read.remaining asked) }
    ensures failed { IfErr result (CheckFails R.File.Read.remaining (string_bytes asked.cache)
        (map string_bytes asked.files.items)) }
{
    let CheckWords {
        cache,
        jobs,
        profile,
        form,
        messages,
        files,
    } = asked;
    let project = Project::new(rt.alloc(), read_files(rt, files)?)?;
    let terms = Terms {
        profile: profile_of(profile),
        form: form_of(form),
    };
    let options = CheckOptions {
        terms,
        messages,
        jobs,
    };
    check_project(rt, threads, &project, cache.as_str(), options)
}

// The report on a check of the project over the cache of this folder. If its session isn't kept, the notes stand in
// front of what can't be written.
fn check_project<R: Files + AllocGlobal, T: Threads + Wait + Sync>(
    rt: &R,
    threads: &T,
    project: &Project,
    cache: &str,
    options: CheckOptions,
) -> Result<Report, Failure>
    requires some { 1 ≤ options.jobs }
    requires most { options.jobs ≤ 64 }
    requires read { AreReadSources R.File.Read.remaining project.now }
    ensures reports { IfOk result (ChecksTo R.File.Read.remaining options.terms options.messages
        cache.now (names_of project.now)) }
    ensures failed { IfErr result
        (CheckFails R.File.Read.remaining cache.now (names_of project.now)) }
{
    let alloc = rt.alloc();
    let CheckOptions {
        terms,
        messages,
        jobs,
    } = options;
    let Beginning { past, place, notes } = begin(rt, threads, cache, jobs)?;
    let Some(place) = place else {
        return Err(Failure::CannotWrite(notes, String::from_str(alloc, cache)?));
    };
    let followed = share(&past)?;
    let session = next_session(threads, alloc, past, project, terms, jobs)?;
    let texts = session_texts(alloc, project, messages, notes.as_str(), &session)?;
    match write_file(rt, threads, cache, place, &session, jobs) {
        Ok(()) => {}
        Err(CacheWriteFault::CannotWrite(path)) => return Err(Failure::CannotWrite(notes, path)),
        Err(CacheWriteFault::OutOfMemory) => return Err(Failure::OutOfMemory),
    }
    // (the run ends here: the memory of both sessions is left to the system, which frees all of it at once)
    forget(session);
    forget(followed);
    Ok(Report::on_answer(texts))
}

//! The check of a project over a previous session.
ghost use Rattle.std.specs.Prelude.{◌≡◌, ◌<◌, IfOk, IfErr, IfSome};
ghost use Rattle.sessions.specs.Sessions.{most_number, session_in};
ghost use Rattle.sessions.specs.Spelling.{file_of};
ghost use Rattle.linkable.specs.Checking.{RefusesCheck, TellsCheck, TellsMade, TellsSession, given};
ghost use Rattle.linkable.specs.Stopping.{Says};
ghost use Rattle.linkable.specs.Telling.{session_told_of};

use crate::past::past_in;
use crate::projects::project_in;
use crate::stopping::Stop;
use crate::terms::{form_of, profile_of};
use crate::told::{Told, ToldSession};
use commands::{next_session_alone, session_texts};
use devices::MemorySink;
use named_files::Project;
use session_file::write;
use sessions::{Session, Terms};
use std::alloc::{AllocError, Global};
use std::sync::Arc;

/// What is reported of the files that these bytes are, checked over the past.
pub(crate) fn check(
    alloc: Global,
    files: &[u8],
    past: &[u8],
    profile: u32,
    form: u32,
    messages: bool,
) -> Result<ToldSession, AllocError>
    ensures { IfOk result (λ told. TellsCheck (given files.now past.now profile form) messages
        (session_told_of told)) }
{
    match make(alloc, files, past, profile, form, messages) {
        Ok(told) => Ok(told),
        Err(Stop::Refused(line)) => Ok(ToldSession::refusal(alloc, line)),
        Err(Stop::OutOfMemory) => Err(AllocError),
    }
}

// The session of the files that these bytes are over the past, and its texts.
#[tactic(auto, using(crate::proofs::Tells::refused_profile, crate::proofs::Tells::refused_form, crate::proofs::Tells::refused_project, crate::proofs::Tells::refused_past))]
fn make(
    alloc: Global,
    files: &[u8],
    past: &[u8],
    profile: u32,
    form: u32,
    messages: bool,
) -> Result<ToldSession, Stop>
    ensures made { IfOk result (λ told. TellsMade (given files.now past.now profile form) messages
        (session_told_of told)) }
    ensures refused { IfErr result (Says (RefusesCheck (given files.now past.now profile form))) }
{
    let profile = match profile_of(alloc, profile) {
        Ok(profile) => profile,
        Err(stop) => return Err(stop),
    };
    let form = match form_of(alloc, form) {
        Ok(form) => form,
        Err(stop) => return Err(stop),
    };
    let project = match project_in(alloc, files) {
        Ok(project) => project,
        Err(stop) => return Err(stop),
    };
    let past = match past_in(alloc, past) {
        Ok(past) => past,
        Err(stop) => return Err(stop),
    };
    let terms = Terms { profile, form };
    Ok(make_session(alloc, &project, past, terms, messages)?)
}

// The session of a project over the previous one, and its texts.
fn make_session(
    alloc: Global,
    project: &Project,
    past: Option<Arc<Session>>,
    terms: Terms,
    messages: bool,
) -> Result<ToldSession, AllocError>
    requires { IfSome (session_in past) (λ s. s.number < most_number) }
    ensures { IfOk result (λ told.
        TellsSession terms messages project.now (session_in past) (session_told_of told)) }
{
    let Ok(session) = next_session_alone(alloc, past, project, terms) else {
        return Err(AllocError);
    };
    let texts = session_texts(alloc, project, messages, "", &session)?;
    let file = file_in_memory(alloc, &session)?;
    Ok(ToldSession {
        file,
        texts: Told::on_answer(texts),
    })
}

// The bytes of a session's file.
fn file_in_memory(alloc: Global, session: &Session) -> Result<MemorySink, AllocError>
    ensures { IfOk result (λ file. file.bytes.items ≡ file_of session.now) }
{
    let mut file = MemorySink::new(alloc);
    match write(session, &mut file) {
        Ok(()) => Ok(file),
        Err(_) => Err(AllocError),
    }
}

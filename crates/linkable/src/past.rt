//! The previous session, from the files of its chain.
ghost use Rattle.std.specs.Prelude.{◌≡◌, ◌≢◌, ◌<◌, Ok, IfOk, OnOk, IfErr, IfSome, map, string_bytes};
ghost use Rattle.std.specs.Option.{option_copied};
ghost use Rattle.session_file.specs.Reading.{file_after};
ghost use Rattle.std.specs.Arc.{arc_value};
ghost use Rattle.session_text.specs.FaultWords.{fault_words};
ghost use Rattle.sessions.specs.Sessions.{IsSession, IsTakenFrom, most_number, session_in};
ghost use Rattle.sessions.specs.Spelling.{file_of};
ghost use Rattle.linkable.specs.Chains.{file_line};
ghost use Rattle.linkable.specs.Past.{EndWith, IsNoPastIn, IsNoSession, IsPastIn};
ghost use Rattle.linkable.specs.PastSteps.{IsLast, IsMisnumbered, IsNoFile, IsNumbered, IsUnread};
ghost use Rattle.linkable.specs.Stopping.{Says};

use crate::chains::{file_text, files_in};
use crate::stopping::Stop;
use session_file::{FileFault, read_after};
use session_text::write_fault;
use sessions::Session;
use std::alloc::{AllocError, Global};
use std::sync::Arc;

/// The session of the last of the files that these bytes are, if there are any, each read over the one before, whose
/// number it follows. One can follow it.
pub(crate) fn past_in(alloc: Global, bytes: &[u8]) -> Result<Option<Arc<Session>>, Stop>
    ensures past { IfOk result (λ past. IsPastIn bytes.now (session_in past)) }
    ensures room { IfOk result (λ past. IfSome (session_in past) (λ s. s.number < most_number)) }
    ensures refused { IfErr result (Says (IsNoPastIn bytes.now)) }
{
    let files = match files_in(alloc, bytes) {
        Ok(files) => files,
        Err(stop) => return Err(stop),
    };
    let session = match last_session(alloc, files.as_slice()) {
        Ok(Some(session)) => session,
        Ok(None) => return Ok(None),
        Err(stop) => return Err(stop),
    };
    match share(alloc, session, files.len() - 1) {
        Ok(past) => Ok(Some(past)),
        Err(stop) => Err(stop),
    }
}

// The session of the last of these files, if there are any.
fn last_session(alloc: Global, files: &[&[u8]]) -> Result<Option<Session>, Stop>
    ensures end { IfOk result (EndWith (map (λ f. f.now) files.now)) }
    ensures refused { IfErr result (Says (IsNoSession (map (λ f. f.now) files.now))) }
{
    let mut past = None;
    for number in 0..files.len() {
        match read_behind(alloc, past, number, files[number]) {
            Ok(session) => past = Some(session),
            Err(stop) => return Err(stop),
        }
    }
    Ok(past)
}

// The session whose file these bytes are, the one of this number, over the previous one, whose number it follows.
#[tactic(auto, using(crate::proofs::PastRules::no_file, crate::proofs::PastRules::other_number))]
fn read_behind(
    alloc: Global,
    past: Option<Session>,
    number: usize,
    bytes: &[u8],
) -> Result<Session, Stop>
    ensures session { IfOk result IsSession }
    ensures taken { IfOk result (IsTakenFrom past) }
    ensures numbered { IfOk result (IsNumbered past) }
    ensures file { IfOk result (λ s. bytes.now ≡ file_of s) }
    ensures refused { IfErr result (Says (IsUnread past bytes.now number)) }
{
    let session = match read_file(alloc, past.as_ref(), number, bytes) {
        Ok(session) => session,
        Err(stop) => return Err(stop),
    };
    match check_number(alloc, past.as_ref(), number, &session) {
        Ok(()) => Ok(session),
        Err(stop) => Err(stop),
    }
}

// The session whose file these bytes are, the one of this number, over the previous one.
#[tactic(auto, using(crate::proofs::PastRules::breach_is))]
fn read_file(
    alloc: Global,
    past: Option<&Session>,
    number: usize,
    bytes: &[u8],
) -> Result<Session, Stop>
    ensures session { IfOk result IsSession }
    ensures taken { IfOk result (IsTakenFrom (option_copied past.entry)) }
    ensures file { IfOk result (λ s. bytes.now ≡ file_of s) }
    ensures reads { IfOk result (λ s. file_after (option_copied past.entry) bytes.now ≡ Ok s) }
    ensures refused { IfErr result (Says (IsNoFile (option_copied past.entry) bytes.now number)) }
{
    match read_after(alloc, past, bytes) {
        Ok(session) => Ok(session),
        Err(fault) => Err(Stop::Refused(fault_text(alloc, number, fault)?)),
    }
}

// Refuses the session of the file of this number if its own number doesn't follow the previous one's.
fn check_number(
    alloc: Global,
    past: Option<&Session>,
    number: usize,
    session: &Session,
) -> Result<(), Stop>
    ensures numbered { OnOk result (IsNumbered (option_copied past.entry) session.now) }
    ensures refused { IfErr result
        (Says (IsMisnumbered (option_copied past.entry) session.now number)) }
{
    let Some(past) = past else {
        return Ok(());
    };
    let (before, now) = (past.number(), session.number());
    if before < now && now - before == 1 {
        return Ok(());
    }
    Err(Stop::Refused(file_text(alloc, number, "number")?))
}

// What is said of the file of this number, which is that of no session. Out of memory has no text.
fn fault_text(alloc: Global, number: usize, fault: FileFault) -> Result<String, AllocError>
    ensures text { IfOk result (λ text.
        string_bytes text ≡ file_line number (fault_words fault)) }
    ensures other { IfOk result (λ _. fault ≢ FileFault.OutOfMemory) }
{
    let mut words = String::new(alloc);
    write_fault(&mut words, fault)?;
    file_text(alloc, number, words.as_str())
}

// The session of the file of this number, if one can follow it.
fn share(alloc: Global, session: Session, number: usize) -> Result<Arc<Session>, Stop>
    ensures same { IfOk result (λ shared. arc_value shared ≡ session) }
    ensures room { IfOk result (λ shared. (arc_value shared).number < most_number) }
    ensures refused { IfErr result (Says (IsLast session number)) }
{
    if session.number() >= Session::MOST {
        return Err(Stop::Refused(file_text(alloc, number, "full")?));
    }
    Ok(Arc::new(alloc, session)?)
}

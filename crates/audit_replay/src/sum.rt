//! What is kept of the sessions that were audited.
ghost use Rattle.std.specs.Prelude.{◌≡◌, ◌↔◌, None, Some, IfOk, IsTrue, map, option_map};
ghost use Rattle.std.specs.Arc.{arc_value};
ghost use Rattle.std.specs.Option.{option_copied};
ghost use Rattle.sessions.specs.Sessions.{entry_at};
ghost use Rattle.audit_graph.specs.Sources.{HasSources};
ghost use Rattle.named_files.specs.Projects.{IsProject};
ghost use Rattle.audit_replay.specs.Projects.{HasFilesAlike};
ghost use Rattle.audit_replay.specs.Sums.{IsAnswer, KeepsSession};

pub(crate) mod answer;
pub(crate) mod files;

use crate::sum::answer::answer_of;
use crate::sum::files::{are_files_of, texts_in};
use fingerprint::Sealed;
use named_files::Project;
use profiles::Profile;
use sessions::Session;
use std::alloc::{AllocError, Global};
use std::sync::Arc;

/// How many sessions there are and records were run, and what is kept of the last session.
#[derive(Drop)]
pub(crate) struct Sum {
    pub(crate) count: usize,
    pub(crate) runs: u128,
    pub(crate) last: Option<LastSession>,
}

/// A session, with the results of its sources, in the order of its files, and its answer.
#[derive(Drop)]
pub(crate) struct LastSession {
    session: Session,
    texts: Vec<Arc<Sealed>>,
    answer: Option<Arc<Sealed>>,
}

impl Sum {
    /// The session that the next one is read and audited over.
    pub(crate) fn session(&self) -> Option<&Session>
        ensures { option_copied result ≡ option_map (λ last. last.session) self.now.last }
    {
        match &self.last {
            Some(last) => Some(&last.session),
            None => None,
        }
    }
}

impl LastSession {
    /// What is kept of a session that holds the files of a project.
    pub(crate) fn of(alloc: Global, session: Session) -> Result<Self, AllocError>
        requires { HasSources (entry_at session) }
        ensures { IfOk result (λ last. KeepsSession last session) }
    {
        let answer = shared_answer(&session)?;
        let texts = texts_in(alloc, &session)?;
        Ok(LastSession {
            session,
            texts,
            answer,
        })
    }

    /// Its profile.
    pub(crate) fn profile(&self) -> Profile
        ensures { result ≡ self.now.session.terms.profile }
    {
        self.session.terms().profile
    }

    /// Whether its files are those of the project.
    pub(crate) fn has_files_of(&self, project: &Project) -> bool
        ensures same { IsTrue result ↔ HasFilesAlike (entry_at self.now.session)
            (map arc_value self.now.texts.items) project.now }
        ensures project { IsProject project.now }
    {
        are_files_of(&self.session, self.texts.as_slice(), project)
    }

    /// Its answer.
    pub(crate) fn into_answer(self) -> Option<Arc<Sealed>>
        ensures { result ≡ self.answer }
    {
        let LastSession { answer, .. } = self;
        answer
    }
}

/// One more owner of the session's answer.
fn shared_answer(session: &Session) -> Result<Option<Arc<Sealed>>, AllocError>
    ensures { IfOk result (IsAnswer session.now) }
{
    match answer_of(session) {
        Some(answer) => Ok(Some(Arc::try_clone(answer)?)),
        None => Ok(None),
    }
}

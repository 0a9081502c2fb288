//! What a call reports to its caller.
ghost use Rattle.std.specs.Prelude.{◌≡◌, string_bytes};
ghost use Rattle.linkable.specs.Telling.{answer_status, answer_telling, chain_refusal, chain_telling, ending_status, no_session, refusal, session_told_of, told_of};

use commands::{AnswerTexts, AuditTexts};
use devices::MemorySink;
use std::alloc::Global;

/// How a call that has texts ends.
#[derive(Clone, Copy)]
pub(crate) enum Ending {
    /// There is no diagnostic, or the chain is accepted.
    Clean,
    /// The answer has diagnostics.
    Diagnostics,
    /// There is no answer.
    Refused,
    /// The chain is refused.
    ChainRefused,
}

impl Ending {
    /// The end of a call with an answer, which has a diagnostic or none.
    fn of_answer(clean: bool) -> Ending
        ensures { ending_status result ≡ answer_status clean }
    {
        if clean {
            Ending::Clean
        } else {
            Ending::Diagnostics
        }
    }

    /// The status.
    pub(crate) fn status(self) -> u32
        ensures { result ≡ ending_status self }
    {
        match self {
            Ending::Clean => 0,
            Ending::Diagnostics => 1,
            Ending::Refused => 2,
            Ending::ChainRefused => 3,
        }
    }
}

/// The texts of a call, and how it ends.
#[derive(Drop)]
pub(crate) struct Told {
    /// The text for `out`.
    pub answer: String,
    /// The text for `err`.
    pub notes: String,
    pub ending: Ending,
}

impl Told {
    /// An answer.
    pub(crate) fn on_answer(texts: AnswerTexts) -> Told
        ensures { told_of result ≡ answer_telling texts }
    {
        let AnswerTexts {
            notes,
            answer,
            clean,
        } = texts;
        Told {
            answer,
            notes,
            ending: Ending::of_answer(clean),
        }
    }

    /// An accepted chain.
    pub(crate) fn on_chain(texts: AuditTexts) -> Told
        ensures { told_of result ≡ chain_telling texts }
    {
        let AuditTexts { notes, answer } = texts;
        Told {
            answer,
            notes,
            ending: Ending::Clean,
        }
    }

    /// Why there is no answer.
    pub(crate) fn refusal(alloc: Global, notes: String) -> Told
        ensures { told_of result ≡ refusal (string_bytes notes) }
    {
        Told {
            answer: String::new(alloc),
            notes,
            ending: Ending::Refused,
        }
    }

    /// Why a chain is refused.
    pub(crate) fn chain_refusal(alloc: Global, notes: String) -> Told
        ensures { told_of result ≡ chain_refusal (string_bytes notes) }
    {
        Told {
            answer: String::new(alloc),
            notes,
            ending: Ending::ChainRefused,
        }
    }
}

/// The file of a session, and the texts of the call that made it.
#[derive(Drop)]
pub(crate) struct ToldSession {
    /// The bytes for `session`.
    pub file: MemorySink,
    pub texts: Told,
}

impl ToldSession {
    /// Why there is no session.
    pub(crate) fn refusal(alloc: Global, notes: String) -> ToldSession
        ensures { session_told_of result ≡ no_session (refusal (string_bytes notes)) }
    {
        ToldSession {
            file: MemorySink::new(alloc),
            texts: Told::refusal(alloc, notes),
        }
    }
}

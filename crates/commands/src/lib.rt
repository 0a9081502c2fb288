//! What the commands do, but for reading words and writing files: one check over a cache, from where the next session begins to
//! the answer that it records; and what is written of checks, audits and projects without a session, and of what is refused.
#![tactic(auto)]

mod answer;
mod auditing;
mod beginning;
mod chain_refusals;
mod checking;
mod laws;
mod next;
mod refusals;
mod scratching;
mod texts;
mod words;

pub use answer::answer_in;
pub use auditing::{AuditTexts, accepted_texts};
pub use beginning::{Beginning, begin};
pub use chain_refusals::chain_refusal;
pub use checking::session_texts;
pub use laws::first_stands_apart;
pub use next::{next_session, next_session_alone};
pub use refusals::refusal_text;
pub use scratching::scratch_texts;
pub use texts::AnswerTexts;
pub use words::{counts_text, summary_text};

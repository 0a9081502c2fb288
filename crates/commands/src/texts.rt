//! The texts of an answer.

/// The texts of an answer, and whether it has no diagnostic.
#[derive(Drop)]
pub struct AnswerTexts {
    /// What is written of its diagnostics.
    pub notes: String,
    /// The text of the answer.
    pub answer: String,
    /// It has no diagnostic.
    pub clean: bool,
}

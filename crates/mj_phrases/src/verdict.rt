//! Verdicts on phrases.
use mj_answer::Code;
use mj_tree::Ty;

/// The verdict on a phrase.
#[derive(Drop)]
pub enum Verdict {
    /// The expression has this type.
    Is(Ty),
    /// The statement's demands hold.
    Fine,
    /// A demand fails; the first that does has this code.
    Wrong(Code),
    /// The phrase doesn't have these parts.
    Silent,
}

/// A mistake in a body: the mark of a phrase and what is wrong with it.
#[derive(Clone, Copy, Debug, PartialEq, Eq)]
pub struct Mistake {
    pub mark: usize,
    pub code: Code,
}

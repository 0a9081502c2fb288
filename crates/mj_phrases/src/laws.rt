//! Laws of the definitions.
ghost use Rattle.mj_phrases.specs.Laws.{TypingLaws, RowLaws, CaseLaws};

/// What a check computes is the judgement, and a phrase has one type at most.
pub fn typing_laws()
    ensures { TypingLaws }
{}

/// Given as many types as its phrase has parts, each row of the table has a verdict.
pub fn row_laws()
    ensures { RowLaws }
{}

/// The table of phrases is the judgement by cases, and a body without mistakes is well typed by it.
pub fn case_laws()
    ensures { CaseLaws }
{}

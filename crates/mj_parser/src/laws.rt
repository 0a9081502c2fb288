//! Laws of the grammar.
ghost use Rattle.mj_expressions.specs.Tokens.{StandsLaw};
ghost use Rattle.mj_parser.specs.Laws.{GrammarLaws, MarkLaws};

/// A list of tokens is a file exactly if reading it finds that file; reading tests what stands at a place.
pub fn grammar_laws()
    ensures grammar { GrammarLaws }
    ensures stands { StandsLaw }
{}

/// Every mark of a file's tree is less than the number of its tokens.
pub fn mark_laws()
    ensures { MarkLaws }
{}

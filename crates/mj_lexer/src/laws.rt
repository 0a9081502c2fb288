//! Laws of the definitions that contracts cite.
ghost use Rattle.std.specs.Prelude.{◌≡◌, ◌↔◌, List, Some, IsSome, IsNone};
ghost use Rattle.mj_lexer.specs.declared.token.Token.{Token};
ghost use Rattle.mj_lexer.specs.declared.front.Front.{Front};
ghost use Rattle.mj_lexer.specs.declared.lexer.LexFault.{LexFault};
ghost use Rattle.mj_lexer.specs.Fronts.{front_of};
ghost use Rattle.mj_lexer.specs.Pieces.{StandsInFront};
ghost use Rattle.mj_lexer.specs.Lexes.{Lexes, Breaks};
ghost use Rattle.mj_lexer.specs.Lexing.{tokens_of, lex_fault_of};

/// The tokens or the error that are computed are those that the text is cut into, or breaks by; each text has one or
/// the other.
pub fn lexing_laws(text: &[u8])
    ensures tokens { (tokens : List Token)
        → Lexes text.now tokens ↔ (tokens_of text.now ≡ Some tokens) }
    ensures fault { (fault : LexFault) → Breaks text.now fault ↔ (lex_fault_of text.now ≡ Some fault) }
    ensures one { IsSome (tokens_of text.now) ↔ IsNone (lex_fault_of text.now) }
{}

/// What is read at the front of a text is what stands there and nothing else: the longest piece, or what is wrong.
pub fn front_laws(text: &[u8])
    ensures stands { StandsInFront text.now (front_of text.now) }
    ensures only { (front : Front) → StandsInFront text.now front → front ≡ front_of text.now }
{}

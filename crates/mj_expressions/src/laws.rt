//! Laws of reading expressions.
ghost use Rattle.mj_expressions.specs.Tokens.{StandsLaw};
ghost use Rattle.mj_expressions.specs.Laws.{ExpressionLaw};

/// Up to what closes it, reading finds just the expression that the grammar has there; reading tests what stands at a
/// place.
pub fn expression_laws()
    ensures expressions { ExpressionLaw }
    ensures stands { StandsLaw }
{}

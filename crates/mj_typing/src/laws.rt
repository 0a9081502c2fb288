//! Laws of the definitions.
ghost use Rattle.mj_typing.specs.Laws.{BodyLaws};

/// The lists of mistakes have each mistake and no other, and a check that asks concludes with them.
pub fn body_laws()
    ensures { BodyLaws }
{}

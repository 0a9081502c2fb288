//! Laws of the definitions.
ghost use Rattle.mj_classes.specs.Laws.{ChainLaws, AcceptanceLaws, MemberLaws};

/// A declared class has one chain, and no other name has any.
pub fn chain_laws()
    ensures { ChainLaws }
{}

/// Acceptance of types is an order, cycles aside.
pub fn acceptance_laws()
    ensures { AcceptanceLaws }
{}

/// The look-ups of members find the nearest declarations, and the tables have all of these.
pub fn member_laws()
    ensures { MemberLaws }
{}

//! Laws of the query.
ghost use Rattle.body_query.specs.Bounds.{BoundsLaw};
ghost use Rattle.body_query.specs.Laws.{BodyTies};

/// In every profile and project the program of a body's mistakes gives the value of the query and asks what it reads;
/// whatever the answers, it asks keys of lower rank and gives diagnostics.
pub fn body_ties()
    ensures { BodyTies }
{}

/// In a project the diagnostics of a body have their exact places: nothing saturates.
pub fn bounds_law()
    ensures { BoundsLaw }
{}

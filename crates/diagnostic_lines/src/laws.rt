//! Laws of the definitions.
ghost use Rattle.diagnostic_lines.specs.Excerpts.{MarkLaw};

/// The mark stands below the byte that stands at the place.
pub fn mark_laws()
    ensures { MarkLaw }
{}

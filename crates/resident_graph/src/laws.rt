//! What a graph says whose places are settled.
ghost use Rattle.resident_graph.specs.Places.{MeantBelow};

/// If no place below a rank is queued, the values of these places are what their keys mean in the project of now.
pub fn settled_below_is_meant()
    ensures { MeantBelow }
{}

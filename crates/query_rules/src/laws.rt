//! Laws of meanings and reads.
ghost use Rattle.query_rules.specs.Laws.{QueryLaws};

/// In each profile the inputs are the files and read nothing, and each key has a value of its kind and reads keys of lower
/// rank, none twice.
pub fn query_laws()
    ensures { QueryLaws }
{}

//! Laws of the definitions.
ghost use Rattle.mj_rules.specs.Laws.{SentenceLaw, ProjectFaultLaw, ClassFaultLaw, WorldLaw, AnswerLaw};

/// The tree that is computed for bytes is the one that they are a sentence of.
pub fn sentence_laws()
    ensures { SentenceLaw }
{}

/// The computed list of a project's diagnostics has those of the rows and no other.
pub fn project_fault_laws()
    ensures { ProjectFaultLaw }
{}

/// The computed list of a class's diagnostics has those of the rows and no other.
pub fn class_fault_laws()
    ensures { ClassFaultLaw }
{}

/// The answers that the check of a body gets about declarations agree with the chains, the accepted types and the
/// members.
pub fn world_laws()
    ensures { WorldLaw }
{}

/// The computed answer is the only one that the rules give.
pub fn answer_laws()
    ensures { AnswerLaw }
{}

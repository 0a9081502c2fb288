//! Laws of meanings and of reads.
ghost use Rattle.profiles.specs.declared.profile.Profile.{Profile};
ghost use Rattle.recorder.specs.Projects.{Project};
ghost use Rattle.query_laws.specs.Laws.{DeclarationLaw, DemandLaw, MeanLaws, QueryReadLaws};

/// The class of a name that counts is the first one in the first file that is a sentence and declares the name.
pub fn declaration_laws()
    ensures { DeclarationLaw }
{}

/// In each profile each query above the inputs means what the rules give, and nothing else: a tree, the classes with their files, a
/// declaration, a method and its types, a chain, members, the diagnostics in and outside of methods, the answer.
pub fn mean_laws()
    ensures { (profile : Profile) (p : Project) → MeanLaws profile p }
{}

/// The check of a body finds just the diagnostics of its formals, its locals and its return type, and those that the
/// demands of its phrases give.
pub fn demand_laws()
    ensures { DemandLaw }
{}

/// Each query reads the keys that it asks, and each run those that its program asks: none is lost, each is read once, in
/// the order in which they are asked first.
pub fn read_laws()
    ensures { QueryReadLaws }
{}

//! Laws of the spots at which classes are declared.
ghost use Rattle.declaration_laws.specs.Laws.{EditLaw, IndexLaw, RepeatLaw, LaterClassLaw, LaterMainLaw, AnswerLaw};

/// The spots of a name are those in the files before one, in it and after it. So an edit of a file changes those of the names alone
/// that the file declares, before or after the edit.
pub fn edits_change_their_own_names()
    ensures { EditLaw }
{}

/// The index has for a class the file of its first spot, and no row if there is none.
pub fn index_is_by_first_spots()
    ensures { IndexLaw }
{}

/// An earlier class has the name of a class exactly if the class isn't at the first spot of its name.
pub fn later_spots_are_repeated()
    ensures { RepeatLaw }
{}

/// E104 comes just at the classes that aren't declared at the first spot of their names.
pub fn later_classes_are_faults()
    ensures { LaterClassLaw }
{}

/// E103 comes just at the files with a main class but the first of them.
pub fn later_mains_are_faults()
    ensures { LaterMainLaw }
{}

/// The answer asks the trees, the index, and the parts of the classes that the index has.
pub fn answer_asks_of_rows()
    ensures { AnswerLaw }
{}

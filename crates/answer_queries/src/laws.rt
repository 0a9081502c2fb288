//! Laws of the queries: in every profile and project the program of each gives the value of the query and asks what it
//! reads; whatever the answers, it asks keys of lower rank and gives a value of the kind.
ghost use Rattle.answer_queries.specs.Laws.{CheckClassTies, ClassBounds, AnswerTies, ProjectBounds};

/// The diagnostics of a class's declarations.
pub fn check_class_ties()
    ensures { CheckClassTies }
{}

/// In a project the diagnostics of a class's declarations have their exact places: nothing saturates.
pub fn class_bounds()
    ensures { ClassBounds }
{}

/// The answer for the project, which is that of the rules.
pub fn answer_ties()
    ensures { AnswerTies }
{}

/// The diagnostics of a project that stand in no class have their exact places: nothing saturates.
pub fn project_bounds()
    ensures { ProjectBounds }
{}

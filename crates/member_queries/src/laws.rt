//! Laws of the queries: in every profile and project the program of each kind gives the value of the query and asks what
//! it reads; whatever the answers, it asks keys of lower rank and gives a value of the kind.
ghost use Rattle.member_queries.specs.Laws.{SupersTies, MembersTies, DiagsTies};

/// The chain of a class.
pub fn supers_ties()
    ensures { SupersTies }
{}

/// The fields and methods of a class.
pub fn members_ties()
    ensures { MembersTies }
{}

/// All diagnostics of a class.
pub fn diags_ties()
    ensures { DiagsTies }
{}

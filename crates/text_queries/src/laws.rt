//! Laws of the queries.
ghost use Rattle.text_queries.specs.Laws.{TreeTies, IndexTies, SigTies, HeaderTies, MethodTies};

/// In every profile and project the program of a file's tree gives the value of the query and asks what it reads;
/// whatever the answers, it asks keys of lower rank and gives a tree or none.
pub fn tree_ties()
    ensures { TreeTies }
{}

/// The same of the program of the index.
pub fn index_ties()
    ensures { IndexTies }
{}

/// The same of the program of a method's types.
pub fn sig_ties()
    ensures { SigTies }
{}

/// The same of the program of a class's header.
pub fn header_ties()
    ensures { HeaderTies }
{}

/// The same of the program of a method.
pub fn method_ties()
    ensures { MethodTies }
{}

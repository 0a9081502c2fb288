//! Laws of kept results, by the kind of the query.
ghost use Rattle.kept_laws.specs.Laws.{HeaderKept, MethodKept, IndexKept, SupersKept, AnswerKept, TestsDecide, ResultsKept};
ghost use Rattle.result_bytes.specs.declared.value.Value.{Value};

/// A header is kept by two indexes that have the same row for its class.
pub fn header_is_kept()
    ensures { HeaderKept }
{}

/// So is a method.
pub fn method_is_kept()
    ensures { MethodKept }
{}

/// The index is kept by two trees of a file that declare the same.
pub fn index_is_kept()
    ensures { IndexKept }
{}

/// A chain is kept by two indexes that have the same of its classes, and of the undeclared name at its end.
pub fn supers_are_kept()
    ensures { SupersKept }
{}

/// The answer is kept by two trees of a file that declare the same.
pub fn answer_is_kept()
    ensures { AnswerKept }
{}

/// The tests hold exactly of results with the same parts.
pub fn tests_decide()
    ensures { (a b : Value) → TestsDecide a b }
{}

/// In each profile a result that the test calls kept is kept by each run of its query's program.
pub fn kept_results_follow()
    ensures { ResultsKept }
{}

//! Which parts of results the queries of MiniJava take, and which of their results are kept, though a value that they read
//! changes.
#![tactic(auto)]

mod laws;

pub use laws::{
    answer_is_kept, header_is_kept, index_is_kept, kept_results_follow, method_is_kept,
    supers_are_kept, tests_decide,
};

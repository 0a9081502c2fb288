//! Where classes are declared, by their names: what an edit of one file leaves of it, and what the index, the reads of the answer
//! and the diagnostics of repeated classes and main classes are by it.
#![tactic(auto)]

mod laws;

pub use laws::{
    answer_asks_of_rows, edits_change_their_own_names, index_is_by_first_spots,
    later_classes_are_faults, later_mains_are_faults, later_spots_are_repeated,
};

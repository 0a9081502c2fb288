//! Sessions by several workers, for tests: of projects made from short texts, with runs that wait for one another, runs
//! that are counted, and workers one of whom fails or is refused memory.
#![tactic(auto)]

mod ends;
mod files;
mod hooks;
mod large;
mod making;
mod pairs;
mod runs;
mod seats;
mod workers;

pub use ends::gates_are_called_once;
pub use files::File;
pub use hooks::Meeting;
pub use large::{chain, one_body};
pub use making::{
    BothTerms, Edit, Made, made_by, made_of_empty_classes, made_while_held, workers_meet,
};
pub use pairs::seats_meet;
pub use runs::{Runs, Steps, digest_by, fault_of_failing, runs_in, runs_of};
pub use seats::{all_stop, fellows_stop};
pub use workers::{fault_of_worker, run_again};

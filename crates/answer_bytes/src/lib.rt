//! Tables, diagnostics and answers as bytes, each list in its order.
#![tactic(auto)]

mod answer;
mod faults;
mod rows;

pub use answer::{
    Faults, Members, MembersFormat, WholeAnswer, put_answer, put_faults, read_answer, read_faults,
};

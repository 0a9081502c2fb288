//! The static rules of MiniJava over a whole project, and the checker that follows them from scratch.
#![tactic(auto)]

mod body_faults;
mod checker;
mod declaration_faults;
mod laws;
mod project_faults;
mod reading;
mod tables;
mod world;

pub use checker::{answer_for, answer_for_as, scratch, scratch_as};
pub use declaration_faults::{repeated_fields, same_type};
pub use laws::{answer_laws, class_fault_laws, project_fault_laws, sentence_laws, world_laws};
pub use mj_answer::{
    Answer, ClassAnswer, ClassTable, Code, Diagnostic, FieldRow, MethodRow, render,
};
pub use named_files::{Project, ProjectFault};
pub use profiles::Profile;
pub use reading::read_file;
pub use tables::field_row;

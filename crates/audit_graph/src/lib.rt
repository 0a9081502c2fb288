//! The first half of the audit of a chain of sessions: what is checked of a session without running a query.
#![tactic(auto)]

mod fault;
mod greens;
mod laws;
mod past;
mod places;
mod plan;
mod sources;
mod step;

pub use fault::AuditFault;
pub use laws::{
    before_has_lower, front_is_meant, no_past_is_meant, one_project, plan_tells, step_is_right,
};
pub use past::Past;
pub use plan::Plan;
pub use sources::file_names;
pub use step::check_step;

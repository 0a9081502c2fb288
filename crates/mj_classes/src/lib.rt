//! The classes that a project declares, their chains and their members.
#![tactic(auto)]

mod chain;
mod declarations;
mod laws;
mod lookup;
mod steps;

pub use chain::{ClassChain, End};
pub use declarations::Declarations;
pub use laws::{acceptance_laws, chain_laws, member_laws};
pub use mj_members::{
    AnyClassTree, ClassRef, FieldMember, MethodMember, field_table, field_table_over, method_table,
    method_table_over,
};

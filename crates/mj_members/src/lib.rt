//! A class as it is declared, and the members that classes declare, in tables by name.
#![tactic(auto)]

mod class;
mod member;

pub use class::{AnyClassTree, ClassRef};
pub use member::{
    FieldMember, MethodMember, field_table, field_table_over, in_order, method_table,
    method_table_over,
};

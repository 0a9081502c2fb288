//! What the checker answers: diagnostics with their places, and the fields and methods of each class.
#![tactic(auto)]

mod code;
mod diagnostic;
mod laws;
mod lookup;
mod sets;
mod table;
mod text;

pub use code::Code;
pub use diagnostic::{Diagnostic, copy_faults};
pub use laws::{code_numbers, one_list, strict_total_orders};
pub use lookup::{Named, find_by_name, position_by_name};
pub use sets::{ascending, fault_set, name_set};
pub use table::{Answer, ClassAnswer, ClassTable, FieldRow, MethodRow};
pub use text::render;

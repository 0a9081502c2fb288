//! Items as bytes: readers that refuse what isn't the one spelling of an item, and writers of this spelling.
#![tactic(auto)]

mod breach;
mod fields;
mod format;
mod lists;
mod names;
mod options;

pub use breach::{Breach, ReadError};
pub use fields::{
    eight_bytes, four_bytes, not_canonical, put_eight, put_four, put_two, read_byte, read_eight,
    read_four, read_two,
};
pub use format::{Format, Ordered};
pub use lists::{check_list, put_list, read_ascending, read_list};
pub use names::{NameFormat, as_text, check_name, put_name, read_name, read_name_text};
pub use options::{check_option, put_option, read_option};

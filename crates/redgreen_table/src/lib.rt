//! What a build does, event by event, with no ranks of keys: its histories, and what is known of the session that it writes.
#![tactic(auto)]

mod laws;

pub use laws::{histories_pass, orders_pass, stuck_keys_have_none};

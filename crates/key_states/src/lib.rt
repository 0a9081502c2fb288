//! How each key of a table stands, and the session that those which are done make.
#![tactic(auto)]

mod closing;
mod edge_keys;
mod node_map;
mod nodes;
mod reaching;
mod records;
mod rows;

pub use closing::{check_past, link_behind, session_of};
pub use edge_keys::EdgeKeys;
pub use node_map::NodeMap;
pub use nodes::{KeyState, Standing, find_claimed, find_running, key_state, result_of};

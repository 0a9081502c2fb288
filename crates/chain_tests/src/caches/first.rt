//! The records of a first session.

use session_fixtures::{FIRST, Kept};

/// The records of a first session. One function names them for all others, since each that names such a list writes it out,
/// which is expensive to prove.
pub(crate) fn first() -> &'static [Kept] {
    FIRST
}

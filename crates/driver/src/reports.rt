//! What is reported of a session.

/// How many events each worker made, by its number, and how many there are.
#[derive(Drop)]
pub struct Reports {
    pub events: Vec<usize>,
    pub history: usize,
}

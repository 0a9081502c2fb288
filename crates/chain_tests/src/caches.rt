//! A cache by itself: where the next session stands in it, the files that are kept there, and devices for them that stall or fail.

mod chains;
mod failing;
mod first;
mod folders;
mod stalling;
mod starts;

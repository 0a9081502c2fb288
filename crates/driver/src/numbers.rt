//! Which jobs of a list are taken.
ghost use Rattle.std.specs.Prelude.{◌<◌, IfSome};

use std::sync::atomic::{AtomicUsize, Ordering};

/// The numbers of the jobs of one list, from 0, each given to one worker. Leaving some out or giving some twice changes
/// only who does what.
#[derive(Drop)]
pub struct Numbers {
    next: AtomicUsize,
}

impl Numbers {
    /// No number is given yet.
    pub fn new() -> Self {
        Numbers {
            next: AtomicUsize::new(0),
        }
    }

    /// The number of the next job, or `None` past the last of so many. The one after it is greater by the step.
    pub fn take(&self, jobs: usize, step: usize) -> Option<usize>
        ensures { IfSome result (λ at. at < jobs) }
    {
        let at = self.next.fetch_add(step, Ordering::SeqCst);
        if at < jobs { Some(at) } else { None }
    }
}

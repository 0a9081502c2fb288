//! Workers.
ghost use Rattle.std.specs.Prelude.{◌≡◌};

use crate::store::Store;
use recorder::Runner;
use sessions::Finder;
use std::alloc::Global;

/// A worker at a store, with what runs its keys. It remembers where it found keys in the previous session, so that one
/// that evaluates many keys is faster than one for each.
#[derive(Drop)]
pub struct Worker<'a, S: Store, R: Runner> {
    pub(crate) alloc: Global,
    pub(crate) store: &'a mut S,
    pub(crate) runner: &'a mut R,
    pub(crate) id: u32,
    pub(crate) finder: Finder,
}

impl<'a, S: Store, R: Runner> Worker<'a, S, R> {
    /// The worker of this number, at a store, with the runner that runs its keys.
    pub fn new(alloc: Global, store: &'a mut S, runner: &'a mut R, id: u32) -> Self
        ensures store { result.store.now ≡ store.old }
        ensures runner { result.runner.now ≡ runner.old }
        ensures id { result.id ≡ id }
    {
        Worker {
            alloc,
            store,
            runner,
            id,
            finder: Finder::new(),
        }
    }
}

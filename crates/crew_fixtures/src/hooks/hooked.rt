//! A runner with a hook around each run.
ghost use Rattle.std.specs.Prelude.{◌≡◌};
ghost use Rattle.query_rules.specs.Queries.{is_by_profile};

use item_ids::{Key, Kind};
use mini_java::MiniJava;
use profiles::Profile;
use recorder::{Reader, Recorder, RunFault, Runner};
use result_bytes::Value;
use std::alloc::Global;

/// What is called around each run.
pub(crate) trait Hook {
    /// A run of the key begins. Whether it goes on: else it is out of memory.
    fn begin(&self, key: &Key) -> bool;

    /// A run of the key has ended.
    fn end(&self, key: &Key);
}

/// Runs as MiniJava's runner does, with a hook around each run.
#[derive(Drop)]
pub(crate) struct Hooked<H: Hook> {
    runner: MiniJava,
    hook: H,
}

impl<H: Hook> Hooked<H> {
    pub(crate) fn new(alloc: Global, hook: H) -> Self {
        Hooked {
            runner: MiniJava::new(alloc),
            hook,
        }
    }
}

impl<H: Hook> Runner for Hooked<H> {
    ghost use Rattle.query_rules.specs.Queries.{queries};
    ghost use Rattle.mini_java.specs.Laws.{mini_java_laws};

    ghost queries = { queries };

    ghost log = { λ r. r.runner.log.items };

    ghost laws = { mini_java_laws };

    fn by_profile(kind: Kind) -> bool
        ensures { result ≡ is_by_profile kind }
    {
        MiniJava::by_profile(kind)
    }

    fn run<D: Reader>(
        &mut self,
        alloc: Global,
        profile: Profile,
        key: &Key,
        recorder: &mut Recorder<D>,
    ) -> Result<Value, RunFault> {
        if !self.hook.begin(key) {
            return Err(RunFault::OutOfMemory);
        }
        let answer = self.runner.run(alloc, profile, key, recorder);
        self.hook.end(key);
        answer
    }
}

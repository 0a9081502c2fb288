//! Clients, which run the queries, in whatever language.
ghost use Rattle.std.specs.Prelude.{◌≡◌, None, Some, Err, IfOk};
ghost use Rattle.redgreen_rules.specs.Programs.{Key};
ghost use Rattle.redgreen_rules.specs.Runs.{Run, Gave, Wanted, Failed};
ghost use Rattle.redgreen_audit.specs.Answering.{told_first};

use crate::answers::Answers;
use redgreen_sessions::Bytes;
use std::alloc::Global;

/// Why a client gives no result.
#[derive(Clone, Copy, Debug, PartialEq, Eq)]
pub enum Stop {
    /// The run failed.
    Failed,
    /// The client broke off, or answered what is no answer.
    Broken,
    /// Memory ran out.
    OutOfMemory,
}

/// Whatever runs queries. Nothing is known of what it does with the answers; its contract only says which run it made.
pub trait Client {
    /// From the one state to the other it made this run.
    ghost makes: { Self → Run → Self → Type 0 };

    /// Runs a key, by reads that these answers answer.
    fn run(&mut self, alloc: Global, key: &[u8], answers: &mut Answers<'_>) -> Result<Bytes, Stop>
        requires none { answers.old.count ≡ 0 }
        requires other { answers.old.other ≡ None }
        ensures records { answers.new.records.now ≡ answers.old.records.now }
        ensures reads { answers.new.reads.now ≡ answers.old.reads.now }
        ensures gave { IfOk result (λ v. answers.new.other ≡ None
            → makes self.old (record {
              key = key.now;
              told = told_first answers.new.records.now answers.new.reads.now answers.new.count;
              end = Gave v;
            }) self.new) }
        ensures wanted { (k : Key) → answers.new.other ≡ Some k
            → makes self.old (record {
              key = key.now;
              told = told_first answers.new.records.now answers.new.reads.now answers.new.count;
              end = Wanted k;
            }) self.new }
        ensures failed { result ≡ Err Stop.Failed → answers.new.other ≡ None
            → makes self.old (record {
              key = key.now;
              told = told_first answers.new.records.now answers.new.reads.now answers.new.count;
              end = Failed;
            }) self.new };
}

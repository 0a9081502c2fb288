//! What computes the results of queries.
ghost use Rattle.std.specs.Prelude.{◌≡◌, ◌⊎◌, ◌<◌, List, [], None, Err, false};
ghost use Rattle.profiles.specs.declared.profile.Profile.{Profile};
ghost use Rattle.item_ids.specs.declared.key.Key.{Key};
ghost use Rattle.item_ids.specs.Keys.{kind_of};
ghost use Rattle.item_ids.specs.Inputs.{rank};
ghost use Rattle.recorder.specs.Backed.{Queries, AreLawful};
ghost use Rattle.recorder.specs.Runs.{IsRun, Logs};

use crate::reader::{ReadFault, Reader};
use crate::readers::Recorder;
use item_ids::{Key, Kind};
use profiles::Profile;
use result_bytes::Value;
use std::alloc::{AllocError, AllocFailed, Global};
use thiserror::Error;

/// Why a run has no result.
#[derive(Clone, Copy, Debug, PartialEq, Eq, Error)]
pub enum RunFault {
    /// A read was refused.
    #[error("8.1 Read({0})")]
    Read(ReadFault),
    /// Memory ran out.
    #[error("8.2 OutOfMemory")]
    OutOfMemory,
}

impl From<AllocError> for RunFault {
    ghost use Rattle.std.specs.Prelude.{◌≡◌};
    ghost use Rattle.recorder.specs.declared.runner.RunFault.TheVariants.{OutOfMemory};

    ghost from_gives = { λ _ e. e ≡ OutOfMemory };

    fn from(_: AllocError) -> Self {
        RunFault::OutOfMemory
    }
}

/// What computes the results of queries. What keys mean and read belongs to the type, the log to the value.
pub trait Runner {
    /// Which kinds go by the profile, and in each profile the value of a key in a project, and what it reads there, in
    /// order.
    ghost queries: { Queries };

    /// The keys that it was asked to run, in order.
    ghost log: { Self → List Key };

    /// Whether keys of this kind go by the profile.
    fn by_profile(kind: Kind) -> bool
        ensures { result ≡ queries.by_profile kind };

    /// Runs a key that is no input in a profile, with a recorder that hasn't read. If the key's kind doesn't go by
    /// the profile, it is a run in every profile. Only if memory runs out for the log, nothing is read and the call
    /// isn't logged.
    fn run<D: Reader>(
        &mut self,
        alloc: Global,
        profile: Profile,
        key: &Key,
        recorder: &mut Recorder<D>,
    ) -> Result<Value, RunFault>
        requires no_input { 0 < rank key.now }
        requires unread { recorder.old.told ≡ [] }
        requires unrefused { recorder.old.refused ≡ None }
        ensures run { IsRun (queries.mean profile) (queries.reads profile) key.now recorder.new
            result }
        ensures across { queries.by_profile (kind_of key.now) ≡ false → (other : Profile)
            → IsRun (queries.mean other) (queries.reads other) key.now recorder.new result }
        ensures log { Logs key.now (log self.old) (log self.new)
            ⊎ ((result ≡ Err RunFault.OutOfMemory) × (log self.new ≡ log self.old)
            × (recorder.new ≡ recorder.old)) }
        ensures follows { D.follows recorder.old.inner recorder.new.inner };

    ghost laws: { AreLawful queries };
}

//! Runners that tell which results are kept.
ghost use Rattle.std.specs.Prelude.{◌≡◌, ◌<◌, [], None, Bool, IfOk};
ghost use Rattle.profiles.specs.declared.profile.Profile.{Profile};
ghost use Rattle.item_ids.specs.declared.key.Key.{Key};
ghost use Rattle.item_ids.specs.Inputs.{rank};
ghost use Rattle.result_bytes.specs.declared.value.Value.{Value};
ghost use Rattle.recorder.specs.Programs.{Prog};
ghost use Rattle.recorder.specs.Runs.{IsRun};
ghost use Rattle.keeping.specs.Follows.{Follows};
ghost use Rattle.keeping.specs.Keeping.{KeepingLaws};

use item_ids::Key;
use profiles::Profile;
use recorder::{Reader, Recorder, RunFault, Runner};
use result_bytes::Value;
use std::alloc::{AllocError, Global};

/// A runner by programs, which tells when a result is kept though the value of a key that it read changes. What there is
/// to know of a change is found once, and asked for each result that read the key.
pub trait Keeping: Runner {
    /// What is known of the change of a key's value.
    type Change: Drop;

    /// The program of each key in a profile.
    ghost programs: { Profile → Key → Prog };

    /// Whether the result of a key is kept, with this value, if the value of a key that it read goes from one to another.
    ghost kept: { Key → Value → Key → Value → Value → Bool };

    /// This is known of the change of a key from one value to another.
    ghost tells: { Self.Change → Key → Value → Value → Type 0 };

    /// What is to be known of the change of a key from one value to another.
    fn change(
        alloc: Global,
        read: &Key,
        old: &Value,
        new: &Value,
    ) -> Result<Self::Change, AllocError>
        ensures { IfOk result (λ c. tells c read.now old.now new.now) };

    /// Whether a change of a key that was read for a result keeps the result, which takes no memory.
    fn keeps(change: &Self::Change, key: &Key, value: &Value) -> bool
        ensures { (read : Key) (old new : Value) → tells change.now read old new
            → result ≡ kept key.now value.now read old new };

    /// Runs a key as `run` does, but for the log, which stays as it is. The result follows from what was read by a run of
    /// the key's program.
    fn run_along<D: Reader>(
        &mut self,
        alloc: Global,
        profile: Profile,
        key: &Key,
        recorder: &mut Recorder<D>,
    ) -> Result<Value, RunFault>
        requires no_input { 0 < rank key.now }
        requires unread { recorder.old.told ≡ [] }
        requires unrefused { recorder.old.refused ≡ None }
        ensures along { IfOk result (λ v. Follows (programs profile key.now) recorder.new.told v) }
        ensures run { IsRun (Self.queries.mean profile) (Self.queries.reads profile) key.now
            recorder.new result }
        ensures log { Self.log self.new ≡ Self.log self.old }
        ensures follows { D.follows recorder.old.inner recorder.new.inner };

    ghost keeping: { KeepingLaws Self.queries programs kept };
}

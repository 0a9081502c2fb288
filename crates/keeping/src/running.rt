//! Runs whose results are sealed.
ghost use Rattle.std.specs.Prelude.{◌≡◌, ◌<◌, [], None, IfOk};
ghost use Rattle.std.specs.Arc.{arc_value};
ghost use Rattle.item_ids.specs.Inputs.{rank};
ghost use Rattle.item_ids.specs.KeyLists.{AreLower};
ghost use Rattle.result_bytes.specs.Values.{IsOfKind};
ghost use Rattle.recorder.specs.Backed.{keys};
ghost use Rattle.keeping.specs.Follows.{Follows};

use crate::keeping::Keeping;
use fingerprint::{Sealed, seal_or_share};
use item_ids::Key;
use profiles::Profile;
use recorder::{Reader, Recorder, RunFault};
use std::alloc::{AllocError, AllocFailed, Global};
use std::sync::Arc;

/// Runs a key that is no input in a profile, with a recorder that hasn't read, and seals its result. If it has the bytes of
/// a known one, that is shared, and nothing is hashed. After a refusal the recorder keeps what it read.
pub fn run_sealed<R: Keeping, D: Reader>(
    alloc: Global,
    runner: &mut R,
    profile: Profile,
    key: &Key,
    recorder: &mut Recorder<D>,
    known: Option<&Arc<Sealed>>,
) -> Result<Arc<Sealed>, RunFault>
    requires no_input { 0 < rank key.now }
    requires unread { recorder.old.told ≡ [] }
    requires unrefused { recorder.old.refused ≡ None }
    ensures along { IfOk result
        (λ a. Follows (R.programs profile key.now) recorder.new.told (arc_value a)) }
    ensures kind { IfOk result (λ a. IsOfKind key.now (arc_value a)) }
    ensures lower { AreLower key.now (keys recorder.new.told) }
    ensures log { R.log runner.new ≡ R.log runner.old }
    ensures follows { D.follows recorder.old.inner recorder.new.inner }
{
    let value = runner.run_along(alloc, profile, key, recorder)?;
    let sealed = seal_or_share(alloc, value, known)?;
    Ok(sealed)
}

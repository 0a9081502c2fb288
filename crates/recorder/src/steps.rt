//! The read of a query, as a step of its program.
ghost use Rattle.std.specs.Prelude.{IfOk, IfErr};
ghost use Rattle.std.specs.Arc.{arc_value};
ghost use Rattle.result_bytes.specs.Values.{IsOfKind};
ghost use Rattle.recorder.specs.Programs.{Ask, Goes, GivesUp};
ghost use Rattle.recorder.specs.Runs.{IsReadFault};

use crate::reader::Reader;
use crate::readers::Recorder;
use crate::runner::RunFault;
use fingerprint::Sealed;
use item_ids::Key;
use std::sync::Arc;

/// Asks one key: the only step that reads.
pub fn ask_key<D: Reader>(recorder: &mut Recorder<D>, key: &Key) -> Result<Arc<Sealed>, RunFault>
    ensures kind { IfOk result (λ a. IsOfKind key.now (arc_value a)) }
    ensures ok { IfOk result (λ a. Goes (Ask key.now) recorder.old (arc_value a) recorder.new) }
    ensures err { IfErr result (λ e. GivesUp (Ask key.now) recorder.old e recorder.new) }
    ensures read { IfErr result (λ e. IsReadFault recorder.new e) }
    ensures follows { D.follows recorder.old.inner recorder.new.inner }
{
    match recorder.read(key) {
        Ok(sealed) => Ok(sealed),
        Err(fault) => Err(RunFault::Read(fault)),
    }
}

/// Reads the result of a key, which is let go here, whatever comes of the read. A refused read ends the run with the
/// reader's fault, out of memory too.
pub fn read<D: Reader>(recorder: &mut Recorder<D>, key: Key) -> Result<Arc<Sealed>, RunFault>
    ensures kind { IfOk result (λ a. IsOfKind key (arc_value a)) }
    ensures ok { IfOk result (λ a. Goes (Ask key) recorder.old (arc_value a) recorder.new) }
    ensures err { IfErr result (λ e. GivesUp (Ask key) recorder.old e recorder.new) }
    ensures read { IfErr result (λ e. IsReadFault recorder.new e) }
    ensures follows { D.follows recorder.old.inner recorder.new.inner }
{
    ask_key(recorder, &key)
}

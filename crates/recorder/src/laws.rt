//! Laws of runners by programs.
ghost use Rattle.std.specs.Prelude.{◌≡◌, ◌<◌, Result};
ghost use Rattle.item_ids.specs.declared.key.Key.{Key};
ghost use Rattle.item_ids.specs.Inputs.{rank};
ghost use Rattle.result_bytes.specs.declared.value.Value.{Value};
ghost use Rattle.recorder.specs.Backed.{Meaning, ReadLists, ReadLaws, RunnerLaws};
ghost use Rattle.recorder.specs.Recording.{Recording};
ghost use Rattle.recorder.specs.Runs.{IsRun};
ghost use Rattle.recorder.specs.Programs.{Prog, Tied, TiedAt, Performs};
ghost use Rattle.recorder.specs.declared.runner.RunFault.{RunFault};

use crate::reader::Reader;

/// Values and reads that are those of programs keep to the laws of runners.
pub fn programs_keep_the_laws()
    ensures { (prog_of : Key → Prog) (mean : Meaning) (reads : ReadLists) → Tied prog_of mean reads
        → RunnerLaws mean reads }
{}

/// If two pairs of meaning and reads are those of programs, and a key has the same program by both, it
/// reads alike by both.
pub fn programs_read_alike()
    ensures { (prog_of other : Key → Prog) (m : Meaning) (l : ReadLists) (n : Meaning)
        (k : ReadLists) → Tied prog_of m l → Tied other n k → (q : Key) → prog_of q ≡ other q
        → ReadLaws m l n k q }
{}

/// What performs a program that the key is tied to is a run of the key, whatever the other keys mean and read.
pub fn tied_programs_are_runs<D: Reader>()
    ensures { (mean : Meaning) (reads : ReadLists) (q : Key) (prog : Prog) → TiedAt mean reads q prog
        → (old new : Recording D) (result : Result Value RunFault)
        → Performs prog old result new → IsRun mean reads q new result }
{}

/// What performs the program of a key is a run of the key, if values and reads are those of programs.
pub fn programs_are_runs<D: Reader>()
    ensures { (prog_of : Key → Prog) (mean : Meaning) (reads : ReadLists) → Tied prog_of mean reads
        → (q : Key) → 0 < rank q → (old new : Recording D) (result : Result Value RunFault)
        → Performs (prog_of q) old result new → IsRun mean reads q new result }
{}

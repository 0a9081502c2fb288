//! The run of one executed record.
ghost use Rattle.std.specs.Prelude.{◌≡◌, OnOk, IfErr};
ghost use Rattle.redgreen_audit.specs.Answering.{AreInside, AreOnce, AreAllInside, AreAllOnce};
ghost use Rattle.redgreen_audit.specs.Refusals.{RefusesRun, FirstDiffers};
ghost use Rattle.redgreen_rules.specs.Sessions as rules;
ghost use Rattle.redgreen_rules.specs.Sessions.{run_of, run_by, runs_of};
ghost use Rattle.redgreen_rules.specs.Runs.{AreMade};
ghost use Rattle.redgreen_sessions.specs.Views.{mark_of, entry_in, entries_of};

use crate::answers::Answers;
use crate::client::{Client, Stop};
use crate::fault::RecordFault;
use redgreen_sessions::{Mark, Record};
use std::alloc::Global;

/// Why a record's run isn't the one that it records.
#[derive(Clone, Copy)]
pub(crate) enum Unlike {
    /// The record has this fault.
    Faulty(RecordFault),
    /// The client gave no result for another reason.
    Stops(Stop),
}

/// Has the client run a record's key, answered from the record's own reads. Ok only if that is just the run that the
/// record tells of.
pub(crate) fn rerun<C: Client>(
    alloc: Global,
    client: &mut C,
    records: &[Record],
    item: &Record,
) -> Result<(), Unlike>
    requires inside { AreInside records.now item.now.reads.items }
    requires once { AreOnce records.now item.now.reads.items }
    ensures made { OnOk result (C.makes client.old (run_of (entry_in records.now item.now)) client.new) }
    ensures refused { IfErr result (RefusesRun C.makes client.old client.new records.now item.now) }
{
    let mut answers = Answers::new(records, item.reads.as_slice());
    let run = client.run(alloc, item.key.as_slice(), &mut answers);
    answers.facts();
    if answers.is_other() {
        return Err(Unlike::Faulty(RecordFault::OtherRead));
    }
    match run {
        Ok(value) => {
            if !answers.are_all() {
                return Err(Unlike::Faulty(RecordFault::MissingRead));
            }
            if !value.equals(item.value.as_slice()) {
                return Err(Unlike::Faulty(RecordFault::OtherValue));
            }
            Ok(())
        }
        Err(Stop::Failed) => Err(Unlike::Faulty(RecordFault::FailedRun)),
        Err(stop) => Err(Unlike::Stops(stop)),
    }
}

/// Has the client run a record's key if it is marked as executed.
pub(crate) fn rerun_if<C: Client>(
    alloc: Global,
    client: &mut C,
    records: &[Record],
    item: &Record,
) -> Result<(), Unlike>
    requires inside { AreInside records.now item.now.reads.items }
    requires once { mark_of item.now.mark ≡ rules.Executed → AreOnce records.now item.now.reads.items }
    ensures made { OnOk result (AreMade C.makes client.old
        (run_by (mark_of item.now.mark) (entry_in records.now item.now)) client.new) }
    ensures refused { IfErr result (λ unlike. (mark_of item.now.mark ≡ rules.Executed)
        × RefusesRun C.makes client.old client.new records.now item.now unlike) }
{
    match item.mark {
        Mark::Executed(_) => rerun(alloc, client, records, item),
        Mark::Input(_) | Mark::Green(_) => Ok(()),
    }
}

/// Has the client run each key that is marked as executed, in the order of the records.
pub(crate) fn rerun_all<C: Client>(
    alloc: Global,
    client: &mut C,
    records: &[Record],
) -> Result<(), (usize, Unlike)>
    requires inside { AreAllInside records.now }
    requires once { AreAllOnce records.now }
    ensures made { OnOk result (AreMade C.makes client.old (runs_of (entries_of records.now)) client.new) }
    ensures refused { IfErr result (λ x. FirstDiffers C.makes client.old client.new records.now x.0 x.1) }
{
    for (n, item) in records.iter().enumerate() {
        match rerun_if(alloc, client, records, item) {
            Ok(()) => {}
            Err(unlike) => return Err((n, unlike)),
        }
    }
    Ok(())
}

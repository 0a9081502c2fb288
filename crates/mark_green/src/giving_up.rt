//! Giving up.
ghost use Rattle.std.specs.Prelude.{◌≡◌};
ghost use Rattle.mark_green.specs.Leaves.{WorkerGivesUp};
ghost use Rattle.mark_green.specs.Workers.{ChangesTable, IsSameWorker};
ghost use Rattle.mark_green.specs.Ensures.{IsWorkFault, IsFaultOfStop, StopsFor};

use crate::asking::RunStop;
use crate::fault::Fault;
use crate::store::Store;
use crate::worker::Worker;
use job_table::TableFault;
use recorder::Runner;

impl<S: Store, R: Runner> Worker<'_, S, R> {
    /// Notes that the worker gives up, for a refusal of the table.
    pub(crate) fn give_up(&mut self, fault: TableFault) -> Fault
        ensures same { IsSameWorker S.told self.old self.new }
        ensures fault { IsWorkFault fault result }
        ensures stops { ChangesTable S.table self.old self.new WorkerGivesUp }
    {
        let _ = self.store.fail(self.id);
        fault_of(fault)
    }

    /// The fault of a run that stopped. The worker gives up, unless another one has a key, or a worker failed before.
    pub(crate) fn give_up_run(&mut self, stop: &RunStop) -> Fault
        ensures same { IsSameWorker S.told self.old self.new }
        ensures fault { IsFaultOfStop stop.now result }
        ensures stops { ChangesTable S.table self.old self.new (StopsFor stop.now) }
    {
        match stop {
            RunStop::Busy => Fault::Busy,
            RunStop::Stopped => Fault::Stopped,
            RunStop::Refused(fault) => self.give_up(*fault),
            RunStop::OutOfMemory | RunStop::Lacks(_) => self.give_up(TableFault::OutOfMemory),
        }
    }
}

/// The fault that a refusal of the table leads to.
fn fault_of(fault: TableFault) -> Fault
    ensures { IsWorkFault fault result }
{
    match fault {
        TableFault::OutOfMemory => Fault::OutOfMemory,
        _ => Fault::Stopped,
    }
}

//! What a worker does with a table.
ghost use Rattle.std.specs.Prelude.{◌≡◌, IfOk, Option};
ghost use Rattle.std.specs.Arc.{arc_value};
ghost use Rattle.item_ids.specs.declared.key.Key.{Key};
ghost use Rattle.result_bytes.specs.declared.value.Value.{Value};
ghost use Rattle.graph_rules.specs.Steps.{AreHeld};
ghost use Rattle.sessions.specs.Sessions.{session_in};
ghost use Rattle.job_table.specs.Tables.{state_of};
ghost use Rattle.job_table.specs.Calls.{AskGives, MarkGives, BeginGives, FinishGives, FailGives};
ghost use Rattle.mark_green.specs.Leaves.{Knows, KnowsChange, ClaimsNoInput, StaysTold, TellsDone, AreTold};

use fingerprint::Sealed;
use item_ids::Key;
use job_table::{Asked, TableFault};
use sessions::{Session, Terms};
use std::alloc::AllocError;
use std::sync::Arc;

/// The calls that a worker makes at a table, its own or a shared one. If nothing is known of the table of a store,
/// contracts say nothing of what its calls do, but for the results that it gave the worker: those stay so.
pub trait Store {
    /// The outcome of a run.
    type Out;

    ghost use Rattle.result_bytes.specs.Values.{IsOfKind};
    ghost use Rattle.recorder.specs.Runs.{OutcomeValue};
    ghost use Rattle.job_table.specs.Tables.{TableValue};

    /// The table, if anything is known of it.
    ghost table: { Self → Option TableValue };

    /// The results that it gave the worker: a key that is done with a value stays done with it.
    ghost told: { Self → Key → Value → Type 0 };

    /// What a run gave.
    ghost outcome_in: { Self.Out → OutcomeValue };

    /// Asks for a key. If nobody has claimed it, the worker claims it; an input is never claimed.
    fn ask(&mut self, w: u32, key: &Key) -> Result<Asked, TableFault>
        ensures gives { KnowsChange (λ t u. AskGives t w key.now result u) (table self.old)
            (table self.new) }
        ensures claims { ClaimsNoInput key.now result }
        ensures told { TellsDone (told self.new) key.now result }
        ensures stays { StaysTold (told self.old) (told self.new) };

    /// Takes over the previous session's result for a key that the worker has claimed.
    fn mark(&mut self, w: u32, key: &Key) -> Result<Arc<Sealed>, TableFault>
        ensures gives { KnowsChange (λ t u. MarkGives t w key.now result u) (table self.old)
            (table self.new) }
        ensures told { IfOk result (λ a. told self.new key.now (arc_value a)) }
        ensures stays { StaysTold (told self.old) (told self.new) };

    /// Begins the run of a key that the worker has claimed.
    fn begin_run(&mut self, w: u32, key: &Key) -> Result<(), TableFault>
        ensures gives { KnowsChange (λ t u. BeginGives t w key.now result u) (table self.old)
            (table self.new) }
        ensures stays { StaysTold (told self.old) (told self.new) };

    /// Ends the run of a key with its outcome. All that was read was given by the store, so that it still stands in the
    /// table.
    fn finish(&mut self, w: u32, outcome: Self::Out) -> Result<(), TableFault>
        requires held { Knows (λ t. AreHeld (state_of t) (outcome_in outcome).told)
            (table self.old) }
        requires told { AreTold (told self.old) (outcome_in outcome).told }
        ensures gives { KnowsChange (λ t u. FinishGives t w (outcome_in outcome) result u)
            (table self.old) (table self.new) }
        ensures told { IfOk result (λ _. told self.new (outcome_in outcome).key
            (outcome_in outcome).value) }
        ensures stays { StaysTold (told self.old) (told self.new) };

    /// Notes that the worker gives up.
    fn fail(&mut self, w: u32) -> Result<(), TableFault>
        ensures gives { KnowsChange (λ t u. FailGives t w result u) (table self.old) (table self.new) }
        ensures stays { StaysTold (told self.old) (told self.new) };

    /// The terms of the session at work. This takes no memory.
    fn terms(&self) -> Terms
        ensures { Knows (λ t. result ≡ t.terms) (table self.now) };

    /// The previous session.
    fn past(&self) -> Result<Option<Arc<Session>>, AllocError>
        ensures { IfOk result (λ past. Knows (λ t. session_in past ≡ t.past) (table self.now)) };

    /// A result that it gave for a key is of the key's kind.
    ghost of_kind: { (s : Self) (q : Key) (v : Value) → told s q v → IsOfKind q v };
}

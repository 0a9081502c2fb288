//! Calls of a table itself, by a store that has one.
ghost use Rattle.std.specs.Prelude.{IfOk};
ghost use Rattle.std.specs.Arc.{arc_value};
ghost use Rattle.result_bytes.specs.Values.{IsOfKind};
ghost use Rattle.job_table.specs.Calls.{AskGives, MarkGives};
ghost use Rattle.mark_green.specs.Leaves.{ClaimsNoInput, TellsDone};

use fingerprint::Sealed;
use item_ids::Key;
use job_table::{Asked, Table, TableFault};
use recorder::Runner;
use std::sync::Arc;

/// Asks a table for a key. Inputs are done from its opening on, so none is ever claimed. The result of a done key is of
/// the key's kind.
pub fn ask_table<R: Runner>(table: &mut Table<R>, w: u32, key: &Key) -> Result<Asked, TableFault>
    ensures gives { AskGives table.old w key.now result table.new }
    ensures claims { ClaimsNoInput key.now result }
    ensures kind { TellsDone IsOfKind key.now result }
{
    // A table's history is legal, by its type, so that its inputs are done.
    table.laws();
    table.ask(w, key)
}

/// Takes over the previous session's result for a key that the worker has claimed. It is of the key's kind.
pub fn mark_table<R: Runner>(
    table: &mut Table<R>,
    w: u32,
    key: &Key,
) -> Result<Arc<Sealed>, TableFault>
    ensures gives { MarkGives table.old w key.now result table.new }
    ensures kind { IfOk result (λ a. IsOfKind key.now (arc_value a)) }
{
    let answer = table.mark(w, key);
    // The key is done now, and a table keeps in its type that what is done is of its kind.
    table.laws();
    answer
}

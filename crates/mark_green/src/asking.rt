//! Why runs stop, and what answers their reads.
ghost use Rattle.std.specs.Prelude.{◌≡◌, ◌⊎◌, ◌<◌, ℕ, Some, IfOk, IfErr};
ghost use Rattle.std.specs.Arc.{arc_value};
ghost use Rattle.item_ids.specs.Inputs.{rank as rank_of_key};
ghost use Rattle.result_bytes.specs.Values.{IsOfKind};
ghost use Rattle.mark_green.specs.Leaves.{Knows, StaysTold};
ghost use Rattle.mark_green.specs.Moves.{IsDoneIn, HaltsAtRead, IsFaultOfRead};
ghost use Rattle.mark_green.specs.declared.asking.RunStop.{RunStop};

use crate::store::Store;
use fingerprint::Sealed;
use item_ids::{Key, rank};
use job_table::{Asked, TableFault};
use recorder::{AnswerList, ReadFault, Reader};
use std::alloc::Global;
use std::sync::Arc;

/// Why a run has no outcome.
#[derive(Drop)]
pub(crate) enum RunStop {
    /// The worker has claimed this key, which isn't done.
    Lacks(Key),
    /// Another worker has a key.
    Busy,
    /// A worker failed.
    Stopped,
    /// The table refused a key.
    Refused(TableFault),
    /// Memory ran out.
    OutOfMemory,
}

/// Answers the reads of a run, of keys below a rank: from the results held, else from the store. After the first read
/// that the store doesn't answer it asks nothing.
#[derive(Drop)]
pub(crate) struct StoreReader<'a, S: Store> {
    pub alloc: Global,
    pub store: &'a mut S,
    pub w: u32,
    pub below: u8,
    pub held: &'a AnswerList,
    pub stop: Option<RunStop>,
}

impl<S: Store> Reader for StoreReader<'_, S> {
    ghost use Rattle.std.specs.Prelude.{◌≡◌, ◌⊎◌, Contains, refl};
    ghost use Rattle.std.proofs.Common.{◌∙◌, inl, inr, subst, sym};
    ghost use Rattle.mark_green.specs.Leaves.{Knows, StaysTold};
    ghost use Rattle.mark_green.specs.Moves.{IsDoneIn, IsUnanswered, Moves, moves_keep, moves_from};

    ghost answers = { λ s q v. (Knows (IsDoneIn q v) (S.table s.store.now) × S.told s.store.now q v)
        ⊎ Contains s.held.now (record { key = q; value = v }) };

    ghost faults = { λ s q f. IsUnanswered s.below s.stop q f };

    ghost follows = { λ s t. (t.store.ghost_name ≡ s.store.ghost_name)
        × (t.held.now ≡ s.held.now) × (t.w ≡ s.w) × (t.below ≡ s.below)
        × StaysTold (S.told s.store.now) (S.told t.store.now)
        × Moves s.w s.below s.stop t.stop (S.table s.store.now) (S.table t.store.now) };

    ghost reflexive = { λ s. (refl, refl, refl, refl, λ q v h. h, inl (refl, refl)) };

    ghost transitive = { λ s t u f g. (
      g.0 ∙ f.0,
      g.1 ∙ f.1,
      g.2 ∙ f.2,
      g.3 ∙ f.3,
      λ q v h. g.4 q v (f.4 q v h),
      moves_from s.w s.below t.w t.below s.stop t.stop u.stop (S.table s.store.now)
          (S.table t.store.now) (S.table u.store.now) f.2 f.3 f.5 g.5,
    ) };

    ghost kept = { λ s t q v f a. elim a [
      | inl h ↦ inl (
        moves_keep s.w s.below s.stop t.stop q v (S.table s.store.now)
            (S.table t.store.now) f.5 h.0,
        f.4 q v h.1,
      )
      | inr h ↦ inr (subst (λ list. Contains list (record { key = q; value = v })) (sym f.1) h)
    ] };

    fn read(&mut self, key: &Key) -> Result<Arc<Sealed>, ReadFault> {
        if let Some(stop) = &self.stop {
            return Err(fault_of_read(stop));
        }
        if let Some(read) = self.held.find(key) {
            return match Arc::try_clone(read.answer()) {
                Ok(sealed) => Ok(sealed),
                Err(_) => Err(ReadFault::OutOfMemory),
            };
        }
        if rank(key.kind()) >= self.below {
            return Err(ReadFault::Stopped);
        }
        match answer_of(self.alloc, self.store, self.w, key) {
            Ok(sealed) => Ok(sealed),
            Err(stop) => Err(stop_for(&mut self.stop, stop)),
        }
    }
}

/// Notes what stopped the run, and gives the refusal of the read.
fn stop_for(noted: &mut Option<RunStop>, stop: RunStop) -> ReadFault
    ensures noted { noted.new ≡ Some stop }
    ensures fault { IsFaultOfRead stop result }
{
    let fault = fault_of_read(&stop);
    drop(noted.replace(stop));
    fault
}

/// The refusal of a read, by what stopped the run: it is `NotHeld` only if a worker has the key.
fn fault_of_read(stop: &RunStop) -> ReadFault
    ensures { IsFaultOfRead stop.now result }
{
    match stop {
        RunStop::Lacks(_) | RunStop::Busy => ReadFault::NotHeld,
        RunStop::Refused(TableFault::OutOfMemory) | RunStop::OutOfMemory => ReadFault::OutOfMemory,
        RunStop::Stopped | RunStop::Refused(_) => ReadFault::Stopped,
    }
}

/// The result of a key that is done in the store, which is of the key's kind.
fn answer_of<S: Store>(
    alloc: Global,
    store: &mut S,
    w: u32,
    key: &Key,
) -> Result<Arc<Sealed>, RunStop>
    ensures kind { IfOk result (λ a. IsOfKind key.now (arc_value a)) }
    ensures same { IfOk result (λ _. S.table store.new ≡ S.table store.old) }
    ensures done { IfOk result (λ a. Knows (IsDoneIn key.now (arc_value a)) (S.table store.new)) }
    ensures told { IfOk result (λ a. S.told store.new key.now (arc_value a)) }
    ensures stays { StaysTold (S.told store.old) (S.told store.new) }
    ensures halts { (r : ℕ) → rank_of_key key.now < r → IfErr result
        (λ x. HaltsAtRead w r x (S.table store.old) (S.table store.new)) }
{
    match store.ask(w, key) {
        Ok(Asked::Done(sealed)) => Ok(sealed),
        Ok(Asked::Yours) => Err(lacks(alloc, key)),
        Ok(Asked::Busy) => Err(RunStop::Busy),
        Ok(Asked::Stopped) => Err(RunStop::Stopped),
        Err(fault) => Err(RunStop::Refused(fault)),
    }
}

/// Why the run of a key that lacks this one stops.
fn lacks(alloc: Global, key: &Key) -> RunStop
    ensures { (result ≡ RunStop.Lacks key.now) ⊎ (result ≡ RunStop.OutOfMemory) }
{
    match key.copy(alloc) {
        Ok(key) => RunStop::Lacks(key),
        Err(_) => RunStop::OutOfMemory,
    }
}

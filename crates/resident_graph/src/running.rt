//! The value of a key over the values of now.
ghost use Rattle.std.specs.Prelude.{◌≡◌, ◌≢◌, ℕ, ◌<◌, IfOk, IfSome, IfNone, List, map, length};
ghost use Rattle.std.specs.List.{AllByRecursion};
ghost use Rattle.std.specs.Arc.{arc_value};
ghost use Rattle.item_ids.specs.Inputs.{rank};
ghost use Rattle.item_ids.specs.KeyLists.{AreLower};
ghost use Rattle.recorder.specs.Backed.{keys as keys_told};
ghost use Rattle.result_bytes.specs.Values.{IsOfKind};
ghost use Rattle.keeping.specs.Follows.{Follows};
ghost use Rattle.resident_graph.specs.Lists.{key_in, value_in};
ghost use Rattle.resident_graph.specs.Runs.{EvaluatedGives, IsGiven, IsLacking};

use edited_inputs::EditedInputs;
use fingerprint::Sealed;
use indexmap::IndexSet;
use item_ids::Key;
use keeping::{Keeping, run_sealed};
use profiles::Profile;
use recorder::{Read, ReadFault, Reader, Recorder};
use std::alloc::{AllocError, Global};
use std::sync::Arc;

/// The place of a key.
pub(crate) fn place_of(keys: &IndexSet<Key>, key: &Key) -> Option<usize>
    ensures within { IfSome result (λ at. at < length keys.now.keys) }
    ensures key { IfSome result (λ at. key_in keys.now.keys at ≡ key.now) }
    ensures none { IfNone result ((i : ℕ) → i < length keys.now.keys
        → key_in keys.now.keys i ≢ key.now) }
{
    keys.get_index_of(key)
}

/// Answers reads by the values of now.
#[derive(Drop)]
pub(crate) struct GraphReader<'a> {
    keys: &'a IndexSet<Key>,
    values: &'a [Arc<Sealed>],
}

impl Reader for GraphReader<'_> {
    ghost use Rattle.std.specs.Prelude.{◌≡◌, refl};
    ghost use Rattle.std.proofs.Common.{◌∙◌};
    ghost use Rattle.resident_graph.specs.Lists.{IsAnswer, answer_kept};

    ghost answers = { λ s q v. IsAnswer s.keys.now.keys s.values.now q v };

    ghost faults = { λ s q f. Unit {0} };

    ghost follows = { λ s t. (t.keys.now.keys ≡ s.keys.now.keys) × (t.values.now ≡ s.values.now) };

    ghost reflexive = { λ s. (refl, refl) };

    ghost transitive = { λ s t u f g. (g.0 ∙ f.0, g.1 ∙ f.1) };

    ghost kept = { λ s t q v f a. answer_kept s.keys.now.keys t.keys.now.keys s.values.now t.values.now q v f.0 f.1 a };

    fn read(&mut self, key: &Key) -> Result<Arc<Sealed>, ReadFault> {
        match place_of(self.keys, key) {
            Some(at) => shared(self.values, at, key),
            None => Err(ReadFault::NotHeld),
        }
    }
}

/// One more owner of the value at a place, if it is of the key's kind.
fn shared(values: &[Arc<Sealed>], at: usize, key: &Key) -> Result<Arc<Sealed>, ReadFault>
    ensures kind { IfOk result (λ a. IsOfKind key.now (arc_value a)) }
    ensures value { IfOk result (λ a. value_in values.now at ≡ arc_value a) }
{
    if at >= values.len() {
        return Err(ReadFault::NotHeld);
    }
    let sealed = &values[at];
    if sealed.value().kind() != key.kind() {
        return Err(ReadFault::NotHeld);
    }
    match Arc::try_clone(sealed) {
        Ok(answer) => Ok(answer),
        Err(_) => Err(ReadFault::OutOfMemory),
    }
}

/// The value of a key and the places that were read for it, or the key that lacks.
#[derive(Drop)]
pub(crate) enum Evaluated {
    Done(Arc<Sealed>, Vec<usize>),
    Lacks(Key),
}

/// The places of the keys that were read.
fn places_read(
    alloc: Global,
    keys: &IndexSet<Key>,
    reads: &[Read],
) -> Result<Vec<usize>, AllocError>
    ensures same { IfOk result (λ v. map (key_in keys.now.keys) v.items ≡ keys_told reads.now) }
    ensures inside { IfOk result (λ v. AllByRecursion (λ e. e < length keys.now.keys) v.items) }
{
    let mut places = Vec::with_capacity(alloc, reads.len())?;
    for read in reads {
        let Some(at) = place_of(keys, read.key()) else {
            return Err(AllocError);
        };
        places.push(at)?;
    }
    Ok(places)
}

/// The key that a run lacked.
fn lacked(alloc: Global, recorder: &Recorder<GraphReader<'_>>) -> Result<Evaluated, AllocError>
    ensures { IfOk result IsLacking }
{
    match recorder.refused_key() {
        Some(key) => Ok(Evaluated::Lacks(key.copy(alloc)?)),
        None => Err(AllocError),
    }
}

/// What came of a run that has a result.
fn done<R: Keeping>(
    alloc: Global,
    profile: Profile,
    inputs: &EditedInputs,
    keys: &IndexSet<Key>,
    values: &[Arc<Sealed>],
    key: &Key,
    recorder: &Recorder<GraphReader<'_>>,
    sealed: Arc<Sealed>,
) -> Result<Evaluated, AllocError>
    requires above { 0 < rank key.now }
    requires keys { recorder.now.inner.keys.now.keys ≡ keys.now.keys }
    requires values { recorder.now.inner.values.now ≡ values.now }
    requires along { Follows (R.programs profile key.now) recorder.now.told (arc_value sealed) }
    requires kind { IsOfKind key.now (arc_value sealed) }
    requires lower { AreLower key.now (keys_told recorder.now.told) }
    ensures { IfOk result (EvaluatedGives (R.programs profile) inputs.now keys.now.keys values.now
        key.now) }
{
    let reads = recorder.reads();
    let places = places_read(alloc, keys, reads)?;
    Ok(Evaluated::Done(sealed, places))
}

/// Runs a key over the values of now.
fn run<R: Keeping>(
    alloc: Global,
    runner: &mut R,
    profile: Profile,
    inputs: &EditedInputs,
    keys: &IndexSet<Key>,
    values: &[Arc<Sealed>],
    key: &Key,
    known: Option<&Arc<Sealed>>,
) -> Result<Evaluated, AllocError>
    requires { 0 < rank key.now }
    ensures { IfOk result (EvaluatedGives (R.programs profile) inputs.now keys.now.keys values.now
        key.now) }
{
    let mut recorder = Recorder::new(alloc, GraphReader { keys, values });
    match run_sealed(alloc, runner, profile, key, &mut recorder, known) {
        Ok(sealed) => { done::<R>(alloc, profile, inputs, keys, values, key, &recorder, sealed) }
        Err(_) => lacked(alloc, &recorder),
    }
}

/// The value of a key over the values of now: an input's, or the result of a run.
pub(crate) fn evaluate<R: Keeping>(
    alloc: Global,
    runner: &mut R,
    profile: Profile,
    inputs: &EditedInputs,
    keys: &IndexSet<Key>,
    values: &[Arc<Sealed>],
    key: &Key,
    known: Option<&Arc<Sealed>>,
) -> Result<Evaluated, AllocError>
    ensures { IfOk result (EvaluatedGives (R.programs profile) inputs.now keys.now.keys values.now
        key.now) }
{
    match inputs.get(key) {
        Some(sealed) => given(alloc, sealed),
        None => run(alloc, runner, profile, inputs, keys, values, key, known),
    }
}

/// The value of an input, for which nothing is read.
fn given(alloc: Global, sealed: &Arc<Sealed>) -> Result<Evaluated, AllocError>
    ensures { IfOk result (IsGiven (arc_value sealed.now)) }
{
    Ok(Evaluated::Done(share(sealed)?, Vec::new(alloc)))
}

/// One more owner of a value.
pub(crate) fn share(sealed: &Arc<Sealed>) -> Result<Arc<Sealed>, AllocError>
    ensures { IfOk result (λ a. arc_value a ≡ arc_value sealed.now) }
{
    Arc::try_clone(sealed)
}

//! A walk over a phrase, whose reads follow from what was found before.
ghost use Rattle.std.specs.Prelude.{◌≡◌, List, ℕ, IfOk, IfErr, option_copied};
ghost use Rattle.recorder.specs.Programs.{Goes, GivesUp, each};
ghost use Rattle.run_fixtures.specs.Programs.{name_step, signed_step, names_step, meet_step, phrase_step, part_step};
ghost use Rattle.run_fixtures.specs.View.{view_of};

use crate::sample::headers::{ask_header, ask_signature};
use crate::sample::phrase::Phrase;
use ordered_names::Name;
use recorder::{Reader, Recorder, RunFault};
use std::alloc::Global;

/// The type of a name: the name itself, if there is a file of this name.
fn walk_name<D: Reader>(
    alloc: Global,
    recorder: &mut Recorder<D>,
    name: &Name,
) -> Result<Option<Name>, RunFault>
    ensures ok { IfOk result (λ t. Goes (name_step name.now) recorder.old t recorder.new) }
    ensures err { IfErr result (λ e. GivesUp (name_step name.now) recorder.old e recorder.new) }
    ensures follows { D.follows recorder.old.inner recorder.new.inner }
{
    let sealed = ask_header(alloc, recorder, name)?;
    if sealed.value().header().is_some() {
        let found = name.copy(alloc)?;
        Ok(Some(found))
    } else {
        Ok(None)
    }
}

/// The second of two names, if the first has a signature with it.
fn meet_signed<D: Reader>(
    alloc: Global,
    recorder: &mut Recorder<D>,
    first: &Name,
    second: &Name,
) -> Result<Option<Name>, RunFault>
    ensures ok { IfOk result (λ t. Goes (signed_step first.now second.now) recorder.old t
        recorder.new) }
    ensures err { IfErr result (λ e. GivesUp (signed_step first.now second.now) recorder.old e
        recorder.new) }
    ensures follows { D.follows recorder.old.inner recorder.new.inner }
{
    let sealed = ask_signature(alloc, recorder, first, second)?;
    if sealed.value().signature().is_some() {
        let found = second.copy(alloc)?;
        Ok(Some(found))
    } else {
        Ok(None)
    }
}

/// The type that two names have together.
fn meet_names<D: Reader>(
    alloc: Global,
    recorder: &mut Recorder<D>,
    first: &Name,
    second: &Name,
) -> Result<Option<Name>, RunFault>
    ensures ok { IfOk result (λ t. Goes (names_step first.now second.now) recorder.old t
        recorder.new) }
    ensures err { IfErr result (λ e. GivesUp (names_step first.now second.now) recorder.old e
        recorder.new) }
    ensures follows { D.follows recorder.old.inner recorder.new.inner }
{
    if first.bytes() == second.bytes() {
        let found = first.copy(alloc)?;
        Ok(Some(found))
    } else {
        meet_signed(alloc, recorder, first, second)
    }
}

/// The type that two parts have together, by their own types.
fn meet_types<D: Reader>(
    alloc: Global,
    recorder: &mut Recorder<D>,
    first: Option<&Name>,
    second: Option<&Name>,
) -> Result<Option<Name>, RunFault>
    ensures ok { IfOk result (λ t. Goes
        (meet_step (option_copied first.entry) (option_copied second.entry)) recorder.old t
        recorder.new) }
    ensures err { IfErr result (λ e. GivesUp
        (meet_step (option_copied first.entry) (option_copied second.entry)) recorder.old e
        recorder.new) }
    ensures follows { D.follows recorder.old.inner recorder.new.inner }
{
    match first {
        None => Ok(None),
        Some(first) => match second {
            None => Ok(None),
            Some(second) => meet_names(alloc, recorder, first, second),
        },
    }
}

/// The type that two parts have together.
fn meet<D: Reader>(
    alloc: Global,
    recorder: &mut Recorder<D>,
    first: Option<Name>,
    second: Option<Name>,
) -> Result<Option<Name>, RunFault>
    ensures ok { IfOk result (λ t. Goes (meet_step first second) recorder.old t recorder.new) }
    ensures err { IfErr result (λ e. GivesUp (meet_step first second) recorder.old e recorder.new) }
    ensures follows { D.follows recorder.old.inner recorder.new.inner }
{
    meet_types(alloc, recorder, first.as_ref(), second.as_ref())
}

/// The type of a phrase.
#[cycle(walks)]
#[tactic(auto, unfolding(crate::specs::Programs::phrase_step, crate::specs::Programs::phrases_step))]
pub fn walk<D: Reader>(
    alloc: Global,
    recorder: &mut Recorder<D>,
    phrase: &Phrase,
) -> Result<Option<Name>, RunFault>
    ensures ok { IfOk result (λ t. Goes (phrase_step (view_of phrase.now)) recorder.old t
        recorder.new) }
    ensures err { IfErr result (λ e. GivesUp (phrase_step (view_of phrase.now)) recorder.old e
        recorder.new) }
    ensures follows { D.follows recorder.old.inner recorder.new.inner }
{
    match phrase {
        Phrase::Name(name) => walk_name(alloc, recorder, name),
        Phrase::Call(front, parts) => {
            let found = walk(alloc, recorder, front)?;
            walk_parts(alloc, recorder, parts, found)
        }
    }
}

/// The type of what was found and one more part.
#[cycle(walks)]
fn walk_part<D: Reader>(
    alloc: Global,
    recorder: &mut Recorder<D>,
    phrase: &Phrase,
    found: Option<Name>,
) -> Result<Option<Name>, RunFault>
    ensures ok { IfOk result (λ t. Goes (part_step (view_of phrase.now) found) recorder.old t
        recorder.new) }
    ensures err { IfErr result (λ e. GivesUp (part_step (view_of phrase.now) found) recorder.old
        e recorder.new) }
    ensures follows { D.follows recorder.old.inner recorder.new.inner }
{
    let next = walk(alloc, recorder, phrase)?;
    meet(alloc, recorder, found, next)
}

/// The type of what was found and all parts.
#[cycle(walks)]
fn walk_parts<D: Reader>(
    alloc: Global,
    recorder: &mut Recorder<D>,
    parts: &Vec<Phrase>,
    first: Option<Name>,
) -> Result<Option<Name>, RunFault>
    ensures ok { IfOk result (λ t. Goes (each (λ e. part_step (view_of e)) parts.now.items first)
        recorder.old t recorder.new) }
    ensures err { IfErr result (λ e. GivesUp
        (each (λ e. part_step (view_of e)) parts.now.items first)
        recorder.old e recorder.new) }
    ensures follows { D.follows recorder.old.inner recorder.new.inner }
{
    let mut found = first;
    for phrase in parts {
        found = walk_part(alloc, recorder, phrase, found)?;
    }
    Ok(found)
}

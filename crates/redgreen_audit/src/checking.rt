//! The check of one session over the previous one, without a run.
ghost use Rattle.std.specs.Prelude.{◌≡◌, ◌≢◌, ◌<◌, ◌↔◌, ℕ, List, [], Some, map, length, IsTrue, IfErr, MatchBool, OnOk, EachIndex, slice_index};
ghost use Rattle.redgreen_rules.specs.Sessions as rules;
ghost use Rattle.redgreen_rules.specs.Sessions.{Passes};
ghost use Rattle.redgreen_sessions.specs.declared.record.Mark.TheVariants.{Green};
ghost use Rattle.redgreen_sessions.specs.declared.record.Record.{Record as RecordValue};
ghost use Rattle.redgreen_sessions.specs.Marks.{previous_of};
ghost use Rattle.redgreen_sessions.specs.Views.{mark_of, entries_of};
ghost use Rattle.redgreen_audit.specs.Answering.{AreInside, AreAllInside, AreAllOnce};
ghost use Rattle.redgreen_audit.specs.Checks.{AreEarlier, HasReads, IsUnchanged, IsUnchangedAt, IsTakenFrom, IsGreenBy, PassesAt, PassEach, named, previous_at};
ghost use Rattle.redgreen_audit.specs.Refusals.{RecordWrong, EachWrong, SessionWrong};

use crate::fault::RecordFault;
use crate::keys::{are_distinct, first_repeated};
use redgreen_sessions::{Mark, Record};
use std::alloc::Global;

/// Why a session isn't checked to its end.
#[derive(Clone, Copy)]
pub(crate) enum Wrong {
    /// This record has this fault.
    Record(usize, RecordFault),
    /// Memory ran out.
    OutOfMemory,
}

/// Whether all of these places are before another one.
fn are_earlier(reads: &[usize], at: usize) -> bool
    ensures { IsTrue result ↔ AreEarlier reads.now at }
{
    reads.iter().all(|place| *place < at)
}

/// Whether the mark is that of an input.
fn is_input(mark: Mark) -> bool
    ensures { MatchBool result (mark_of mark ≡ rules.Input) (mark_of mark ≢ rules.Input) }
{
    match mark {
        Mark::Input(_) => true,
        Mark::Green(_) | Mark::Executed(_) => false,
    }
}

/// Whether the previous session has a record with the same key and the same value at this place.
fn is_unchanged_at(past: &[Record], place: usize, item: &Record) -> bool
    ensures { MatchBool result (IsUnchangedAt past.now place item.now)
        (IsUnchangedAt past.now place item.now → ⊥) }
{
    let Some(had) = past.get(place) else {
        return false;
    };
    if !had.key.equals(item.key.as_slice()) {
        return false;
    }
    had.value.equals(item.value.as_slice())
}

/// Whether the record at this place names that place of the previous session.
fn names(now: &[Record], place: usize, had: usize) -> bool
    requires { place < length now.now }
    ensures { MatchBool result (previous_at now.now place ≡ named had)
        (previous_at now.now place ≢ named had) }
{
    now[place].mark.previous() == Some(had)
}

/// Whether the records at the places of the reads name just these places of the previous session, in this order.
fn are_previous(now: &[Record], reads: &[usize], had: &[usize]) -> bool
    requires { AreInside now.now reads.now }
    ensures { MatchBool result (map (previous_at now.now) reads.now ≡ map named had.now)
        (map (previous_at now.now) reads.now ≢ map named had.now) }
{
    if reads.len() != had.len() {
        return false;
    }
    for (i, place) in reads.iter().enumerate() {
        if !names(now, *place, had[i]) {
            return false;
        }
    }
    true
}

/// Whether a green record is one that the previous session has at this place.
fn is_taken_from(past: &[Record], place: usize, now: &[Record], item: &Record) -> bool
    requires { AreInside now.now item.now.reads.items }
    ensures { MatchBool result (IsTakenFrom past.now now.now place item.now)
        (IsTakenFrom past.now now.now place item.now → ⊥) }
{
    let Some(had) = past.get(place) else {
        return false;
    };
    if is_input(had.mark) {
        return false;
    }
    are_previous(now, item.reads.as_slice(), had.reads.as_slice())
}

/// Checks the reads of a record, by their places.
fn check_reads(alloc: Global, at: usize, item: &Record) -> Result<(), Wrong>
    ensures reads { OnOk result (HasReads at item.now item.now.mark) }
    ensures faulty { (past now : List RecordValue) → IfErr result (RecordWrong past now at item.now) }
{
    match item.mark {
        Mark::Input(_) => {
            if !item.reads.is_empty() {
                return Err(Wrong::Record(at, RecordFault::InputWithReads));
            }
            Ok(())
        }
        Mark::Green(_) => {
            if !are_earlier(item.reads.as_slice(), at) {
                return Err(Wrong::Record(at, RecordFault::LaterRead));
            }
            Ok(())
        }
        Mark::Executed(_) => {
            if !are_earlier(item.reads.as_slice(), at) {
                return Err(Wrong::Record(at, RecordFault::LaterRead));
            }
            match are_distinct(alloc, item.reads.as_slice()) {
                Ok(true) => Ok(()),
                Ok(false) => Err(Wrong::Record(at, RecordFault::RepeatedRead)),
                Err(_) => Err(Wrong::OutOfMemory),
            }
        }
    }
}

/// Whether a record is unchanged, if it says so.
fn is_unchanged(past: &[Record], item: &Record) -> bool
    ensures { MatchBool result (IsUnchanged past.now item.now (previous_of item.now.mark))
        ((place : ℕ) × (previous_of item.now.mark ≡ Some place)
        × (IsUnchangedAt past.now place item.now → ⊥)) }
{
    match item.mark.previous() {
        None => true,
        Some(place) => is_unchanged_at(past, place, item),
    }
}

/// Whether a record that is marked as green is that of the previous session.
fn is_green(past: &[Record], now: &[Record], item: &Record) -> bool
    requires { AreInside now.now item.now.reads.items }
    ensures { MatchBool result (IsGreenBy past.now now.now item.now item.now.mark)
        ((place : ℕ) × (item.now.mark ≡ Green place)
        × (IsTakenFrom past.now now.now place item.now → ⊥)) }
{
    match item.mark {
        Mark::Input(_) | Mark::Executed(_) => true,
        Mark::Green(place) => is_taken_from(past, place, now, item),
    }
}

/// Checks all of a record but its key and its run.
fn check_record(
    alloc: Global,
    past: &[Record],
    now: &[Record],
    at: usize,
    item: &Record,
) -> Result<(), Wrong>
    requires { at < length now.now }
    ensures passes { OnOk result (PassesAt past.now now.now at item.now) }
    ensures faulty { IfErr result (RecordWrong past.now now.now at item.now) }
{
    match check_reads(alloc, at, item) {
        Ok(()) => {
            if !is_unchanged(past, item) {
                return Err(Wrong::Record(at, RecordFault::Changed));
            }
            if !is_green(past, now, item) {
                return Err(Wrong::Record(at, RecordFault::NotGreen));
            }
            Ok(())
        }
        Err(wrong) => Err(wrong),
    }
}

/// Checks each record of a session over the previous one, but not keys and runs.
fn check_each(alloc: Global, past: &[Record], now: &[Record]) -> Result<(), Wrong>
    ensures passes { OnOk result (PassEach past.now now.now) }
    ensures faulty { IfErr result (EachWrong past.now now.now) }
{
    for (n, item) in now.iter().enumerate() {
        match check_record(alloc, past, now, n, item) {
            Ok(()) => {}
            Err(wrong) => return Err(wrong),
        }
    }
    Ok(())
}

/// Checks a session over the previous one, keys first, but not its runs.
#[tactic(auto, using(crate::proofs::Passing::all_pass, crate::proofs::Passing::all_inside, crate::proofs::Passing::all_once, crate::proofs::Differing::each_wrong))]
pub(crate) fn check(alloc: Global, past: &[Record], now: &[Record]) -> Result<(), Wrong>
    ensures passes { OnOk result (Passes (entries_of past.now) [] (entries_of now.now)) }
    ensures inside { OnOk result (AreAllInside now.now) }
    ensures once { OnOk result (AreAllOnce now.now) }
    ensures faulty { IfErr result (SessionWrong past.now now.now) }
{
    match first_repeated(alloc, now) {
        Ok(None) => match check_each(alloc, past, now) {
            Ok(()) => Ok(()),
            Err(wrong) => Err(wrong),
        },
        Ok(Some(n)) => Err(Wrong::Record(n, RecordFault::RepeatedKey)),
        Err(_) => Err(Wrong::OutOfMemory),
    }
}

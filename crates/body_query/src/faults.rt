//! Lists of diagnostics whose places have numbers in four bytes.
ghost use Rattle.std.specs.Prelude.{◌≡◌, ◌++◌, ◌∷◌, [], IfOk, OnOk};
ghost use Rattle.answer_bytes.specs.Storable.{AreClassFaults};
ghost use Rattle.query_rules.specs.Items.{fault_set as fault_set_of};
ghost use Rattle.body_query.specs.Bounds.{bound, bounded_place};
ghost use Rattle.body_query.specs.Body.{faults_of_mistakes};

use answer_bytes::Faults;
use mj_answer::{Code, Diagnostic, fault_set};
use mj_phrases::Mistake;
use mj_tree::Place;
use ordered_names::Name;
use std::alloc::{AllocError, Global};

/// The number in four bytes. Numbers above `u32::MAX` saturate.
fn bound(number: usize) -> usize
    ensures { result ≡ bound number }
{
    number.min(0xffff_ffff)
}

/// The place with its number in four bytes.
fn bounded_place(place: Place) -> Place
    ensures { result ≡ bounded_place place }
{
    match place {
        Place::ClassOf(file, number) => Place::ClassOf(file, bound(number)),
        Place::Field(number) => Place::Field(bound(number)),
        Place::Method(number) => Place::Method(bound(number)),
        Place::Inside(method, token) => Place::Inside(method, bound(token)),
        other => other,
    }
}

/// One more diagnostic. Numbers above `u32::MAX` saturate.
pub fn note_fault(faults: &mut Vec<Diagnostic>, place: Place, code: Code) -> Result<(), AllocError>
    ensures { OnOk result
        (faults.new.items ≡ faults.old.items
        ++ record { place = bounded_place place; code = code } ∷ []) }
{
    faults.push(Diagnostic {
        place: bounded_place(place),
        code,
    })?;
    Ok(())
}

/// The diagnostics for mistakes in a method.
pub(crate) fn faults_of_mistakes(
    alloc: Global,
    method: &Name,
    mistakes: &[Mistake],
) -> Result<Vec<Diagnostic>, AllocError>
    ensures value { IfOk result (λ faults. faults.items ≡ faults_of_mistakes method.now mistakes.now) }
    ensures places { IfOk result (λ faults. AreClassFaults faults.items) }
{
    let mut faults = Vec::new(alloc);
    for mistake in mistakes {
        let place = Place::Inside(method.copy(alloc)?, mistake.mark);
        note_fault(&mut faults, place, mistake.code)?;
    }
    Ok(faults)
}

/// These diagnostics of a class as a set.
pub fn class_fault_set(faults: Vec<Diagnostic>) -> Faults
    requires { AreClassFaults faults.items }
    ensures { result ≡ fault_set_of faults.items }
{
    Faults::new(fault_set(faults))
}

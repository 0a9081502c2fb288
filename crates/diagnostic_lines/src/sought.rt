//! The files of which the tokens are kept while places are sought there. Only time and memory depend on which these are: a
//! place in another file is found in tokens that are cut for it.
ghost use Rattle.std.specs.Prelude.{◌≡◌, length, IfOk, OnOk};

use crate::sources::ReadText;
use mj_answer::{Answer, ClassAnswer, Diagnostic};
use mj_classes::Declarations;
use mj_tree::Place;
use ordered_names::Name;
use std::alloc::{AllocError, Global};
use std::collections::BTreeMap;

/// The name of the file in which a diagnostic of the project stands.
fn file_of(place: &Place) -> Option<&Name> {
    match place {
        Place::File(name) | Place::ClassOf(name, _) => Some(name),
        Place::Project | Place::Class | Place::Field(_) | Place::Method(_) | Place::Inside(_, _) =>
            None,
    }
}

/// Counts one more for the file with this number.
fn count(counts: &mut [usize], number: usize)
    ensures { length counts.new ≡ length counts.old }
{
    if number < counts.len() {
        counts[number] = counts[number].saturating_add(1);
    }
}

/// Counts the diagnostics of the project in each file.
fn count_faults(counts: &mut [usize], numbers: &BTreeMap<Name, usize>, faults: &[Diagnostic])
    ensures { length counts.new ≡ length counts.old }
{
    for fault in faults {
        if let Some(name) = file_of(&fault.place) {
            if let Some(number) = numbers.get(name) {
                count(counts, *number);
            }
        }
    }
}

/// Counts the classes that have diagnostics in each file.
fn count_classes(counts: &mut [usize], declarations: &Declarations, classes: &[ClassAnswer])
    ensures { length counts.new ≡ length counts.old }
{
    for class in classes {
        if !class.faults().is_empty() {
            if let Some(declared) = declarations.find(class.name()) {
                count(counts, declared.file);
            }
        }
    }
}

/// The files, each with its tokens if it has been counted more than once.
fn keep_counted<'a>(
    alloc: Global,
    texts: &[ReadText<'a>],
    counts: &[usize],
) -> Result<Vec<ReadText<'a>>, AllocError>
    requires { length counts.now ≡ length texts.now }
    ensures { IfOk result (λ kept. kept.items ≡ texts.now) }
{
    let mut kept = Vec::new(alloc);
    for (number, text) in texts.iter().enumerate() {
        kept.push(text.with_tokens(alloc, counts[number] > 1)?)?;
    }
    Ok(kept)
}

/// The files, each with its tokens if more than one class or diagnostic of the project is sought there.
pub fn keep_sought<'a>(
    alloc: Global,
    texts: &[ReadText<'a>],
    numbers: &BTreeMap<Name, usize>,
    declarations: &Declarations,
    answer: &Answer,
) -> Result<Vec<ReadText<'a>>, AllocError>
    ensures { IfOk result (λ kept. kept.items ≡ texts.now) }
{
    let mut counts = vec![in alloc; 0; texts.len()]?;
    count_faults(&mut counts, numbers, answer.faults());
    count_classes(&mut counts, declarations, answer.classes());
    keep_counted(alloc, texts, &counts)
}

//! Values that are made of copies of their parts.

ghost use Rattle.std.specs.Prelude.{◌≡◌, ◌↔◌, IsTrue, IfOk};
ghost use Rattle.std.specs.Arc.{arc_value};
ghost use Rattle.mj_answer.specs.Text.{text_of};
ghost use Rattle.result_bytes.specs.declared.value.Value.TheVariants.{Header as of_header, Method as of_method, Sig as of_signature, Tree as of_tree};
ghost use Rattle.result_bytes.specs.Values.{IsValue, canon};
ghost use Rattle.tree_bytes.specs.NamedBodies.{body_named};
ghost use Rattle.answer_fixtures.specs.Telling.{Tell, bare, IsCopied, IsPrintedAs, IsPrintOf, NamesBody};

use crate::unfit::Unfit;
use crate::values::{bytes_of, is_encoded, share, shared_of};
use item_ids::Kind;
use mj_answer::{Answer, ClassAnswer, copy_faults, render};
use mj_tree::{Field, copy_fields, copy_types};
use ordered_names::Name;
use result_bytes::{Header, Signature, Value};
use std::alloc::{AllocError, Global};
use tree_bytes::{Body, Tree};

/// A header of copies of the fields.
fn copy_header(alloc: Global, header: &Header) -> Result<Value, AllocError>
    ensures { IfOk result (λ copy. copy ≡ bare (of_header (Some header.now))) }
{
    let fields = copy_fields(alloc, header.fields())?;
    let copy = Header::new(header.is_main(), None, fields, Vec::new(alloc));
    Ok(Value::Header(Some(copy)))
}

/// A signature of copies of the types.
fn copy_signature(alloc: Global, signature: &Signature) -> Result<Value, AllocError>
    ensures { IfOk result (λ copy. copy ≡ of_signature (Some signature.now)) }
{
    let returns = signature.returns().copy(alloc)?;
    let formals = copy_types(alloc, signature.formals())?;
    Ok(Value::Sig(Some(Signature::new(formals, returns))))
}

fn copy_body(alloc: Global, body: &Body) -> Result<Value, AllocError>
    ensures { IfOk result (λ copy. copy ≡ of_method (Some body.now)) }
{
    Ok(Value::Method(Some(body.copy(alloc)?)))
}

/// The header without its superclass and methods, the signature or the body, of copies of its parts.
fn copy_of(alloc: Global, value: &Value) -> Result<Value, Unfit>
    ensures { IfOk result (λ copy. copy ≡ bare value.now) }
{
    match value {
        Value::Header(Some(header)) => Ok(copy_header(alloc, header)?),
        Value::Sig(Some(signature)) => Ok(copy_signature(alloc, signature)?),
        Value::Method(Some(body)) => Ok(copy_body(alloc, body)?),
        _ => Err(Unfit),
    }
}

/// Whether the digits spell a value, and its copy too.
pub fn is_copied(alloc: Global, kind: Kind, digits: &str) -> Result<bool, Unfit>
    ensures { IfOk result (IsCopied kind digits.now) }
{
    let value = shared_of(alloc, kind, digits)?;
    has_spelled_copy(alloc, &value, digits)
}

/// Whether the digits spell the value's copy.
fn has_spelled_copy(alloc: Global, value: &Value, digits: &str) -> Result<bool, Unfit>
    ensures { IfOk result (λ b. IsTrue b ↔ Tell digits.now (canon (bare value.now))) }
{
    let copy = share(alloc, copy_of(alloc, value)?)?;
    are_encoded(alloc, &copy, digits)
}

/// Whether the digits spell the value.
fn are_encoded(alloc: Global, value: &Value, digits: &str) -> Result<bool, Unfit>
    ensures { IfOk result (λ b. IsTrue b ↔ Tell digits.now (canon value.now)) }
{
    let bytes = bytes_of(alloc, digits)?;
    Ok(is_encoded(alloc, value, bytes.as_slice())?)
}

fn copy_class(alloc: Global, class: &ClassAnswer) -> Result<ClassAnswer, AllocError>
    ensures { IfOk result (λ copy. copy ≡ class.now) }
{
    let name = class.name().copy(alloc)?;
    with_table(alloc, name, class)
}

/// The class of this name, with copies of the table and the diagnostics.
fn with_table(alloc: Global, name: Name, class: &ClassAnswer) -> Result<ClassAnswer, AllocError>
    ensures { IfOk result (λ copy. name ≡ class.now.name → copy ≡ class.now) }
{
    let table = class.table().copy(alloc)?;
    Ok(ClassAnswer::new(name, table, copy_faults(alloc, class.faults())?))
}

fn copy_classes(alloc: Global, classes: &[ClassAnswer]) -> Result<Vec<ClassAnswer>, AllocError>
    ensures { IfOk result (λ copies. copies.items ≡ classes.now) }
{
    let mut copies = Vec::new(alloc);
    for class in classes {
        copies.push(copy_class(alloc, class)?)?;
    }
    Ok(copies)
}

fn copy_answer(alloc: Global, answer: &Answer) -> Result<Answer, AllocError>
    ensures { IfOk result (λ copy. copy ≡ answer.now) }
{
    let classes = copy_classes(alloc, answer.classes())?;
    Ok(Answer::new(copy_faults(alloc, answer.faults())?, classes))
}

/// Whether a copy of the answer is printed as this text.
fn is_copy_text(alloc: Global, answer: &Answer, text: &str) -> Result<bool, AllocError>
    ensures { IfOk result (λ b. IsTrue b ↔ (text_of answer.now ≡ text.now)) }
{
    let copy = copy_answer(alloc, answer)?;
    Ok(render(alloc, &copy)?.as_str() == text)
}

/// Whether the value is an answer whose copy is printed as this text.
fn is_text_again(alloc: Global, value: &Value, text: &str) -> Result<bool, AllocError>
    ensures { IfOk result (λ b. IsTrue b ↔ IsPrintedAs value.now text.now) }
{
    match value {
        Value::Answer(whole) => is_copy_text(alloc, whole.answer(), text),
        _ => Ok(false),
    }
}

/// Whether the digits spell an answer whose copy is printed as this text.
pub fn is_printed_again(alloc: Global, digits: &str, text: &str) -> Result<bool, Unfit>
    ensures { IfOk result (IsPrintOf digits.now text.now) }
{
    let value = shared_of(alloc, Kind::Answer, digits)?;
    Ok(is_text_again(alloc, &value, text)?)
}

fn name_of(alloc: Global, text: &str) -> Result<Name, Unfit>
    ensures { IfOk result (λ name. name ≡ text.now) }
{
    match Name::try_new(alloc, text) {
        Ok(Some(name)) => Ok(name),
        _ => Err(Unfit),
    }
}

/// The body that a class and a method name in the tree.
fn body_of(alloc: Global, tree: &Tree, class: &str, method: &str) -> Result<Value, Unfit>
    ensures { IfOk result (λ body. body ≡ of_method (body_named tree.now class.now method.now)) }
{
    let class = name_of(alloc, class)?;
    let method = name_of(alloc, method)?;
    Ok(Value::Method(tree.body(alloc, &class, &method)?))
}

/// Whether the digits spell the body that a class and a method name in the tree.
fn is_body(
    alloc: Global,
    tree: &Tree,
    class: &str,
    method: &str,
    digits: &str,
) -> Result<bool, Unfit>
    ensures { IfOk result (λ b. IsTrue b
        ↔ Tell digits.now (canon (of_method (body_named tree.now class.now method.now)))) }
{
    let body = share(alloc, body_of(alloc, tree, class, method)?)?;
    are_encoded(alloc, &body, digits)
}

/// The tree of a file that the value is.
fn tree_in(value: &Value) -> Result<&Tree, Unfit>
    ensures { IfOk result (λ tree. value.now ≡ of_tree (Some tree.now)) }
{
    match value {
        Value::Tree(Some(tree)) => Ok(tree),
        _ => Err(Unfit),
    }
}

/// Whether `body` spells what a class and a method name in the tree that `tree` spells.
pub fn has_body(
    alloc: Global,
    tree: &str,
    class: &str,
    method: &str,
    body: &str,
) -> Result<bool, Unfit>
    ensures { IfOk result (NamesBody tree.now class.now method.now body.now) }
{
    let value = shared_of(alloc, Kind::Tree, tree)?;
    is_body(alloc, tree_in(&value)?, class, method, body)
}

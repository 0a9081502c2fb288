//! Keys from the texts of their names.
ghost use Rattle.std.specs.Prelude.{◌≡◌, ◌↔◌, IsSome, IsTrue, IfOk, IfSome};
ghost use Rattle.std.specs.Option.{option_copied};
ghost use Rattle.std.specs.declared.cmp.Ordering.TheVariants.{Less};
ghost use Rattle.item_ids.specs.declared.key.Key.{Key as KeyValue};
ghost use Rattle.item_ids.specs.Keys.{kind_of, key_cmp};
ghost use Rattle.answer_fixtures.specs.Telling.{name_told, IsKeyOf, FitTold, AreAlike, IsOrderOf};

use crate::unfit::Unfit;
use item_ids::{Key, Kind, keys_in_order};
use ordered_names::Name;
use std::alloc::Global;

/// The kind of a key, its class or file, and its method, each empty if there is none.
#[derive(Clone, Copy, Debug)]
pub struct KeyParts<'a>(pub Kind, pub &'a str, pub &'a str);

/// The name of this text, or none if it is empty.
fn perhaps_name(alloc: Global, text: &str) -> Result<Option<Name>, Unfit>
    ensures { IfOk result (λ name. name ≡ name_told text.now) }
{
    if text.is_empty() {
        return Ok(None);
    }
    match Name::try_new(alloc, text) {
        Ok(Some(name)) => Ok(Some(name)),
        _ => Err(Unfit),
    }
}

/// The key, or `None` if the names don't fit its kind.
fn perhaps_key(alloc: Global, asked: KeyParts) -> Result<Option<Key>, Unfit>
    ensures made { IfOk result (λ key. IsSome key ↔ FitTold asked.entry) }
    ensures told { IfOk result (λ key. IfSome key (IsKeyOf asked.entry)) }
{
    let class = perhaps_name(alloc, asked.1)?;
    match perhaps_name(alloc, asked.2) {
        Ok(member) => Ok(Key::new(asked.0, class, member)),
        Err(fault) => Err(fault),
    }
}

/// The key of this kind with these names.
pub fn key_of(alloc: Global, asked: KeyParts) -> Result<Key, Unfit>
    ensures kind { IfOk result (λ key. kind_of key ≡ asked.entry.0) }
    ensures told { IfOk result (IsKeyOf asked.entry) }
{
    match perhaps_key(alloc, asked) {
        Ok(Some(key)) => Ok(key),
        _ => Err(Unfit),
    }
}

/// Whether the names fit the kind.
pub fn is_made(alloc: Global, asked: KeyParts) -> Result<bool, Unfit>
    ensures { IfOk result (λ b. IsTrue b ↔ FitTold asked.entry) }
{
    let key = perhaps_key(alloc, asked)?;
    Ok(key.is_some())
}

/// Whether the name has this text, or is missing if the text is empty.
fn is_name(name: Option<&Name>, text: &str) -> bool
    ensures { IsTrue result ↔ (option_copied name.entry ≡ name_told text.now) }
{
    match name {
        Some(name) => name.bytes() == text.as_bytes(),
        None => text.is_empty(),
    }
}

/// Whether it is the key of this kind with these names.
pub fn is_key(key: &Key, asked: KeyParts) -> bool
    ensures { IsTrue result ↔ IsKeyOf asked.entry key.now }
{
    key.kind() == asked.0 && is_name(key.class(), asked.1) && is_name(key.member(), asked.2)
}

/// Whether the key made of the first has the kind and the names of the second.
pub fn is_named(alloc: Global, asked: KeyParts, other: KeyParts) -> Result<bool, Unfit>
    ensures { IfOk result (λ b. IsTrue b ↔ AreAlike asked.entry other.entry) }
{
    let key = key_of(alloc, asked)?;
    Ok(is_key(&key, other))
}

/// Whether the first key is less than the second, and differs from it.
pub fn is_less(alloc: Global, lesser: KeyParts, greater: KeyParts) -> Result<bool, Unfit>
    ensures { IfOk result (IsOrderOf lesser.entry greater.entry) }
{
    let key = key_of(alloc, lesser)?;
    is_less_than(alloc, &key, greater)
}

/// Whether the key is less than the one of this kind with these names, and differs from it.
fn is_less_than(alloc: Global, key: &Key, greater: KeyParts) -> Result<bool, Unfit>
    ensures { IfOk result (λ b. (other : KeyValue) × IsKeyOf greater.entry other
        × (IsTrue b ↔ (key_cmp key.now other ≡ Less))) }
{
    let other = key_of(alloc, greater)?;
    Ok(is_below(key, &other))
}

/// Whether the first key is less than the second, and differs from it.
fn is_below(key: &Key, other: &Key) -> bool
    ensures { IsTrue result ↔ (key_cmp key.now other.now ≡ Less) }
{
    *key < *other && *key != *other
}

/// Whether a copy of the first key equals the second.
pub fn is_copy(alloc: Global, asked: KeyParts, other: KeyParts) -> Result<bool, Unfit>
    ensures { IfOk result (λ b. IsTrue b ↔ AreAlike asked.entry other.entry) }
{
    let key = key_of(alloc, asked)?;
    equals_named(alloc, &key, other)
}

/// Whether a copy of the key equals the one of this kind with these names.
fn equals_named(alloc: Global, key: &Key, asked: KeyParts) -> Result<bool, Unfit>
    ensures { IfOk result (λ b. IsTrue b ↔ IsKeyOf asked.entry key.now) }
{
    // Keys are equal if their kinds, classes and members are.
    keys_in_order();
    let other = key_of(alloc, asked)?;
    equals_copy(alloc, key, &other)
}

/// Whether a copy of the key equals the other one.
fn equals_copy(alloc: Global, key: &Key, other: &Key) -> Result<bool, Unfit>
    ensures { IfOk result (λ b. IsTrue b ↔ (key.now ≡ other.now)) }
{
    // `==` on keys is equality.
    keys_in_order();
    let copy = key.copy(alloc)?;
    Ok(copy == *other)
}

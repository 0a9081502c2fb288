//! Laws of all keys.
ghost use Rattle.std.specs.Prelude.{◌≡◌, ◌↔◌, ◌<◌, IsTrue, IfSome};
ghost use Rattle.std.specs.Option.{option_copied};
ghost use Rattle.std.specs.Ordering.{eq_by_cmp};
ghost use Rattle.std.specs.Cmp.{IsTotalOrder};
ghost use Rattle.std.specs.declared.cmp.Ordering.TheVariants.{Less, Equal};
ghost use Rattle.steps_keys.specs.declared.key.Key.{Key};
ghost use Rattle.steps_keys.specs.declared.kind.Kind.{Kind};
ghost use Rattle.steps_keys.specs.Kinds.{number_of, rank_of};
ghost use Rattle.steps_keys.specs.Keys.{kind_of, class_of, member_of, key_cmp, IsKey};
ghost use Rattle.byte_readers.specs.Names.{IsName};

use crate::key::Key;
use byte_readers::check_name;
use ordered_names::Name;

/// A key's type keeps that its names are names.
pub fn is_key(key: &Key)
    ensures { IsKey key.now }
{
    check_perhaps_name(key.class());
    check_perhaps_name(key.member());
}

/// A name that is given is a name: a text of 1 to 255 bytes.
fn check_perhaps_name(name: Option<&Name>)
    ensures { IfSome (option_copied name.entry) IsName }
{
    if let Some(name) = name {
        check_name(name);
    }
}

/// Keys are totally ordered. Keys that the order doesn't tell apart are equal; so are keys with equal kind, class and
/// member, and keys that `==` calls equal.
pub fn keys_in_order()
    ensures total { IsTotalOrder key_cmp }
    ensures exact { (a b : Key) → (key_cmp a b ≡ Equal) ↔ (a ≡ b) }
    ensures same { (a b : Key) → IsTrue (eq_by_cmp key_cmp a b) ↔ (a ≡ b) }
    ensures apart { (a b : Key) → kind_of a ≡ kind_of b → class_of a ≡ class_of b
        → member_of a ≡ member_of b
        → a ≡ b }
{}

/// Kinds have different numbers, which rise with the rank, and a key of lower rank is a lesser key.
pub fn ranks_in_order()
    ensures apart { (a b : Kind) → number_of a ≡ number_of b → a ≡ b }
    ensures rising { (a b : Kind) → rank_of a < rank_of b → number_of a < number_of b }
    ensures lesser { (a b : Key) → rank_of (kind_of a) < rank_of (kind_of b) → key_cmp a b ≡ Less }
{}

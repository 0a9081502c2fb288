//! Laws of names.
ghost use Rattle.std.specs.Prelude.{◌≡◌, ◌↔◌, ℕ, List, IsTrue};
ghost use Rattle.std.specs.Cmp.{IsTotalOrder};
ghost use Rattle.std.specs.declared.cmp.Ordering.TheVariants.{Equal};
ghost use Rattle.ordered_names.specs.Order.{NameBefore, IsStrictTotalOrder, OneList};

use crate::name::Name;

/// Names are equal if their texts are; their order is total, and ties only equal names. So of two names that differ one
/// comes before the other, and there is one ascending list of the same names.
pub fn name_laws()
    ensures equality { (m n : List ℕ) → IsTrue (⟦<Name as PartialEq>⟧.eq m n) ↔ (m ≡ n) }
    ensures order { IsTotalOrder ⟦<Name as Ord>⟧.cmp }
    ensures ties { (m n : List ℕ) → ⟦<Name as Ord>⟧.cmp m n ≡ Equal → m ≡ n }
    ensures before { IsStrictTotalOrder NameBefore }
    ensures one { OneList (List ℕ) NameBefore }
{}

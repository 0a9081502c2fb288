//! Lists that are sets: each element once, in ascending order.
ghost use Rattle.std.specs.Prelude.{◌≡◌, ◌↔◌, ℕ, List, true, Contains};
ghost use Rattle.std.specs.List.Sorted.{IsStrictlySortedBy};
ghost use Rattle.mj_answer.specs.declared.diagnostic.Diagnostic.{Diagnostic};
ghost use Rattle.ordered_names.specs.Order.{NameBefore, IsAscendingBy};
ghost use Rattle.mj_answer.specs.Order.{IsAscending};

use crate::diagnostic::Diagnostic;
use ordered_names::Name;

/// The same elements, each once, in ascending order.
pub fn ascending<T: Ord + Drop>(items: Vec<T>) -> Vec<T>
    requires { (a b : T) → T.eq a b ≡ true → a ≡ b }
    ensures ascending { IsStrictlySortedBy T.cmp result.items }
    ensures same { (x : T) → Contains result.items x ↔ Contains items.items x }
{
    let mut items = items;
    items.sort_unstable();
    items.dedup();
    items
}

/// These diagnostics as a set.
pub fn fault_set(faults: Vec<Diagnostic>) -> Vec<Diagnostic>
    ensures ascending { IsAscending result.items }
    ensures same { (fault : Diagnostic)
        → Contains result.items fault ↔ Contains faults.items fault }
{
    ascending(faults)
}

/// These names as a set.
pub fn name_set(names: Vec<Name>) -> Vec<Name>
    ensures ascending { IsAscendingBy NameBefore result.items }
    ensures same { (name : List ℕ) → Contains result.items name ↔ Contains names.items name }
{
    ascending(names)
}

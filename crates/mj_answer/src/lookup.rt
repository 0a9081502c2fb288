//! Rows in ascending order of their names, found by binary search.
ghost use Rattle.std.specs.Prelude.{◌≡◌, ℕ, List, position, find};
ghost use Rattle.std.specs.Option.{option_copied};
ghost use Rattle.std.specs.Str.{bytes_eq};
ghost use Rattle.ordered_names.specs.Order.{IsAscendingByName};

use crate::table::{ClassAnswer, FieldRow, MethodRow};
use ordered_names::Name;

/// What has a name.
pub trait Named {
    ghost name_of: { Self → List ℕ };

    /// Its name.
    fn name(&self) -> &Name
        ensures { result.now ≡ name_of self.now };
}

impl Named for Name {
    ghost name_of = { λ name. name };

    fn name(&self) -> &Name {
        self
    }
}

impl Named for FieldRow {
    ghost name_of = { λ row. row.name };

    fn name(&self) -> &Name {
        &self.name
    }
}

impl Named for MethodRow {
    ghost name_of = { λ row. row.name };

    fn name(&self) -> &Name {
        MethodRow::name(self)
    }
}

impl Named for ClassAnswer {
    ghost name_of = { λ class. class.name };

    fn name(&self) -> &Name {
        ClassAnswer::name(self)
    }
}

/// The index of the item with this name, or `None` if none has it.
pub fn position_by_name<T: Named>(items: &[T], name: &Name) -> Option<usize>
    requires { IsAscendingByName T.name_of items.now }
    ensures { result ≡ position (λ item. bytes_eq (T.name_of item) name.now) items.now }
{
    items.binary_search_by(|item| item.name().cmp(name)).ok()
}

/// The item with this name, or `None` if none has it.
pub fn find_by_name<'a, T: Named>(items: &'a [T], name: &Name) -> Option<&'a T>
    requires { IsAscendingByName T.name_of items.now }
    ensures { option_copied result ≡ find (λ item. bytes_eq (T.name_of item) name.now) items.now }
{
    let at = position_by_name(items, name)?;
    items.get(at)
}

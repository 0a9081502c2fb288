//! Whether two files declare the same.
ghost use Rattle.std.specs.Prelude.{◌≡◌, ◌&&◌, Some, map, option_copied};
ghost use Rattle.tree_bytes.specs.Stored.{stored_file};
ghost use Rattle.kept_laws.specs.Parts.{declared_in};
ghost use Rattle.kept_laws.specs.Tests.{same_names, same_declared};
ghost use Rattle.kept_results.specs.Mains.{same_main};

use tree_bytes::{StoredClass, StoredFile, StoredMain};

/// Whether two lists of classes have the same names in the same order.
fn have_same_names(old: &[StoredClass], new: &[StoredClass]) -> bool
    ensures { result ≡ same_names (map (λ class. class.name) old.now)
        (map (λ class. class.name) new.now) }
{
    if old.len() != new.len() {
        return false;
    }
    for (number, class) in old.iter().enumerate() {
        if class.name != new[number].name {
            return false;
        }
    }
    true
}

/// Whether two files have main classes of one name, or none.
fn have_same_main(old: Option<&StoredMain>, new: Option<&StoredMain>) -> bool
    ensures { result ≡ same_main (option_copied old.entry) (option_copied new.entry) }
{
    match old {
        Some(old) => match new {
            Some(new) => old.name() == new.name(),
            None => false,
        },
        None => new.is_none(),
    }
}

/// Whether two files have main classes of one name or none, and classes of the same names in the same order.
fn have_same_classes(old: &StoredFile, new: &StoredFile) -> bool
    ensures { result ≡ (same_main old.now.main new.now.main
        && same_names (map (λ class. class.name) old.now.classes.items)
        (map (λ class. class.name) new.now.classes.items)) }
{
    have_same_main(old.main.as_ref(), new.main.as_ref())
        && have_same_names(&old.classes, &new.classes)
}

/// Whether two files declare the same.
pub(crate) fn roots_declare_same(old: &StoredFile, new: &StoredFile) -> bool
    ensures { result ≡ same_declared (declared_in (Some (stored_file old.now)))
        (declared_in (Some (stored_file new.now))) }
{
    have_same_classes(old, new)
}

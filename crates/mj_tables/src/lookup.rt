//! Look-ups in the tables, by binary search.
ghost use Rattle.std.specs.Prelude.{◌≡◌, drop, Some, option_map};
ghost use Rattle.mj_members.specs.Classes.{class_ref_view, field_member_view, method_member_view};
ghost use Rattle.mj_classes.specs.Declarations.{decl};
ghost use Rattle.mj_classes.specs.Index.{declared_in};
ghost use Rattle.mj_classes.specs.Chains.{ancestry};
ghost use Rattle.mj_classes.specs.Members.{nearest, own_method, field_of, method_of};

use crate::tables::MemberTables;
use mj_answer::find_by_name;
use mj_classes::{ClassRef, FieldMember, MethodMember};
use ordered_names::Name;

impl<'a> MemberTables<'a> {
    /// The nearest field of this name that a class has.
    pub fn field(&self, class: &Name, name: &Name) -> Option<FieldMember<'a>>
        ensures { option_map field_member_view result
            ≡ field_of (declared_in self.now) class.now name.now }
    {
        let table = self.table(class)?;
        find_by_name(&table.fields, name).copied()
    }

    /// The nearest method of this name that a class has.
    pub fn method(&self, class: &Name, name: &Name) -> Option<MethodMember<'a>>
        ensures { option_map method_member_view result
            ≡ method_of (declared_in self.now) class.now name.now }
    {
        let table = self.table(class)?;
        find_by_name(&table.methods, name).copied()
    }

    /// The nearest method of this name behind a class in its chain. In a ring the superclass has the methods of the
    /// class itself, too, which aren't behind it.
    pub fn method_behind(&self, class: &ClassRef, name: &Name) -> Option<MethodMember<'a>>
        requires { decl (declared_in self.now) (class_ref_view class.now).name
            ≡ Some (class_ref_view class.now) }
        ensures { option_map method_member_view result
            ≡ nearest (own_method name.now)
            (drop 1 (ancestry (declared_in self.now) (class_ref_view class.now).name)) }
    {
        let method = self.method(class.superclass()?, name)?;
        if method.owner == class.name() {
            return None;
        }
        Some(method)
    }
}

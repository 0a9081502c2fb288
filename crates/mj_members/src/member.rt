//! The members that classes declare, in tables by name.
ghost use Rattle.std.specs.Prelude.{◌≡◌, ◌++◌, map, IfOk, OnOk};
ghost use Rattle.std.specs.BTreeMap.{values, IsOrdered};
ghost use Rattle.std.specs.Ordering.{nat_cmp};
ghost use Rattle.std.specs.Cmp.Lexicographic.{slice_cmp};
ghost use Rattle.mj_members.specs.Rows.{field_rows, method_rows, SayAlike};
ghost use Rattle.mj_members.specs.Tables.{own_rows, named_rows, fields_along, methods_along, fields_over, methods_over};
ghost use Rattle.mj_members.specs.Classes.{classes_view, class_ref_view, field_member_view, method_member_view};

use crate::class::ClassRef;
use mj_answer::Named;
use mj_tree::{Field, MethodTree};
use ordered_names::Name;
use std::alloc::{AllocError, Global};
use std::collections::BTreeMap;

/// A field and the class that declares it.
#[derive(Clone, Copy)]
pub struct FieldMember<'a> {
    pub owner: &'a Name,
    pub field: &'a Field,
}

/// A method and the class that declares it.
#[derive(Clone, Copy)]
pub struct MethodMember<'a> {
    pub owner: &'a Name,
    pub method: &'a MethodTree,
}

impl<'a> Named for FieldMember<'a> {
    ghost name_of = { λ member. (field_member_view member).1.name };

    fn name(&self) -> &Name {
        &self.field.name
    }
}

impl<'a> Named for MethodMember<'a> {
    ghost name_of = { λ member. (method_member_view member).1.name };

    fn name(&self) -> &Name {
        &self.method.name
    }
}

/// The fields that these classes declare, each name once: that of the first class which declares it. They ascend by
/// name.
pub fn field_table<'a>(
    alloc: Global,
    classes: &[ClassRef<'a>],
) -> Result<Vec<FieldMember<'a>>, AllocError>
    ensures { IfOk result (λ v.
        map field_member_view v.items ≡ fields_along (classes_view classes.now)) }
{
    let mut rows = BTreeMap::new(alloc);
    for number in (0..classes.len()).rev() {
        lay_own_fields(&mut rows, &classes[number])?;
    }
    in_order(alloc, &rows)
}

/// The methods that these classes declare, each name once: that of the first class which declares it. They ascend by
/// name.
pub fn method_table<'a>(
    alloc: Global,
    classes: &[ClassRef<'a>],
) -> Result<Vec<MethodMember<'a>>, AllocError>
    ensures { IfOk result (λ v.
        map method_member_view v.items ≡ methods_along (classes_view classes.now)) }
{
    let mut rows = BTreeMap::new(alloc);
    for number in (0..classes.len()).rev() {
        lay_own_methods(&mut rows, &classes[number])?;
    }
    in_order(alloc, &rows)
}

/// The fields of a class laid over those of its superclass: of each name the one that the class declares first, or else
/// that of the superclass. They ascend by name.
pub fn field_table_over<'a>(
    alloc: Global,
    class: &ClassRef<'a>,
    inherited: &[FieldMember<'a>],
) -> Result<Vec<FieldMember<'a>>, AllocError>
    ensures { IfOk result (λ v.
        map field_member_view v.items
        ≡ fields_over (class_ref_view class.now) (map field_member_view inherited.now)) }
{
    let mut rows = BTreeMap::new(alloc);
    lay_fields(&mut rows, inherited)?;
    lay_own_fields(&mut rows, class)?;
    in_order(alloc, &rows)
}

/// The methods of a class laid over those of its superclass: of each name the one that the class declares first, or else
/// that of the superclass. They ascend by name.
pub fn method_table_over<'a>(
    alloc: Global,
    class: &ClassRef<'a>,
    inherited: &[MethodMember<'a>],
) -> Result<Vec<MethodMember<'a>>, AllocError>
    ensures { IfOk result (λ v.
        map method_member_view v.items
        ≡ methods_over (class_ref_view class.now) (map method_member_view inherited.now)) }
{
    let mut rows = BTreeMap::new(alloc);
    lay_methods(&mut rows, inherited)?;
    lay_own_methods(&mut rows, class)?;
    in_order(alloc, &rows)
}

/// Lays the fields of a class over these rows. The last one comes first, so that of each name the first one stays.
fn lay_own_fields<'a>(
    rows: &mut BTreeMap<&'a Name, FieldMember<'a>>,
    class: &ClassRef<'a>,
) -> Result<(), AllocError>
    ensures { OnOk result
        (SayAlike (field_rows rows.new.entries)
        (own_rows (λ f. f.name) (class_ref_view class.now).name (class_ref_view class.now).fields
        ++ field_rows rows.old.entries)) }
{
    let owner = class.name();
    let fields = class.fields();
    for number in (0..fields.len()).rev() {
        let field = &fields[number];
        rows.insert(&field.name, FieldMember { owner, field })?;
    }
    Ok(())
}

/// Lays the methods of a class over these rows. The last one comes first, so that of each name the first one stays.
fn lay_own_methods<'a>(
    rows: &mut BTreeMap<&'a Name, MethodMember<'a>>,
    class: &ClassRef<'a>,
) -> Result<(), AllocError>
    ensures { OnOk result
        (SayAlike (method_rows rows.new.entries)
        (own_rows (λ m. m.name) (class_ref_view class.now).name (class_ref_view class.now).methods
        ++ method_rows rows.old.entries)) }
{
    let owner = class.name();
    let methods = class.methods();
    for number in (0..methods.len()).rev() {
        let method = &methods[number];
        rows.insert(&method.name, MethodMember { owner, method })?;
    }
    Ok(())
}

/// Lays these fields over the rows. The last one comes first, so that of each name the first one stays.
fn lay_fields<'a>(
    rows: &mut BTreeMap<&'a Name, FieldMember<'a>>,
    fields: &[FieldMember<'a>],
) -> Result<(), AllocError>
    ensures { OnOk result
        (SayAlike (field_rows rows.new.entries)
        (named_rows (λ f. f.name) (map field_member_view fields.now)
        ++ field_rows rows.old.entries)) }
{
    for number in (0..fields.len()).rev() {
        let member = fields[number];
        rows.insert(&member.field.name, member)?;
    }
    Ok(())
}

/// Lays these methods over the rows. The last one comes first, so that of each name the first one stays.
fn lay_methods<'a>(
    rows: &mut BTreeMap<&'a Name, MethodMember<'a>>,
    methods: &[MethodMember<'a>],
) -> Result<(), AllocError>
    ensures { OnOk result
        (SayAlike (method_rows rows.new.entries)
        (named_rows (λ m. m.name) (map method_member_view methods.now)
        ++ method_rows rows.old.entries)) }
{
    for number in (0..methods.len()).rev() {
        let member = methods[number];
        rows.insert(&member.method.name, member)?;
    }
    Ok(())
}

/// The values of a map, in the order of the names.
pub fn in_order<T: Copy>(alloc: Global, rows: &BTreeMap<&Name, T>) -> Result<Vec<T>, AllocError>
    ensures values { IfOk result (λ v. v.items ≡ values rows.now) }
    ensures ordered { IsOrdered (λ x y. slice_cmp nat_cmp x.now y.now) rows.now }
{
    rows.values().copied().collect(alloc)
}

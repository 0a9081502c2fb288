//! Tables while they are made: each class's own members are laid over the table of its superclass.
ghost use Rattle.std.specs.Prelude.{◌≡◌, ℕ, length, map, replicate, Some, None, IfOk, OnOk};
ghost use Rattle.mj_members.specs.Classes.{class_ref_view, field_member_view, method_member_view};
ghost use Rattle.mj_members.specs.Tables.{fields_over, methods_over};
ghost use Rattle.mj_classes.specs.Declarations.{decl};
ghost use Rattle.mj_classes.specs.Index.{declared_in};
ghost use Rattle.mj_classes.specs.Walks.{IsFirstPlace};
ghost use Rattle.mj_tables.specs.Tables.{IsTableOf, IsTableAt, AreTables, HaveTables, HasTableAt, Grow, AreFirstPlaces};

use mj_classes::{
    ClassRef, Declarations, FieldMember, MethodMember, field_table, field_table_over, method_table,
    method_table_over,
};
use std::alloc::{AllocError, Global};

/// The fields and the methods that a class has, each ascending by name.
#[derive(Drop)]
pub struct MemberTable<'a> {
    pub fields: Vec<FieldMember<'a>>,
    pub methods: Vec<MethodMember<'a>>,
}

/// For each class that is the first one of its name its table.
pub fn all_tables<'a>(
    alloc: Global,
    declarations: &Declarations<'a>,
) -> Result<Vec<Option<MemberTable<'a>>>, AllocError>
    ensures right { IfOk result (λ tables. AreTables (declared_in declarations.now) tables.items) }
    ensures complete { IfOk result (λ tables.
        HaveTables (declared_in declarations.now) tables.items) }
{
    let classes = declarations.classes();
    let mut tables = no_tables(alloc, classes.len())?;
    for (at, class) in classes.iter().enumerate() {
        if declarations.place(class.name()) == Some(at) {
            add_tables(alloc, declarations, &mut tables, at)?;
        }
    }
    Ok(tables)
}

/// So many places without a table.
fn no_tables<'a>(alloc: Global, count: usize) -> Result<Vec<Option<MemberTable<'a>>>, AllocError>
    ensures { IfOk result (λ tables. tables.items ≡ replicate count None) }
{
    let mut tables = Vec::new(alloc);
    for _ in 0..count {
        tables.push(None)?;
    }
    Ok(tables)
}

/// Adds the table of the class at this place, and before it those of the classes above it that aren't there yet.
fn add_tables<'a>(
    alloc: Global,
    declarations: &Declarations<'a>,
    tables: &mut Vec<Option<MemberTable<'a>>>,
    at: usize,
) -> Result<(), AllocError>
    requires first { IsFirstPlace (declared_in declarations.now) at }
    requires right { AreTables (declared_in declarations.now) tables.old.items }
    ensures right { OnOk result (AreTables (declared_in declarations.now) tables.new.items) }
    ensures grow { OnOk result (Grow tables.old.items tables.new.items) }
    ensures here { OnOk result (HasTableAt tables.new.items at) }
{
    let missing = missing_above(alloc, declarations, tables, at)?;
    for number in (0..missing.len()).rev() {
        add_table(alloc, declarations, tables, missing[number])?;
    }
    add_table(alloc, declarations, tables, at)
}

/// The places above this one whose classes have no table yet, the nearest first: those in front of the first class that
/// has one, or, if none has, those up to the class where the walk turns.
fn missing_above(
    alloc: Global,
    declarations: &Declarations,
    tables: &[Option<MemberTable>],
    from: usize,
) -> Result<Vec<usize>, AllocError>
    requires first { IsFirstPlace (declared_in declarations.now) from }
    requires all { length tables.now ≡ length (declared_in declarations.now) }
    ensures { IfOk result (λ places. AreFirstPlaces (declared_in declarations.now) places.items) }
{
    let turn = declarations.turn_at(from);
    let mut places = Vec::new(alloc);
    let mut at = from;
    for _ in 0..tables.len() {
        let Some(above) = declarations.superclass_of(at) else {
            return Ok(places);
        };
        if tables[above].is_some() {
            return Ok(places);
        }
        places.push(above)?;
        if above == turn {
            return Ok(places);
        }
        at = above;
    }
    Ok(places)
}

/// Adds the table of the class at this place, unless it is there.
fn add_table<'a>(
    alloc: Global,
    declarations: &Declarations<'a>,
    tables: &mut Vec<Option<MemberTable<'a>>>,
    at: usize,
) -> Result<(), AllocError>
    requires first { IsFirstPlace (declared_in declarations.now) at }
    requires right { AreTables (declared_in declarations.now) tables.old.items }
    ensures right { OnOk result (AreTables (declared_in declarations.now) tables.new.items) }
    ensures grow { OnOk result (Grow tables.old.items tables.new.items) }
    ensures here { OnOk result (HasTableAt tables.new.items at) }
{
    if tables[at].is_none() {
        let table = table_at(alloc, declarations, tables, at)?;
        tables[at] = Some(table);
    }
    Ok(())
}

/// The table of the class at this place: laid over that of its superclass, if that is there, or else made along its
/// chain.
fn table_at<'a>(
    alloc: Global,
    declarations: &Declarations<'a>,
    tables: &[Option<MemberTable<'a>>],
    at: usize,
) -> Result<MemberTable<'a>, AllocError>
    requires first { IsFirstPlace (declared_in declarations.now) at }
    requires right { AreTables (declared_in declarations.now) tables.now }
    ensures { IfOk result (IsTableAt (declared_in declarations.now) at) }
{
    let class = declarations.class_at(at);
    if let Some(above) = declarations.superclass_of(at) {
        if let Some(inherited) = &tables[above] {
            return table_over(alloc, &class, inherited);
        }
    }
    table_along(alloc, declarations, at)
}

/// The table of a class whose superclass has this one.
fn table_over<'a>(
    alloc: Global,
    class: &ClassRef<'a>,
    inherited: &MemberTable<'a>,
) -> Result<MemberTable<'a>, AllocError>
    ensures fields { IfOk result (λ table.
        map field_member_view table.fields.items
        ≡ fields_over (class_ref_view class.now)
        (map field_member_view inherited.now.fields.items)) }
    ensures methods { IfOk result (λ table.
        map method_member_view table.methods.items
        ≡ methods_over (class_ref_view class.now)
        (map method_member_view inherited.now.methods.items)) }
{
    Ok(MemberTable {
        fields: field_table_over(alloc, class, &inherited.fields)?,
        methods: method_table_over(alloc, class, &inherited.methods)?,
    })
}

/// The table of the class at this place, made along its chain.
fn table_along<'a>(
    alloc: Global,
    declarations: &Declarations<'a>,
    at: usize,
) -> Result<MemberTable<'a>, AllocError>
    requires { IsFirstPlace (declared_in declarations.now) at }
    ensures { IfOk result (IsTableAt (declared_in declarations.now) at) }
{
    let chain = declarations.chain_at(alloc, at)?;
    Ok(MemberTable {
        fields: field_table(alloc, &chain.classes)?,
        methods: method_table(alloc, &chain.classes)?,
    })
}

//! The fields and methods of a class.
ghost use Rattle.std.specs.Prelude.{◌≡◌, ◌++◌, ◌∷◌, [], map, option_copied, IfOk, IfErr, OnOk};
ghost use Rattle.std.specs.Arc.{arc_value};
ghost use Rattle.ordered_names.specs.Order.{IsAscendingByName};
ghost use Rattle.mj_members.specs.Classes.{field_member_view};
ghost use Rattle.mj_members.specs.Rows.{field_rows as field_entries, SayAlike};
ghost use Rattle.mj_members.specs.Tables.{own_rows};
ghost use Rattle.mj_rules.specs.Tables.{field_row as field_row_of};
ghost use Rattle.recorder.specs.Programs.{Goes, GivesUp, each};
ghost use Rattle.result_bytes.specs.Parts.{header_in};
ghost use Rattle.member_queries.specs.Members.{fields_of_header, methods_of_header, nearest_fields, nearest_methods, link_step, with_types, types_step, table_steps, chain_table_steps, members_by, members_steps};
ghost use Rattle.member_queries.specs.MemberTables.{member_name_view, member_names_view, name_rows, AddsTypes};

use answer_bytes::Members;
use fingerprint::Sealed;
use item_ids::Key;
use mj_answer::{ClassTable, FieldRow, MethodRow};
use mj_classes::FieldMember;
use mj_members::in_order;
use mj_rules::field_row;
use mj_tree::{Field, copy_types};
use ordered_names::Name;
use recorder::{Reader, Recorder, RunFault, read};
use result_bytes::{Signature, Supers, Value};
use std::alloc::{AllocError, Global};
use std::collections::BTreeMap;
use std::marker::Model;
use std::sync::Arc;

/// A class of a chain with the answer that has its header.
#[derive(Drop)]
struct Link<'c> {
    class: &'c Name,
    answer: Arc<Sealed>,
}

impl<'c> Model for Link<'c> {
    ghost use Rattle.std.specs.Arc.{arc_value};
    ghost use Rattle.result_bytes.specs.Parts.{header_in};
    ghost use Rattle.member_queries.specs.Members.{Link};

    ghost Value = { Link };

    ghost view = { λ link. (link.class.now, header_in (arc_value link.answer)) };
}

impl<'c> Link<'c> {
    /// The class.
    fn class(&self) -> &'c Name
        ensures { result.now ≡ self.now.0 }
    {
        self.class
    }

    /// The fields that the class itself declares.
    fn fields(&self) -> &[Field]
        ensures { result.now ≡ fields_of_header self.now.1 }
    {
        match self.answer.value().header() {
            Some(header) => header.fields(),
            None => &[],
        }
    }

    /// The names of the methods that the class itself declares.
    fn methods(&self) -> &[Name]
        ensures { result.now ≡ methods_of_header self.now.1 }
    {
        match self.answer.value().header() {
            Some(header) => header.methods(),
            None => &[],
        }
    }
}

/// The name of a method and the class that declares it.
#[derive(Clone, Copy)]
pub struct MemberName<'a> {
    owner: &'a Name,
    name: &'a Name,
}

/// One more class of a chain.
fn add_link<'c>(
    links: &mut Vec<Link<'c>>,
    class: &'c Name,
    answer: Arc<Sealed>,
) -> Result<(), AllocError>
    ensures { OnOk result
        (links.new.items ≡ links.old.items ++ (class.now, header_in (arc_value answer)) ∷ []) }
{
    links.push(Link { class, answer })?;
    Ok(())
}

/// Asks the header of one more class of a chain.
fn ask_link<'c, D: Reader>(
    alloc: Global,
    recorder: &mut Recorder<D>,
    class: &'c Name,
    links: &mut Vec<Link<'c>>,
) -> Result<(), RunFault>
    ensures ok { OnOk result (Goes (link_step class.now links.old.items) recorder.old
        links.new.items recorder.new) }
    ensures err { IfErr result (λ e. GivesUp (link_step class.now links.old.items) recorder.old e
        recorder.new) }
    ensures follows { D.follows recorder.old.inner recorder.new.inner }
{
    let answer = read(recorder, Key::Header(class.copy(alloc)?))?;
    add_link(links, class, answer)?;
    Ok(())
}

/// Asks the headers of the classes of a chain, in their order.
fn ask_links<'c, D: Reader>(
    alloc: Global,
    recorder: &mut Recorder<D>,
    classes: &'c [Name],
) -> Result<Vec<Link<'c>>, RunFault>
    ensures ok { IfOk result (λ links. Goes (each link_step classes.now []) recorder.old
        links.items recorder.new) }
    ensures err { IfErr result (λ e. GivesUp (each link_step classes.now []) recorder.old e
        recorder.new) }
    ensures follows { D.follows recorder.old.inner recorder.new.inner }
{
    let mut links = Vec::new(alloc);
    for class in classes {
        ask_link(alloc, recorder, class, &mut links)?;
    }
    Ok(links)
}

/// Lays the fields of a class over these rows. The last one comes first, so that of each name the first one stays.
fn lay_fields<'a>(
    rows: &mut BTreeMap<&'a Name, FieldMember<'a>>,
    link: &'a Link,
) -> Result<(), AllocError>
    ensures { OnOk result
        (SayAlike (field_entries rows.new.entries)
        (own_rows (λ f. f.name) link.now.0 (fields_of_header link.now.1)
        ++ field_entries rows.old.entries)) }
{
    let owner = link.class();
    let fields = link.fields();
    for number in (0..fields.len()).rev() {
        let field = &fields[number];
        rows.insert(&field.name, FieldMember { owner, field })?;
    }
    Ok(())
}

/// Lays the methods of a class over these rows. The last one comes first, so that of each name the first one stays.
fn lay_methods<'a>(
    rows: &mut BTreeMap<&'a Name, MemberName<'a>>,
    link: &'a Link,
) -> Result<(), AllocError>
    ensures { OnOk result
        (SayAlike (name_rows rows.new.entries)
        (own_rows (λ n. n) link.now.0 (methods_of_header link.now.1)
        ++ name_rows rows.old.entries)) }
{
    let owner = link.class();
    let names = link.methods();
    for number in (0..names.len()).rev() {
        let name = &names[number];
        rows.insert(name, MemberName { owner, name })?;
    }
    Ok(())
}

/// The nearest field of each name, ascending by name.
fn field_table<'a>(alloc: Global, links: &'a [Link]) -> Result<Vec<FieldMember<'a>>, AllocError>
    ensures { IfOk result (λ v. map field_member_view v.items ≡ nearest_fields links.now) }
{
    let mut rows = BTreeMap::new(alloc);
    for number in (0..links.len()).rev() {
        lay_fields(&mut rows, &links[number])?;
    }
    in_order(alloc, &rows)
}

/// The nearest method of each name, ascending by name.
fn method_table<'a>(alloc: Global, links: &'a [Link]) -> Result<Vec<MemberName<'a>>, AllocError>
    ensures { IfOk result (λ v. member_names_view v.items ≡ nearest_methods links.now) }
{
    let mut rows = BTreeMap::new(alloc);
    for number in (0..links.len()).rev() {
        lay_methods(&mut rows, &links[number])?;
    }
    in_order(alloc, &rows)
}

/// The rows of the nearest field of each name, ascending by name.
fn field_rows(alloc: Global, links: &[Link]) -> Result<Vec<FieldRow>, AllocError>
    ensures { IfOk result (λ rows. rows.items ≡ map field_row_of (nearest_fields links.now)) }
{
    let members = field_table(alloc, links)?;
    let mut rows = Vec::new(alloc);
    for member in &members {
        rows.push(field_row(alloc, member)?)?;
    }
    Ok(rows)
}

/// The row of a method of these types.
fn method_row(
    alloc: Global,
    method: &MemberName,
    signature: &Signature,
) -> Result<MethodRow, AllocError>
    ensures { IfOk result (λ row. row
        ≡ record {
          name = method.now.name.now;
          owner = method.now.owner.now;
          formals = signature.now.formals;
          returns = signature.now.returns;
        }) }
{
    let name = method.name.copy(alloc)?;
    let owner = method.owner.copy(alloc)?;
    let formals = copy_types(alloc, signature.formals())?;
    let returns = signature.returns().copy(alloc)?;
    Ok(MethodRow::new(name, owner, formals, returns))
}

/// Adds the row of a method, if it has types.
fn add_types(
    alloc: Global,
    rows: &mut Vec<MethodRow>,
    method: &MemberName,
    signature: Option<&Signature>,
) -> Result<(), AllocError>
    ensures { OnOk result
        (rows.new.items
        ≡ with_types (member_name_view method.now) rows.old.items (option_copied signature.entry)) }
{
    match signature {
        Some(signature) => {
            rows.push(method_row(alloc, method, signature)?)?;
            Ok(())
        }
        None => Ok(()),
    }
}

/// Asks the types of one more method, and adds its row.
fn ask_types<D: Reader>(
    alloc: Global,
    recorder: &mut Recorder<D>,
    method: &MemberName,
    rows: &mut Vec<MethodRow>,
) -> Result<(), RunFault>
    ensures ok { OnOk result (Goes (types_step (member_name_view method.now) rows.old.items)
        recorder.old rows.new.items recorder.new) }
    ensures row { OnOk result
        (AddsTypes (member_name_view method.now) rows.old.items rows.new.items) }
    ensures err { IfErr result (λ e. GivesUp (types_step (member_name_view method.now)
        rows.old.items) recorder.old e recorder.new) }
    ensures follows { D.follows recorder.old.inner recorder.new.inner }
{
    let key = Key::Sig(method.owner.copy(alloc)?, method.name.copy(alloc)?);
    let answer = read(recorder, key)?;
    add_types(alloc, rows, method, answer.value().signature())?;
    Ok(())
}

/// The rows of these methods, whose types are asked in their order.
fn ask_all_types<D: Reader>(
    alloc: Global,
    recorder: &mut Recorder<D>,
    methods: &[MemberName],
) -> Result<Vec<MethodRow>, RunFault>
    requires { IsAscendingByName (λ m. m.name.now) methods.now }
    ensures ok { IfOk result (λ rows. Goes (each types_step (member_names_view methods.now) [])
        recorder.old rows.items recorder.new) }
    ensures ordered { IfOk result (λ rows. IsAscendingByName (λ row. row.name) rows.items) }
    ensures err { IfErr result (λ e. GivesUp (each types_step (member_names_view methods.now) [])
        recorder.old e recorder.new) }
    ensures follows { D.follows recorder.old.inner recorder.new.inner }
{
    let mut rows = Vec::new(alloc);
    for method in methods {
        ask_types(alloc, recorder, method, &mut rows)?;
    }
    Ok(rows)
}

/// The fields along a chain, and these methods.
fn members_of(alloc: Global, links: &[Link], methods: Vec<MethodRow>) -> Result<Members, AllocError>
    requires { IsAscendingByName (λ row. row.name) methods.items }
    ensures { IfOk result (λ members. members
        ≡ record {
          fields = map field_row_of (nearest_fields links.now);
          methods = methods.items;
        }) }
{
    let fields = field_rows(alloc, links)?;
    let table = ClassTable::new(fields, methods);
    Ok(Members::new(table))
}

/// The fields and methods along a chain with these headers.
fn ask_table<D: Reader>(
    alloc: Global,
    recorder: &mut Recorder<D>,
    links: &[Link],
) -> Result<Members, RunFault>
    ensures ok { IfOk result (λ members. Goes (table_steps links.now) recorder.old members
        recorder.new) }
    ensures err { IfErr result (λ e. GivesUp (table_steps links.now) recorder.old e
        recorder.new) }
    ensures follows { D.follows recorder.old.inner recorder.new.inner }
{
    let methods = method_table(alloc, links)?;
    let rows = ask_all_types(alloc, recorder, &methods)?;
    let members = members_of(alloc, links, rows)?;
    Ok(members)
}

/// The fields and methods along a chain of these classes.
fn ask_chain_table<D: Reader>(
    alloc: Global,
    recorder: &mut Recorder<D>,
    classes: &[Name],
) -> Result<Members, RunFault>
    ensures ok { IfOk result (λ members. Goes (chain_table_steps classes.now) recorder.old members
        recorder.new) }
    ensures err { IfErr result (λ e. GivesUp (chain_table_steps classes.now) recorder.old e
        recorder.new) }
    ensures follows { D.follows recorder.old.inner recorder.new.inner }
{
    let links = ask_links(alloc, recorder, classes)?;
    ask_table(alloc, recorder, &links)
}

/// The fields and methods of a class that has this chain.
fn members_for<D: Reader>(
    alloc: Global,
    recorder: &mut Recorder<D>,
    chain: Option<&Supers>,
) -> Result<Value, RunFault>
    ensures ok { IfOk result (λ v. Goes (members_by (option_copied chain.entry)) recorder.old v
        recorder.new) }
    ensures err { IfErr result (λ e. GivesUp (members_by (option_copied chain.entry))
        recorder.old e recorder.new) }
    ensures follows { D.follows recorder.old.inner recorder.new.inner }
{
    match chain {
        Some(chain) => {
            let members = ask_chain_table(alloc, recorder, chain.classes())?;
            Ok(Value::Members(Some(members)))
        }
        None => Ok(Value::Members(None)),
    }
}

/// The fields and methods of a class, by its chain, the headers of the chain's classes and the types of the methods.
pub fn run_members<D: Reader>(
    alloc: Global,
    recorder: &mut Recorder<D>,
    class: &Name,
) -> Result<Value, RunFault>
    ensures ok { IfOk result (λ v. Goes (members_steps class.now) recorder.old v recorder.new) }
    ensures err { IfErr result (λ e. GivesUp (members_steps class.now) recorder.old e
        recorder.new) }
    ensures follows { D.follows recorder.old.inner recorder.new.inner }
{
    let answer = read(recorder, Key::Supers(class.copy(alloc)?))?;
    members_for(alloc, recorder, answer.value().supers())
}

//! Tables, diagnostics and the whole answer, each in its order.
ghost use Rattle.std.specs.Prelude.{◌≡◌, ◌++◌, List, OnOk};
ghost use Rattle.std.specs.List.{AllByRecursion};
ghost use Rattle.ordered_names.specs.Order.{IsAscendingByName};
ghost use Rattle.mj_answer.specs.Order.{IsAscending, IsTableInOrder};
ghost use Rattle.byte_readers.specs.Reading.{Decodes};
ghost use Rattle.byte_readers.specs.Spelling.{list};
ghost use Rattle.answer_bytes.specs.Canon.{table, class_fault, answer};
ghost use Rattle.answer_bytes.specs.Storable.{TableFits, ClassFaultsFit, AnswerFits, AreProjectFaults, AreClassFaults, IsClassStorable};
ghost use Rattle.answer_bytes.specs.Reading.{table_at, class_faults_at, answer_at};

use crate::faults::{ClassFaultFormat, ProjectFaultFormat};
use crate::rows::{FieldRowFormat, MethodRowFormat};
use byte_readers::{
    Format, Ordered, ReadError, check_list, check_name, put_list, put_name, read_ascending,
    read_name,
};
use mj_answer::{Answer, ClassAnswer, ClassTable, Diagnostic};
use std::alloc::{AllocError, Global};
use std::marker::Model;

/// The fields and the methods that a class has, each ascending by name.
pub struct Members {
    table: ClassTable,
}

impl Drop for Members {
    fn drop(self) {
        let Members { table: _ } = self;
    }
}

impl Model for Members {
    ghost use Rattle.mj_answer.specs.AnswerValues.{ClassTableValue};
    ghost use Rattle.answer_bytes.specs.Storable.{TableFits};

    ghost Value = { ClassTableValue };

    ghost view = { λ members. members.table };

    ghost invariant = { λ members. TableFits members.table };
}

impl Members {
    /// The members in this table.
    pub fn new(table: ClassTable) -> Self
        requires { IsTableInOrder table }
        ensures { result ≡ table }
    {
        // What the spelling demands of names and types they keep in their types.
        check_table(&table);
        Members { table }
    }

    /// The table.
    pub fn table(&self) -> &ClassTable
        ensures value { result.now ≡ self.now }
        ensures fits { TableFits self.now }
    {
        &self.table
    }
}

/// Diagnostics of a class, in ascending order.
pub struct Faults {
    list: Vec<Diagnostic>,
}

impl Drop for Faults {
    fn drop(self) {
        let Faults { list: _ } = self;
    }
}

impl Model for Faults {
    ghost use Rattle.std.specs.Prelude.{List};
    ghost use Rattle.mj_answer.specs.declared.diagnostic.Diagnostic.{Diagnostic};
    ghost use Rattle.answer_bytes.specs.Storable.{ClassFaultsFit};

    ghost Value = { List Diagnostic };

    ghost view = { λ faults. faults.list.items };

    ghost invariant = { λ faults. ClassFaultsFit faults.list.items };
}

impl Faults {
    /// These diagnostics.
    pub fn new(list: Vec<Diagnostic>) -> Self
        requires order { IsAscending list.items }
        requires places { AreClassFaults list.items }
        ensures { result ≡ list.items }
    {
        // What the spelling demands of the parts they keep in their types.
        check_list::<ClassFaultFormat>(&list);
        Faults { list }
    }

    /// The diagnostics.
    pub fn list(&self) -> &[Diagnostic]
        ensures value { result.now ≡ self.now }
        ensures fits { ClassFaultsFit self.now }
    {
        self.list.as_slice()
    }
}

/// The answer for a whole project: its own diagnostics in ascending order, and its classes ascending by name.
pub struct WholeAnswer {
    answer: Answer,
}

impl Drop for WholeAnswer {
    fn drop(self) {
        let WholeAnswer { answer: _ } = self;
    }
}

impl Model for WholeAnswer {
    ghost use Rattle.mj_answer.specs.AnswerValues.{AnswerValue};
    ghost use Rattle.answer_bytes.specs.Storable.{AnswerFits};

    ghost Value = { AnswerValue };

    ghost view = { λ whole. whole.answer };

    ghost invariant = { λ whole. AnswerFits whole.answer };
}

impl WholeAnswer {
    /// This answer.
    pub fn new(answer: Answer) -> Self
        requires faults { IsAscending answer.faults }
        requires places { AreProjectFaults answer.faults }
        requires classes { IsAscendingByName (λ class. class.name) answer.classes }
        requires each { AllByRecursion IsClassStorable answer.classes }
        ensures { result ≡ answer }
    {
        // What the spelling demands of the parts they keep in their types.
        check_list::<ProjectFaultFormat>(answer.faults());
        check_list::<ClassFormat>(answer.classes());
        WholeAnswer { answer }
    }

    /// The answer.
    pub fn answer(&self) -> &Answer
        ensures value { result.now ≡ self.now }
        ensures fits { AnswerFits self.now }
    {
        &self.answer
    }
}

/// A table in its order has a spelling.
#[tactic(auto, using(byte_readers::specs::Laws::all_storable))]
fn check_table(item: &ClassTable)
    requires { IsTableInOrder item.now }
    ensures { TableFits item.now }
{
    check_list::<FieldRowFormat>(item.fields());
    check_list::<MethodRowFormat>(item.methods());
}

fn put_table(out: &mut Vec<u8>, item: &ClassTable) -> Result<(), AllocError>
    ensures { OnOk result (out.new.items ≡ out.old.items ++ table item.now) }
{
    put_list::<FieldRowFormat>(out, item.fields())?;
    put_list::<MethodRowFormat>(out, item.methods())
}

#[tactic(auto, unfolding(crate::specs::Reading::table_at))]
fn read_table(alloc: Global, bytes: &[u8]) -> Result<(ClassTable, &[u8]), ReadError>
    ensures { Decodes (λ x. x) result (table_at bytes.now) }
{
    let (fields, rest) = read_ascending::<FieldRowFormat>(alloc, bytes)?;
    let (methods, rest) = read_ascending::<MethodRowFormat>(alloc, rest)?;
    Ok((ClassTable::new(fields, methods), rest))
}

/// Tables.
pub struct MembersFormat;

impl Format for MembersFormat {
    ghost use Rattle.answer_bytes.specs.Canon.{table};
    ghost use Rattle.answer_bytes.specs.Storable.{TableFits};
    ghost use Rattle.answer_bytes.specs.Reading.{table_at};
    ghost use Rattle.answer_bytes.specs.AnswerLaws.{lawful_table};
    ghost use Rattle.mj_answer.specs.AnswerValues.{ClassTableValue};
    ghost use Rattle.byte_readers.specs.Views.{plain};

    type Item = Members;

    ghost Seen = { ClassTableValue };

    ghost view = { plain };

    ghost is_storable = { λ _. Unit {0} };

    ghost has_spelling = { TableFits };

    ghost spelling = { table };

    ghost reading = { table_at };

    ghost lawful = { lawful_table };

    fn check(item: &Members) {
        let _table = item.table();
    }

    fn write(out: &mut Vec<u8>, item: &Members) -> Result<(), AllocError> {
        put_table(out, item.table())
    }

    fn read(alloc: Global, bytes: &[u8]) -> Result<(Members, &[u8]), ReadError> {
        let (table, rest) = read_table(alloc, bytes)?;
        Ok((Members { table }, rest))
    }
}

/// Writes the diagnostics of a class.
pub fn put_faults(out: &mut Vec<u8>, faults: &Faults) -> Result<(), AllocError>
    ensures { OnOk result (out.new.items ≡ out.old.items ++ list class_fault faults.now) }
{
    put_list::<ClassFaultFormat>(out, faults.list())
}

/// Reads the diagnostics of a class.
#[tactic(auto, unfolding(crate::specs::Reading::class_faults_at))]
pub fn read_faults(alloc: Global, bytes: &[u8]) -> Result<(Faults, &[u8]), ReadError>
    ensures { Decodes (λ x. x) result (class_faults_at bytes.now) }
{
    let (list, rest) = read_ascending::<ClassFaultFormat>(alloc, bytes)?;
    Ok((Faults { list }, rest))
}

/// What is answered for classes, in the order of their names.
pub struct ClassFormat;

impl Format for ClassFormat {
    ghost use Rattle.answer_bytes.specs.Canon.{class_answer};
    ghost use Rattle.answer_bytes.specs.Storable.{IsClassStorable, ClassAnswerFits};
    ghost use Rattle.answer_bytes.specs.Reading.{class_answer_at};
    ghost use Rattle.answer_bytes.specs.AnswerLaws.{lawful_class_answer};
    ghost use Rattle.mj_answer.specs.AnswerValues.{ClassAnswerValue};
    ghost use Rattle.byte_readers.specs.Views.{plain};

    type Item = ClassAnswer;

    ghost Seen = { ClassAnswerValue };

    ghost view = { plain };

    ghost is_storable = { IsClassStorable };

    ghost has_spelling = { ClassAnswerFits };

    ghost spelling = { class_answer };

    ghost reading = { class_answer_at };

    ghost lawful = { lawful_class_answer };

    fn check(item: &ClassAnswer) {
        check_name(item.name());
        check_table(item.table());
        check_list::<ClassFaultFormat>(item.faults());
    }

    fn write(out: &mut Vec<u8>, item: &ClassAnswer) -> Result<(), AllocError> {
        put_name(out, item.name())?;
        put_table(out, item.table())?;
        put_list::<ClassFaultFormat>(out, item.faults())
    }

    #[tactic(auto, unfolding(crate::specs::Reading::class_faults_at))]
    fn read(alloc: Global, bytes: &[u8]) -> Result<(ClassAnswer, &[u8]), ReadError> {
        let (name, rest) = read_name(alloc, bytes)?;
        let (table, rest) = read_table(alloc, rest)?;
        let (faults, rest) = read_ascending::<ClassFaultFormat>(alloc, rest)?;
        Ok((ClassAnswer::new(name, table, faults), rest))
    }
}

impl Ordered for ClassFormat {
    ghost use Rattle.answer_bytes.specs.Reading.{by_name, class_answer_at};
    ghost use Rattle.byte_readers.specs.Views.{tells_plain};

    ghost precedes = { by_name (λ class. class.name) };

    ghost item_reading = { class_answer_at };

    ghost tells = { tells_plain class_answer_at };

    fn precedes(item: &ClassAnswer, other: &ClassAnswer) -> bool {
        item.name().cmp(other.name()).is_lt()
    }
}

/// Writes the answer.
pub fn put_answer(out: &mut Vec<u8>, whole: &WholeAnswer) -> Result<(), AllocError>
    ensures { OnOk result (out.new.items ≡ out.old.items ++ answer whole.now) }
{
    let answer = whole.answer();
    put_list::<ProjectFaultFormat>(out, answer.faults())?;
    put_list::<ClassFormat>(out, answer.classes())
}

/// Reads the answer.
#[tactic(auto, unfolding(crate::specs::Reading::answer_at, crate::specs::Reading::project_faults_at))]
pub fn read_answer(alloc: Global, bytes: &[u8]) -> Result<(WholeAnswer, &[u8]), ReadError>
    ensures { Decodes (λ x. x) result (answer_at bytes.now) }
{
    let (faults, rest) = read_ascending::<ProjectFaultFormat>(alloc, bytes)?;
    let (classes, rest) = read_ascending::<ClassFormat>(alloc, rest)?;
    let answer = Answer::new(faults, classes);
    Ok((WholeAnswer { answer }, rest))
}

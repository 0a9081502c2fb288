//! The fields and methods of classes, and the whole answer.
ghost use Rattle.std.specs.Prelude.{◌≡◌, IfOk};

use crate::diagnostic::Diagnostic;
use mj_tree::{Ty, copy_types};
use ordered_names::Name;
use std::alloc::{AllocError, Global};
use std::marker::Model;

/// A field that a class has, with the class that declares it.
#[derive(PartialEq, Eq)]
pub struct FieldRow {
    pub name: Name,
    pub owner: Name,
    pub ty: Ty,
}

impl Drop for FieldRow {
    fn drop(self) {
        let FieldRow {
            name: _,
            owner: _,
            ty: _,
        } = self;
    }
}

impl FieldRow {
    /// An equal row.
    pub fn copy(&self, alloc: Global) -> Result<FieldRow, AllocError>
        ensures { IfOk result (λ row. row ≡ self.now) }
    {
        Ok(FieldRow {
            name: self.name.copy(alloc)?,
            owner: self.owner.copy(alloc)?,
            ty: self.ty.copy(alloc)?,
        })
    }
}

/// A method that a class has, with the class that declares it.
pub struct MethodRow {
    name: Name,
    owner: Name,
    formals: Vec<Ty>,
    returns: Ty,
}

impl Drop for MethodRow {
    fn drop(self) {
        let MethodRow {
            name: _,
            owner: _,
            formals: _,
            returns: _,
        } = self;
    }
}

impl Model for MethodRow {
    ghost use Rattle.mj_answer.specs.AnswerValues.{MethodRowValue};

    ghost Value = { MethodRowValue };

    ghost view = { λ row.
        record {
          name = row.name;
          owner = row.owner;
          formals = row.formals.items;
          returns = row.returns;
        } };
}

impl MethodRow {
    /// A method of these formal types and this return type.
    pub fn new(name: Name, owner: Name, formals: Vec<Ty>, returns: Ty) -> Self
        ensures { result
            ≡ record { name = name; owner = owner; formals = formals.items; returns = returns } }
    {
        MethodRow {
            name,
            owner,
            formals,
            returns,
        }
    }

    /// The method's name.
    pub fn name(&self) -> &Name
        ensures { result.now ≡ self.now.name }
    {
        &self.name
    }

    /// The class that declares it.
    pub fn owner(&self) -> &Name
        ensures { result.now ≡ self.now.owner }
    {
        &self.owner
    }

    /// The types of its formals, in their order.
    pub fn formals(&self) -> &[Ty]
        ensures { result.now ≡ self.now.formals }
    {
        self.formals.as_slice()
    }

    /// The type that it returns.
    pub fn returns(&self) -> &Ty
        ensures { result.now ≡ self.now.returns }
    {
        &self.returns
    }

    /// An equal row.
    pub fn copy(&self, alloc: Global) -> Result<MethodRow, AllocError>
        ensures { IfOk result (λ row. row ≡ self.now) }
    {
        let formals = copy_types(alloc, &self.formals)?;
        Ok(MethodRow {
            name: self.name.copy(alloc)?,
            owner: self.owner.copy(alloc)?,
            formals,
            returns: self.returns.copy(alloc)?,
        })
    }
}

/// The fields and the methods that a class has, each ascending by name.
pub struct ClassTable {
    fields: Vec<FieldRow>,
    methods: Vec<MethodRow>,
}

impl Drop for ClassTable {
    fn drop(self) {
        let ClassTable {
            fields: _,
            methods: _,
        } = self;
    }
}

impl Model for ClassTable {
    ghost use Rattle.mj_answer.specs.AnswerValues.{ClassTableValue};

    ghost Value = { ClassTableValue };

    ghost view = { λ table. record { fields = table.fields.items; methods = table.methods.items } };
}

impl ClassTable {
    /// A table of these rows.
    pub fn new(fields: Vec<FieldRow>, methods: Vec<MethodRow>) -> Self
        ensures { result ≡ record { fields = fields.items; methods = methods.items } }
    {
        ClassTable { fields, methods }
    }

    /// The fields.
    pub fn fields(&self) -> &[FieldRow]
        ensures { result.now ≡ self.now.fields }
    {
        self.fields.as_slice()
    }

    /// The methods.
    pub fn methods(&self) -> &[MethodRow]
        ensures { result.now ≡ self.now.methods }
    {
        self.methods.as_slice()
    }

    /// An equal table.
    pub fn copy(&self, alloc: Global) -> Result<ClassTable, AllocError>
        ensures { IfOk result (λ table. table ≡ self.now) }
    {
        let fields = copy_fields(alloc, &self.fields)?;
        Ok(ClassTable {
            fields,
            methods: copy_methods(alloc, &self.methods)?,
        })
    }
}

fn copy_fields(alloc: Global, rows: &[FieldRow]) -> Result<Vec<FieldRow>, AllocError>
    ensures { IfOk result (λ copies. copies.items ≡ rows.now) }
{
    let mut copies = Vec::new(alloc);
    for row in rows {
        copies.push(row.copy(alloc)?)?;
    }
    Ok(copies)
}

fn copy_methods(alloc: Global, rows: &[MethodRow]) -> Result<Vec<MethodRow>, AllocError>
    ensures { IfOk result (λ copies. copies.items ≡ rows.now) }
{
    let mut copies = Vec::new(alloc);
    for row in rows {
        copies.push(row.copy(alloc)?)?;
    }
    Ok(copies)
}

/// What is answered for a class: its fields and methods, and its diagnostics in ascending order.
pub struct ClassAnswer {
    name: Name,
    table: ClassTable,
    faults: Vec<Diagnostic>,
}

impl Drop for ClassAnswer {
    fn drop(self) {
        let ClassAnswer {
            name: _,
            table: _,
            faults: _,
        } = self;
    }
}

impl Model for ClassAnswer {
    ghost use Rattle.mj_answer.specs.AnswerValues.{ClassAnswerValue};

    ghost Value = { ClassAnswerValue };

    ghost view = { λ class.
        record { name = class.name; table = class.table; faults = class.faults.items } };
}

impl ClassAnswer {
    /// The answer for the class of this name.
    pub fn new(name: Name, table: ClassTable, faults: Vec<Diagnostic>) -> Self
        ensures { result ≡ record { name = name; table = table; faults = faults.items } }
    {
        ClassAnswer {
            name,
            table,
            faults,
        }
    }

    /// The class's name.
    pub fn name(&self) -> &Name
        ensures { result.now ≡ self.now.name }
    {
        &self.name
    }

    /// The class's fields and methods.
    pub fn table(&self) -> &ClassTable
        ensures { result.now ≡ self.now.table }
    {
        &self.table
    }

    /// The class's diagnostics.
    pub fn faults(&self) -> &[Diagnostic]
        ensures { result.now ≡ self.now.faults }
    {
        self.faults.as_slice()
    }
}

/// What is answered for a project: the diagnostics of the project itself in ascending order, and its classes ascending
/// by name.
pub struct Answer {
    faults: Vec<Diagnostic>,
    classes: Vec<ClassAnswer>,
}

impl Drop for Answer {
    fn drop(self) {
        let Answer {
            faults: _,
            classes: _,
        } = self;
    }
}

impl Model for Answer {
    ghost use Rattle.mj_answer.specs.AnswerValues.{AnswerValue};

    ghost Value = { AnswerValue };

    ghost view = { λ answer.
        record { faults = answer.faults.items; classes = answer.classes.items } };
}

impl Answer {
    /// An answer of these diagnostics and classes.
    pub fn new(faults: Vec<Diagnostic>, classes: Vec<ClassAnswer>) -> Self
        ensures { result ≡ record { faults = faults.items; classes = classes.items } }
    {
        Answer { faults, classes }
    }

    /// The project's own diagnostics.
    pub fn faults(&self) -> &[Diagnostic]
        ensures { result.now ≡ self.now.faults }
    {
        self.faults.as_slice()
    }

    /// The classes.
    pub fn classes(&self) -> &[ClassAnswer]
        ensures { result.now ≡ self.now.classes }
    {
        self.classes.as_slice()
    }
}

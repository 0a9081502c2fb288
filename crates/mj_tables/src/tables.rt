//! The tables of all declared classes.
ghost use Rattle.std.specs.Prelude.{◌≡◌, None, IfOk, MatchOption};
ghost use Rattle.mj_classes.specs.Declarations.{decl};
ghost use Rattle.mj_classes.specs.Index.{declared_in};
ghost use Rattle.mj_classes.specs.Walks.{IsFirstPlace};
ghost use Rattle.mj_tables.specs.Tables.{IsTableOf, IsTableAt};

use crate::making::{MemberTable, all_tables};
use mj_classes::Declarations;
use ordered_names::Name;
use std::alloc::{AllocError, Global};
use std::marker::Model;

/// The declared classes, each with the fields and methods that it has. Contracts see the declarations.
#[derive(Drop)]
pub struct MemberTables<'a> {
    declarations: Declarations<'a>,
    /// For each class that is the first one of its name its table.
    tables: Vec<Option<MemberTable<'a>>>,
}

impl<'a> Model for MemberTables<'a> {
    ghost use Rattle.mj_classes.specs.declared.declarations.Declarations.{Declarations as Declared};
    ghost use Rattle.mj_tables.specs.Codes.{declarations_code};
    ghost use Rattle.mj_classes.specs.Index.{declared_in};
    ghost use Rattle.mj_tables.specs.Tables.{AreTables, HaveTables};

    ghost Value = { Declared };

    ghost coded = { declarations_code };

    ghost view = { λ t. t.declarations };

    ghost invariant = { λ t. AreTables (declared_in t.declarations) t.tables.items
        × HaveTables (declared_in t.declarations) t.tables.items };
}

impl<'a> MemberTables<'a> {
    /// The tables of these classes.
    pub fn new(alloc: Global, declarations: Declarations<'a>) -> Result<Self, AllocError>
        ensures { IfOk result (λ t. t ≡ declarations.entry) }
    {
        let tables = all_tables(alloc, &declarations)?;
        Ok(MemberTables {
            declarations,
            tables,
        })
    }

    /// The classes.
    pub fn declarations(&self) -> &Declarations<'a>
        ensures { result.now ≡ self.now }
    {
        &self.declarations
    }

    /// The table of the class at this place, the first one of its name.
    pub fn table_at(&self, at: usize) -> &MemberTable<'a>
        requires { IsFirstPlace (declared_in self.now) at }
        ensures { IsTableAt (declared_in self.now) at result.now }
    {
        let Some(table) = &self.tables[at] else {
            unreachable!();
        };
        table
    }

    /// The table of a class, or `None` if it isn't declared.
    pub fn table(&self, class: &Name) -> Option<&MemberTable<'a>>
        ensures { MatchOption result (decl (declared_in self.now) class.now ≡ None)
            (λ t. IsTableOf (declared_in self.now) class.now t.now) }
    {
        let at = self.declarations.place(class)?;
        self.tables[at].as_ref()
    }
}

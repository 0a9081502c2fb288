//! The declarations of a project, as the check of a body asks for them.

use crate::tables::formal_types;
use mj_phrases::MethodTypes;
use mj_tables::MemberTables;
use mj_tree::Ty;
use ordered_names::Name;
use std::alloc::{AllocError, Global};

/// What the declarations of a project say.
#[derive(Clone, Copy)]
pub struct World<'t, 'a> {
    pub tables: &'t MemberTables<'a>,
}

impl<'t, 'a> mj_phrases::Environment for World<'t, 'a> {
    ghost use Rattle.mj_classes.specs.Index.{declared_in};
    ghost use Rattle.mj_rules.specs.Worlds.{world_of};

    type Method = MethodTypes;

    ghost world = { λ world. world_of (declared_in world.tables.now) };

    fn descends(&self, _alloc: Global, class: &Name, ancestor: &Name) -> Result<bool, AllocError> {
        Ok(self.tables.declarations().descends(class, ancestor))
    }

    fn field(&self, alloc: Global, class: &Name, name: &Name) -> Result<Option<Ty>, AllocError> {
        match self.tables.field(class, name) {
            Some(member) => Ok(Some(member.field.ty.copy(alloc)?)),
            None => Ok(None),
        }
    }

    fn method(
        &self,
        alloc: Global,
        class: &Name,
        name: &Name,
    ) -> Result<Option<MethodTypes>, AllocError> {
        match self.tables.method(class, name) {
            Some(member) => Ok(Some(MethodTypes {
                formals: formal_types(alloc, &member.method.formals)?,
                returns: member.method.returns.copy(alloc)?,
            })),
            None => Ok(None),
        }
    }

    fn is_declared(&self, _alloc: Global, class: &Name) -> Result<bool, AllocError> {
        Ok(self.tables.declarations().find(class).is_some())
    }
}

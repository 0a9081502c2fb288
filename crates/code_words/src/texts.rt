//! The texts of the codes: what each of them means, beside its place in the tables.
pub(crate) mod chains;
pub(crate) mod declarations;
pub(crate) mod files;
pub(crate) mod phrases;
pub(crate) mod project;
pub(crate) mod projects;

//! Tables of projects of one file.
ghost use Rattle.std.specs.Prelude.{Option, IfOk, Ok};
ghost use Rattle.sessions.specs.Sessions.{SessionValue};
ghost use Rattle.answer_fixtures.specs.Telling.{one_file};
ghost use Rattle.query_rules.specs.Queries.{queries};
ghost use Rattle.job_table.specs.Calls.{OpenGives};
ghost use Rattle.table_fixtures.specs.Told.{IsLastOf, IsOpenedTable};

use crate::changes::{Change, past_of};
use answer_fixtures::{Unfit, project_of};
use job_table::Table;
use mini_java::MiniJava;
use named_files::Project;
use sessions::Terms;
use std::alloc::Global;

/// The table of these terms and of a project of this text, opened behind a chain of sessions.
pub(crate) fn table_of(
    alloc: Global,
    terms: Terms,
    chain: &[Change],
    text: &str,
) -> Result<Table<MiniJava>, Unfit>
    ensures { IfOk result (IsOpenedTable terms chain.now text.now) }
{
    let project = project_of(alloc, text)?;
    table_over(alloc, terms, chain, &project)
}

fn table_over(
    alloc: Global,
    terms: Terms,
    chain: &[Change],
    project: &Project,
) -> Result<Table<MiniJava>, Unfit>
    ensures { IfOk result (λ t. (past : Option SessionValue) × IsLastOf chain.now past
        × OpenGives queries.by_profile terms past project.now (Ok t)) }
{
    let past = past_of(alloc, chain)?;
    match Table::open_as(alloc, past, project, terms) {
        Ok(table) => Ok(table),
        Err(_) => Err(Unfit),
    }
}

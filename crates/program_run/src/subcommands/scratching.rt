//! The check of a project from its files alone.
ghost use Rattle.std.specs.Prelude.{IfOk, IfErr, map, string_bytes};
ghost use Rattle.command_line.specs.Runnable.{IsScratchable};
ghost use Rattle.program_run.specs.Runs.{ReportsOn};
ghost use Rattle.program_run.specs.Unread.{NamesFail};

use crate::failure::Failure;
use crate::files::read_files;
use crate::report::Report;
use crate::terms::profile_of;
use command_line::ScratchWords;
use commands::scratch_texts;
use mj_rules::Project;
use std::rt::Files;

/// The report on these files, by the rules of the profile.
pub(crate) fn scratch<R: Files + AllocGlobal>(
    rt: &R,
    asked: ScratchWords,
) -> Result<Report, Failure>
    requires { IsScratchable asked }
    ensures reports { IfOk result (ReportsOn R.File.Read.remaining asked) }
    ensures failed { IfErr result
        (NamesFail R.File.Read.remaining (map string_bytes asked.files.items)) }
{
    let alloc = rt.alloc();
    let ScratchWords {
        profile,
        messages,
        files,
    } = asked;
    let project = Project::new(alloc, read_files(rt, files)?)?;
    let texts = scratch_texts(alloc, profile_of(profile), &project, messages)?;
    Ok(Report::on_answer(texts))
}

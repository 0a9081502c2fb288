//! What codes mean.
ghost use Rattle.std.specs.Prelude.{IfOk, IfErr};
ghost use Rattle.program_run.specs.Failures.{ExplainFails};
ghost use Rattle.program_run.specs.Runs.{Explains};

use crate::failure::Failure;
use crate::report::Report;
use code_words::{ExplainFault, explain};
use std::alloc::Global;

/// The report on what these codes mean.
pub(crate) fn explain_codes(alloc: Global, asked: Vec<String>) -> Result<Report, Failure>
    ensures reports { IfOk result (Explains asked.items) }
    ensures failed { IfErr result (ExplainFails asked.items) }
{
    match explain(alloc, asked.as_slice()) {
        Ok(text) => Ok(Report::clean(alloc, text)),
        Err(ExplainFault::Unknown(code)) => Err(Failure::UnknownCode(code)),
        Err(ExplainFault::OutOfMemory) => Err(Failure::OutOfMemory),
    }
}

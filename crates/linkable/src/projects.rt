//! The project of the files that bytes are.
ghost use Rattle.std.specs.Prelude.{◌≡◌, IfOk, IfErr};
ghost use Rattle.named_files.specs.Projects.{IsProject, sources_view};
ghost use Rattle.linkable.specs.Projects.{AreNoProject, IsNoProjectIn, IsProjectIn};
ghost use Rattle.linkable.specs.Stopping.{Says};

use crate::stopping::Stop;
use commands::refusal_text;
use named_files::Project;
use packed_files::{UnpackFault, flaw_text, unpack};
use std::alloc::Global;

/// The project of the files that these bytes are.
pub(crate) fn project_in(alloc: Global, bytes: &[u8]) -> Result<Project, Stop>
    ensures project { IfOk result (IsProjectIn bytes.now) }
    ensures refused { IfErr result (Says (IsNoProjectIn bytes.now)) }
{
    match unpack(alloc, bytes) {
        Ok(files) => project_of(alloc, files),
        Err(UnpackFault::Flawed(number, flaw)) => {
            Err(Stop::Refused(flaw_text(alloc, number, flaw)?))
        }
        Err(UnpackFault::OutOfMemory) => Err(Stop::OutOfMemory),
    }
}

// The project of these files.
fn project_of(alloc: Global, files: Vec<(String, Vec<u8>)>) -> Result<Project, Stop>
    ensures files { IfOk result (λ project. project ≡ sources_view files.items) }
    ensures project { IfOk result IsProject }
    ensures refused { IfErr result (Says (AreNoProject (sources_view files.items))) }
{
    match Project::new(alloc, files) {
        Ok(project) => {
            // A project keeps in its type what its files are.
            let _files = project.files();
            Ok(project)
        }
        Err(fault) => Err(Stop::Refused(refusal_text(alloc, fault)?)),
    }
}

//! Projects of files from short texts.
ghost use Rattle.std.specs.Prelude.{◌≡◌, IfOk, map};
ghost use Rattle.named_files.specs.Projects.{source_view, sources_view};
ghost use Rattle.crew_fixtures.specs.Made.{source_file, source_files};

use answer_fixtures::Unfit;
use named_files::Project;
use std::alloc::{AllocError, Global};

/// The name of a file and its text.
#[derive(Clone, Copy)]
pub struct File(pub &'static str, pub &'static str);

/// The project of these files.
pub(crate) fn project_of(alloc: Global, files: &[File]) -> Result<Project, Unfit>
    ensures { IfOk result (λ p. p ≡ source_files files.now) }
{
    let files = files_of(alloc, files)?;
    project_with(alloc, files)
}

/// The project of files of these names and bytes.
pub(crate) fn project_with(alloc: Global, files: Vec<(String, Vec<u8>)>) -> Result<Project, Unfit>
    ensures { IfOk result (λ p. p ≡ sources_view files.items) }
{
    match Project::new(alloc, files) {
        Ok(project) => Ok(project),
        Err(_) => Err(Unfit),
    }
}

fn files_of(alloc: Global, files: &[File]) -> Result<Vec<(String, Vec<u8>)>, AllocError>
    ensures { IfOk result (λ list. sources_view list.items ≡ source_files files.now) }
{
    let mut list = Vec::new(alloc);
    for file in files {
        list.push(file_of(alloc, file)?)?;
    }
    Ok(list)
}

fn file_of(alloc: Global, file: &File) -> Result<(String, Vec<u8>), AllocError>
    ensures { IfOk result (λ f. source_view f ≡ source_file file.now) }
{
    let File(name, text) = *file;
    let name = String::from_str(alloc, name)?;
    let bytes = text.as_bytes().to_vec(alloc)?;
    Ok((name, bytes))
}

//! Projects of one file.
ghost use Rattle.std.specs.Prelude.{◌≡◌, [], ◌∷◌, codes, IfOk};
ghost use Rattle.named_files.specs.Projects.{sources_view};
ghost use Rattle.answer_fixtures.specs.Telling.{one_file};

use crate::unfit::Unfit;
use named_files::Project;
use std::alloc::{AllocError, Global};

/// The name of the file.
const FILE: &str = "M.java";

/// The project of the one file `M.java` with this text.
pub fn project_of(alloc: Global, text: &str) -> Result<Project, Unfit>
    ensures { IfOk result (λ project. project ≡ one_file text.now) }
{
    let files = files_of(alloc, text)?;
    match Project::new(alloc, files) {
        Ok(project) => Ok(project),
        Err(_) => Err(Unfit),
    }
}

fn files_of(alloc: Global, text: &str) -> Result<Vec<(String, Vec<u8>)>, AllocError>
    ensures { IfOk result (λ files. sources_view files.items ≡ one_file text.now) }
{
    let name = String::from_str(alloc, FILE)?;
    let bytes = text.as_bytes().to_vec(alloc)?;
    let mut files = Vec::new(alloc);
    files.push((name, bytes))?;
    Ok(files)
}

//! Files read into trees.
ghost use Rattle.std.specs.Prelude.{◌≡◌, IfOk, option_map};
ghost use Rattle.mj_tree.specs.Views.{file_view};
ghost use Rattle.mj_classes.specs.Classes.{files_view};
ghost use Rattle.mj_rules.specs.Sentences.{file_of, trees_of};

use file_index::{ReadFile, read};
use mj_tree::FileTree;
use named_files::Project;
use std::alloc::{AllocError, Global};

/// The tree of a file's bytes, if they are a sentence.
pub fn read_file(alloc: Global, bytes: &[u8]) -> Result<Option<FileTree>, AllocError>
    ensures { IfOk result (λ tree. option_map file_view tree ≡ file_of bytes.now) }
{
    let file = read(alloc, bytes)?;
    let ReadFile { tree, .. } = file;
    Ok(tree)
}

/// The tree of each file of a project, if it is a sentence.
pub fn read_files(alloc: Global, project: &Project) -> Result<Vec<Option<FileTree>>, AllocError>
    ensures { IfOk result (λ trees. files_view trees.items ≡ trees_of project.now) }
{
    let mut trees = Vec::new(alloc);
    for (_, bytes) in project.files() {
        trees.push(read_file(alloc, bytes)?)?;
    }
    Ok(trees)
}

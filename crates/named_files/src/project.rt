//! Projects: named files in their order.
ghost use Rattle.std.specs.Prelude.{◌≡◌, ◌≢◌, ◌⊎◌, ℕ, List, map, position, Bool, not, IfOk, IfErr, MatchResult, string_bytes};
ghost use Rattle.named_files.specs.Projects.{sources_view, names_of, IsProject, Refuses, is_file_name};
ghost use Rattle.named_files.specs.Repeats.{repeats};
ghost use Rattle.named_files.specs.declared.project.ProjectFault.{ProjectFault};
ghost use Rattle.named_files.specs.declared.project.ProjectFault.TheVariants.{OutOfMemory};

use crate::repetition::repeats;
use std::alloc::{AllocError, Global};
use std::marker::Model;
use thiserror::Error;

/// Why files are no project.
#[derive(Clone, Copy, Debug, PartialEq, Eq, Error)]
pub enum ProjectFault {
    /// The file with this number, counted from 0, has the name of an earlier one.
    #[error("file {0} has the name of an earlier file")]
    RepeatedFile(usize),
    #[error("there are no files")]
    NoFiles,
    /// There are more than 4,096 files.
    #[error("there are more than 4096 files")]
    TooManyFiles,
    /// The name of the file with this number is empty or has more than 255 bytes.
    #[error("the name of file {0} is empty or longer than 255 bytes")]
    BadFileName(usize),
    #[error("out of memory")]
    OutOfMemory,
}

impl From<AllocError> for ProjectFault {
    ghost use Rattle.named_files.specs.declared.project.ProjectFault.TheVariants.{OutOfMemory};

    ghost from_gives = { λ _ e. e ≡ OutOfMemory };

    fn from(_: AllocError) -> Self {
        ProjectFault::OutOfMemory
    }
}

/// Named files in their order: 1 to 4,096, with distinct names of 1 to 255 bytes.
pub struct Project {
    files: Vec<(String, Vec<u8>)>,
}

impl Drop for Project {
    fn drop(self) {
        let Project { files: _ } = self;
    }
}

impl Model for Project {
    ghost use Rattle.std.specs.Prelude.{List};
    ghost use Rattle.named_files.specs.Projects.{SourceFile, sources_view, IsProject};

    ghost Value = { List SourceFile };

    ghost view = { λ project. sources_view project.files.items };

    ghost invariant = { λ project. IsProject (sources_view project.files.items) };
}

impl Project {
    /// The most files of a project.
    pub const MOST_FILES: usize = 4096;

    /// The most bytes of a file's name.
    pub const MOST_NAME_BYTES: usize = 255;

    /// The project of these files, or the first reason why they are none.
    pub fn new(alloc: Global, files: Vec<(String, Vec<u8>)>) -> Result<Self, ProjectFault>
        ensures accepted { IfOk result (λ project. project ≡ sources_view files.items) }
        ensures accepts { IsProject (sources_view files.items)
            → MatchResult result (λ _. Unit {0}) (λ fault. fault ≡ OutOfMemory) }
        ensures refused { IfErr result (λ fault.
            fault ≢ OutOfMemory → Refuses (sources_view files.items) fault) }
        ensures refuses { (fault : ProjectFault) → Refuses (sources_view files.items) fault
            → MatchResult result (λ _. ⊥) (λ e. (e ≡ fault) ⊎ (e ≡ OutOfMemory)) }
    {
        check_files(alloc, &files)?;
        Ok(Project { files })
    }

    /// The files with their bytes, in their order.
    pub fn files(&self) -> &[(String, Vec<u8>)]
        ensures files { sources_view result.now ≡ self.now }
        ensures project { IsProject self.now }
    {
        self.files.as_slice()
    }
}

/// The first reason why these files are no project, if there is one.
fn check_files(alloc: Global, files: &[(String, Vec<u8>)]) -> Result<(), ProjectFault>
    ensures { MatchResult result (λ _. IsProject (sources_view files.now))
        (λ fault. (fault ≡ OutOfMemory) ⊎ Refuses (sources_view files.now) fault) }
{
    if files.is_empty() {
        return Err(ProjectFault::NoFiles);
    }
    if files.len() > Project::MOST_FILES {
        return Err(ProjectFault::TooManyFiles);
    }
    if let Some(number) = bad_name(files) {
        return Err(ProjectFault::BadFileName(number));
    }
    if let Some(number) = repeated_name(alloc, files)? {
        return Err(ProjectFault::RepeatedFile(number));
    }
    Ok(())
}

/// The number of the first file whose name is empty or too long.
fn bad_name(files: &[(String, Vec<u8>)]) -> Option<usize>
    ensures { result ≡ position (λ file. not (is_file_name (string_bytes file.0))) files.now }
{
    files.iter().position(|(name, _)| name.is_empty() || name.len() > Project::MOST_NAME_BYTES)
}

/// The names of files.
fn file_names(alloc: Global, files: &[(String, Vec<u8>)]) -> Result<Vec<&str>, AllocError>
    ensures { IfOk result (λ names.
        map (λ name. name.now) names.items ≡ names_of (sources_view files.now)) }
{
    let mut names = Vec::new(alloc);
    for (name, _) in files {
        names.push(name.as_str())?;
    }
    Ok(names)
}

fn first_set(flags: &[bool]) -> Option<usize>
    ensures { result ≡ position (λ (flag : Bool). flag) flags.now }
{
    flags.iter().position(|flag| *flag)
}

/// The number of the first file that has the name of an earlier one.
fn repeated_name(alloc: Global, files: &[(String, Vec<u8>)]) -> Result<Option<usize>, AllocError>
    ensures { IfOk result (λ number.
        number ≡ position (λ (flag : Bool). flag) (repeats (names_of (sources_view files.now)))) }
{
    let names = file_names(alloc, files)?;
    let flags = repeats(alloc, &names)?;
    Ok(first_set(&flags))
}

//! Tests: which files are no project. What the program prints of projects is shown by golden tests.
use mj_rules::{Project, ProjectFault};
use std::alloc::{AllocError, Global};

/// A name of 256 bytes.
const LONG: &str =
    "aaaaaaaaaaaaaaaaaaaaaaaaaaaaaaaaaaaaaaaaaaaaaaaaaaaaaaaaaaaaaaaaaaaaaaaaaaaaaaaaaaaaaaaaaaaaaaaaaaaaaaaaaaaaaaaaaaaaaaaaaaaaaaaaaaaaaaaaaaaaaaaaaaaaaaaaaaaaaaaaaaaaaaaaaaaaaaaaaaaaaaaaaaaaaaaaaaaaaaaaaaaaaaaaaaaaaaaaaaaaaaaaaaaaaaaaaaaaaaaaaaaaaaaaaaaaaaaa";

/// The names of files, and why the files are no project.
const REFUSED: &[(&[&str], Option<ProjectFault>)] = &[
    (&["a", "b"], None),
    (&[], Some(ProjectFault::NoFiles)),
    (&["a", ""], Some(ProjectFault::BadFileName(1))),
    (&["a", LONG], Some(ProjectFault::BadFileName(1))),
    (&["a", "b", "a", "b"], Some(ProjectFault::RepeatedFile(2))),
    (&["a", "a", ""], Some(ProjectFault::BadFileName(2))),
];

/// Empty files of these names.
fn files(alloc: Global, names: &[&str]) -> Result<Vec<(String, Vec<u8>)>, AllocError> {
    let mut list = Vec::new(alloc);
    for name in names {
        list.push((String::from_str(alloc, name)?, Vec::new(alloc)))?;
    }
    Ok(list)
}

/// Whether this is why empty files of these names are no project.
fn is_refused(
    alloc: Global,
    names: &[&str],
    want: Option<ProjectFault>,
) -> Result<bool, AllocError> {
    let files = files(alloc, names)?;
    Ok(Project::new(alloc, files).err() == want)
}

#[test]
fn projects_are_refused(rt: HostRuntime) {
    for (names, want) in REFUSED {
        assert!(rt; is_refused(rt.alloc(), names, *want) == Ok(true));
    }
}

//! How much has changed since the previous session.
ghost use Rattle.std.specs.Prelude.{◌≡◌, ◌<◌, ◌≤◌, length, IfOk};
ghost use Rattle.std.specs.List.{count_by};
ghost use Rattle.std.specs.Option.{option_copied};
ghost use Rattle.item_ids.specs.declared.key.Key.TheVariants.{Source};
ghost use Rattle.named_files.specs.Projects.{sources_view};
ghost use Rattle.project_inputs.specs.Inputs.{AreNamed, has_source};
ghost use Rattle.driver.specs.Changes.{is_changed, changed_since};

use item_ids::Key;
use named_files::Project;
use ordered_names::Name;
use profiles::Profile;
use project_inputs::same_source;
use sessions::Session;
use std::alloc::{AllocError, Global};

/// How many files of a project the previous session doesn't have with these bytes: all of them if there is no session, or
/// if it is of another profile.
#[tactic(auto, using(project_inputs::proofs::SealedRules::named))]
pub fn changed_files(
    alloc: Global,
    past: Option<&Session>,
    profile: Profile,
    project: &Project,
) -> Result<usize, AllocError>
    ensures { IfOk result (λ count. count ≡ changed_since (option_copied past.entry) profile project.now) }
{
    let files = project.files();
    match past {
        Some(past) if past.terms().profile.is(profile) => count_changed(alloc, past, files),
        _ => Ok(files.len()),
    }
}

/// How many of these files a session doesn't have with these bytes.
fn count_changed(
    alloc: Global,
    past: &Session,
    files: &[(String, Vec<u8>)],
) -> Result<usize, AllocError>
    requires { AreNamed files.now }
    ensures { IfOk result (λ count. count ≡ count_by (is_changed past.now) (sources_view files.now)) }
{
    let mut changed = 0;
    for (name, bytes) in files {
        if !has_file(alloc, past, name.as_str(), bytes.as_slice())? {
            changed += 1;
        }
    }
    Ok(changed)
}

/// Whether a session has a file of this name with these bytes.
fn has_file(alloc: Global, past: &Session, name: &str, bytes: &[u8]) -> Result<bool, AllocError>
    requires some { 0 < length name.now }
    requires short { length name.now ≤ 255 }
    ensures { IfOk result (λ there. there ≡ has_source past.now (Source name.now) bytes.now) }
{
    let key = Key::Source(Name::new(alloc, name)?);
    Ok(same_source(past, &key, bytes).is_some())
}

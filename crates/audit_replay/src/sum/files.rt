//! The files of a session, and those of a project.
ghost use Rattle.std.specs.Prelude.{◌≡◌, ◌↔◌, map, IfOk, IsTrue};
ghost use Rattle.std.specs.Arc.{arc_value};
ghost use Rattle.std.specs.List.{AllByRecursion};
ghost use Rattle.item_ids.specs.declared.key.Key.TheVariants as keys;
ghost use Rattle.named_files.specs.Projects.{sources_view, IsProject};
ghost use Rattle.result_bytes.specs.declared.value.Value.TheVariants as values;
ghost use Rattle.sessions.specs.Sessions.{entry_at};
ghost use Rattle.audit_graph.specs.Sources.{HasBytes, HasSources, source_keys};
ghost use Rattle.audit_replay.specs.Audits.{HasValue};
ghost use Rattle.audit_replay.specs.Projects.{AreFilesAlike, HasFilesAlike, IsFileAlike};
ghost use Rattle.audit_replay.specs.Sums.{AreTexts, AreTextsIn};

use audit_graph::file_names;
use fingerprint::Sealed;
use item_ids::Key;
use named_files::Project;
use ordered_names::Name;
use result_bytes::Value;
use sessions::Session;
use std::alloc::{AllocError, Global};
use std::sync::Arc;

/// The results of the sources of the session's files, in their order.
pub(crate) fn texts_in(alloc: Global, session: &Session) -> Result<Vec<Arc<Sealed>>, AllocError>
    requires { HasSources (entry_at session.now) }
    ensures { IfOk result (λ v. AreTextsIn (entry_at session.now) (map arc_value v.items)) }
{
    match file_names(session) {
        Some(names) => Ok(texts_of(alloc, session, names)?),
        None => Ok(Vec::new(alloc)),
    }
}

/// Whether the session's files, of whose sources these are the results, are those of the project.
pub(crate) fn are_files_of(session: &Session, texts: &[Arc<Sealed>], project: &Project) -> bool
    ensures same { IsTrue result ↔ HasFilesAlike (entry_at session.now) (map arc_value texts.now)
        project.now }
    ensures project { IsProject project.now }
{
    let files = project.files();
    match file_names(session) {
        Some(names) => are_alike(names, texts, files),
        None => false,
    }
}

/// The results of the sources of these names.
fn texts_of(
    alloc: Global,
    session: &Session,
    names: &[Name],
) -> Result<Vec<Arc<Sealed>>, AllocError>
    requires { AllByRecursion (HasBytes (entry_at session.now)) (source_keys names.now) }
    ensures { IfOk result
        (λ v. AreTexts (entry_at session.now) names.now (map arc_value v.items)) }
{
    let mut texts = Vec::new(alloc);
    for name in names {
        texts.push(text_of(alloc, session, name)?)?;
    }
    Ok(texts)
}

/// The result of the source of this name.
fn text_of(alloc: Global, session: &Session, name: &Name) -> Result<Arc<Sealed>, AllocError>
    requires { HasBytes (entry_at session.now) (keys.Source name.now) }
    ensures { IfOk result
        (λ a. HasValue (entry_at session.now) (keys.Source name.now) (arc_value a)) }
{
    let key = Key::Source(name.copy(alloc)?);
    match session.find(&key) {
        Some(item) => Arc::try_clone(item.sealed()),
        None => unreachable!(),
    }
}

/// Whether these are the names and the bytes of the files, in their order.
fn are_alike(names: &[Name], texts: &[Arc<Sealed>], files: &[(String, Vec<u8>)]) -> bool
    ensures { IsTrue result
        ↔ AreFilesAlike names.now (map arc_value texts.now) (sources_view files.now) }
{
    if names.len() != files.len() {
        return false;
    }
    if texts.len() != files.len() {
        return false;
    }
    for (i, name) in names.iter().enumerate() {
        let (file, bytes) = &files[i];
        if !is_alike(name, &texts[i], file.as_str(), bytes) {
            return false;
        }
    }
    true
}

/// Whether these are the name and the bytes of the file.
fn is_alike(name: &Name, text: &Sealed, file: &str, bytes: &[u8]) -> bool
    ensures { IsTrue result
        ↔ IsFileAlike name.now text.now (record { name = file.now; bytes = bytes.now }) }
{
    if name.bytes() != file.as_bytes() {
        return false;
    }
    match text.value() {
        Value::Source(Some(held)) => held.bytes() == bytes,
        _ => false,
    }
}

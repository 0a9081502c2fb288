//! The files that a session holds.
ghost use Rattle.std.specs.Prelude.{◌≡◌, ◌↔◌, Some, None, IsTrue, IfOk, IfSome, MatchOption, true, Contains};
ghost use Rattle.std.specs.List.{AllByRecursion};
ghost use Rattle.std.specs.BTreeSet.{contains};
ghost use Rattle.item_ids.specs.declared.key.Key.{Key as KeyValue};
ghost use Rattle.item_ids.specs.declared.key.Key.TheVariants as keys;
ghost use Rattle.item_ids.specs.declared.kind.Kind.TheVariants as kinds;
ghost use Rattle.item_ids.specs.Keys.{kind_of, key_cmp};
ghost use Rattle.result_bytes.specs.Storable.{FileNamesFit};
ghost use Rattle.sessions.specs.Sessions.{entries, entry_at};
ghost use Rattle.audit_graph.specs.Firsts.{IsFirstWithout};
ghost use Rattle.audit_graph.specs.Sources.{HasFiles, HasBytes, HasSources, IsAdmitted, IsNoStray, source_keys};
ghost use Rattle.audit_graph.specs.Steps.{SourcesGive};

use item_ids::{Key, Kind};
use ordered_names::Name;
use result_bytes::Value;
use sessions::Session;
use std::alloc::{AllocError, Global};
use std::collections::BTreeSet;

/// Why a session doesn't hold the files of a project.
#[derive(Clone, Copy)]
pub enum SourceFault {
    /// It doesn't hold the names of its files.
    NoFiles,
    /// It holds no bytes of the file at this place.
    Missing(usize),
    /// The record at this index is the source of no file.
    Stray(usize),
    /// Memory ran out.
    OutOfMemory,
}

/// Whether the session holds the files of a project, and no others.
pub(crate) fn check_sources(alloc: Global, session: &Session) -> Result<(), SourceFault>
    ensures { SourcesGive session.now result }
{
    // A session keeps in its type what its records are.
    let _records = session.records();
    let Some(names) = file_names(session) else {
        return Err(SourceFault::NoFiles);
    };
    let sources = match sources_of(alloc, names) {
        Ok(sources) => sources,
        Err(_) => return Err(SourceFault::OutOfMemory),
    };
    if let Some(f) = first_missing(session, &sources) {
        return Err(SourceFault::Missing(f));
    }
    match first_stray(alloc, session, &sources) {
        Ok(None) => Ok(()),
        Ok(Some(n)) => Err(SourceFault::Stray(n)),
        Err(_) => Err(SourceFault::OutOfMemory),
    }
}

/// The names of the files that the session holds.
pub fn file_names(session: &Session) -> Option<&[Name]>
    ensures held { MatchOption result (entry_at session.now keys.Files ≡ None)
        (λ names. HasFiles (entry_at session.now) names.now) }
    ensures fit { IfSome result (λ names. FileNamesFit names.now) }
{
    // A session keeps in its type what its records are.
    let _records = session.records();
    let Some(item) = session.find(&Key::Files) else {
        return None;
    };
    match item.sealed().value() {
        Value::Files(names) => Some(names.names()),
        _ => unreachable!(),
    }
}

/// The keys of the files' sources.
fn sources_of(alloc: Global, names: &[Name]) -> Result<Vec<Key>, AllocError>
    ensures { IfOk result (λ v. v.items ≡ source_keys names.now) }
{
    let mut sources = Vec::new(alloc);
    for name in names {
        sources.push(Key::Source(name.copy(alloc)?))?;
    }
    Ok(sources)
}

/// The place of the first key for which the session holds no bytes.
fn first_missing(session: &Session, sources: &[Key]) -> Option<usize>
    ensures { MatchOption result (AllByRecursion (HasBytes (entry_at session.now)) sources.now)
        (IsFirstWithout (HasBytes (entry_at session.now)) sources.now) }
{
    for (f, source) in sources.iter().enumerate() {
        if !has_bytes(session, source) {
            return Some(f);
        }
    }
    None
}

/// Whether the session holds bytes for a key.
fn has_bytes(session: &Session, source: &Key) -> bool
    ensures { IsTrue result ↔ HasBytes (entry_at session.now) source.now }
{
    match session.find(source) {
        Some(item) => matches!(item.sealed().value(), Value::Source(Some(_))),
        None => false,
    }
}

/// The index of the first record of a source that is none of these.
fn first_stray(
    alloc: Global,
    session: &Session,
    sources: &[Key],
) -> Result<Option<usize>, AllocError>
    ensures { IfOk result (λ found. MatchOption found
        (AllByRecursion (IsNoStray sources.now) (entries session.now))
        (IsFirstWithout (IsNoStray sources.now) (entries session.now))) }
{
    let named = set_of(alloc, sources)?;
    Ok(first_unnamed(session, &named))
}

/// These keys as a set.
fn set_of(alloc: Global, keys: &[Key]) -> Result<BTreeSet<Key>, AllocError>
    ensures { IfOk result (λ set. (q : KeyValue)
        → (contains key_cmp set q ≡ true) ↔ Contains keys.now q) }
{
    let mut set = BTreeSet::new(alloc);
    for key in keys {
        set.insert(key.copy(alloc)?)?;
    }
    Ok(set)
}

/// The index of the first record of a source that isn't in the set.
fn first_unnamed(session: &Session, named: &BTreeSet<Key>) -> Option<usize>
    ensures { MatchOption result
        (AllByRecursion (IsAdmitted (contains key_cmp named.now)) (entries session.now))
        (IsFirstWithout (IsAdmitted (contains key_cmp named.now)) (entries session.now)) }
{
    for (n, item) in session.records().iter().enumerate() {
        if !is_admitted(named, item.key()) {
            return Some(n);
        }
    }
    None
}

/// Whether a key is no source, or in the set.
fn is_admitted(named: &BTreeSet<Key>, key: &Key) -> bool
    ensures { IsTrue result
        ↔ (kind_of key.now ≡ kinds.Source → contains key_cmp named.now key.now ≡ true) }
{
    !matches!(key.kind(), Kind::Source) || named.contains(key)
}

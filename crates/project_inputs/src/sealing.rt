//! The sealed sources of files, by one thread or by several.
ghost use Rattle.std.specs.Prelude.{◌≡◌, ◌<◌, ◌≤◌, ◌++◌, IfOk, IfSome, Some, is_some, length, map};
ghost use Rattle.std.specs.Arc.{arc_value};
ghost use Rattle.result_bytes.specs.declared.value.Value.TheVariants as values;
ghost use Rattle.named_files.specs.Projects.{source_view};
ghost use Rattle.project_inputs.specs.Inputs.{AreNamed, AreSourcesOf, has_source};

use crate::inputs::seal_to_share;
use fingerprint::Sealed;
use item_ids::Key;
use ordered_names::Name;
use result_bytes::{Text, Value};
use sessions::Session;
use std::alloc::{AllocError, Global};
use std::sync::Arc;
use std::thread::{Threads, join};

/// The sources of the files, sealed by so many threads, four at most.
pub(crate) fn sealed_by<T: Threads + Sync>(
    rt: &T,
    alloc: Global,
    past: &Option<Arc<Session>>,
    files: &[(String, Vec<u8>)],
    workers: usize,
) -> Result<Vec<Arc<Sealed>>, AllocError>
    requires { AreNamed files.now }
    ensures { IfOk result (λ v. AreSourcesOf (map source_view files.now) v.items) }
{
    match workers {
        0 | 1 => sealed_sources(alloc, past, files),
        2 | 3 => sealed_by_two(rt, alloc, past, files),
        _ => sealed_by_four(rt, alloc, past, files),
    }
}

/// The sources of the files, sealed by four threads.
fn sealed_by_four<T: Threads + Sync>(
    rt: &T,
    alloc: Global,
    past: &Option<Arc<Session>>,
    files: &[(String, Vec<u8>)],
) -> Result<Vec<Arc<Sealed>>, AllocError>
    requires { AreNamed files.now }
    ensures { IfOk result (λ v. AreSourcesOf (map source_view files.now) v.items) }
{
    let (front, back) = files.split_at(files.len() / 2);
    let (front, back) = join(
        rt,
        || sealed_by_two(rt, alloc, past, front),
        || sealed_by_two(rt, alloc, past, back),
    );
    joined(front?, back?)
}

/// The sources of the files, sealed by two threads.
fn sealed_by_two<T: Threads>(
    rt: &T,
    alloc: Global,
    past: &Option<Arc<Session>>,
    files: &[(String, Vec<u8>)],
) -> Result<Vec<Arc<Sealed>>, AllocError>
    requires { AreNamed files.now }
    ensures { IfOk result (λ v. AreSourcesOf (map source_view files.now) v.items) }
{
    let (front, back) = files.split_at(files.len() / 2);
    let (front, back) = join(
        rt,
        || sealed_sources(alloc, past, front),
        || sealed_sources(alloc, past, back),
    );
    joined(front?, back?)
}

/// The first and behind them the others.
fn joined(front: Vec<Arc<Sealed>>, back: Vec<Arc<Sealed>>) -> Result<Vec<Arc<Sealed>>, AllocError>
    ensures { IfOk result (λ v. v.items ≡ front.items ++ back.items) }
{
    let mut all = front;
    let mut others = back;
    all.append(&mut others)?;
    Ok(all)
}

/// The sources of the files, sealed.
pub(crate) fn sealed_sources(
    alloc: Global,
    past: &Option<Arc<Session>>,
    files: &[(String, Vec<u8>)],
) -> Result<Vec<Arc<Sealed>>, AllocError>
    requires { AreNamed files.now }
    ensures { IfOk result (λ v. AreSourcesOf (map source_view files.now) v.items) }
{
    let mut sources = Vec::with_capacity(alloc, files.len())?;
    for (name, bytes) in files {
        sources.push(source_result(alloc, past, name.as_str(), bytes.as_slice())?)?;
    }
    Ok(sources)
}

/// The result of a file's source: that of the previous session if the bytes are the same, else one whose bytes are
/// copied.
fn source_result(
    alloc: Global,
    past: &Option<Arc<Session>>,
    name: &str,
    bytes: &[u8],
) -> Result<Arc<Sealed>, AllocError>
    requires some { 0 < length name.now }
    requires short { length name.now ≤ 255 }
    ensures { IfOk result (λ a. arc_value a ≡ values.Source (Some bytes.now)) }
{
    if let Some(past) = past {
        if let Some(sealed) = past_source(alloc, past, name, bytes)? {
            return Ok(sealed);
        }
    }
    let text = Text::new(bytes.to_vec(alloc)?);
    seal_to_share(alloc, Value::Source(Some(text)))
}

/// One more owner of the result that a session has for a file's source, if the bytes are the same.
fn past_source(
    alloc: Global,
    past: &Session,
    name: &str,
    bytes: &[u8],
) -> Result<Option<Arc<Sealed>>, AllocError>
    requires some { 0 < length name.now }
    requires short { length name.now ≤ 255 }
    ensures { IfOk result (λ o. IfSome o (λ a. arc_value a ≡ values.Source (Some bytes.now))) }
{
    let key = Key::Source(Name::new(alloc, name)?);
    match same_source(past, &key, bytes) {
        Some(sealed) => Ok(Some(Arc::try_clone(sealed)?)),
        None => Ok(None),
    }
}

/// The result that a session has for a key, or `None` if it isn't a source with these bytes.
pub fn same_source<'a>(past: &'a Session, key: &Key, bytes: &[u8]) -> Option<&'a Arc<Sealed>>
    ensures source { IfSome result (λ a. arc_value a.now ≡ values.Source (Some bytes.now)) }
    ensures there { is_some result ≡ has_source past.now key.now bytes.now }
{
    let sealed = past.find(key)?.sealed();
    match sealed.value() {
        Value::Source(Some(text)) if text.bytes() == bytes => Some(sealed),
        _ => None,
    }
}

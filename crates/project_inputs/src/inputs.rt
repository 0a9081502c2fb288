//! The results of the keys that are inputs.
ghost use Rattle.std.specs.Prelude.{◌≡◌, ◌<◌, ◌≤◌, [], ◌∷◌, ◌++◌, IfOk, IfSome, OnOk, Some, None, MatchOption, Contains, length, map};
ghost use Rattle.std.specs.List.{AllByRecursion};
ghost use Rattle.std.specs.Arc.{arc_value};
ghost use Rattle.item_ids.specs.declared.key.Key.TheVariants as keys;
ghost use Rattle.result_bytes.specs.declared.value.Value.TheVariants as values;
ghost use Rattle.named_files.specs.Projects.{IsProject, names_of, source_view};
ghost use Rattle.recorder.specs.Projects.{bytes_at};
ghost use Rattle.graph_rules.specs.Keys.{input_of};
ghost use Rattle.project_inputs.specs.Inputs.{file_of, bytes_in, IsSource, AreSourcesOf};

use crate::sealing::{sealed_by, sealed_sources};
use fingerprint::{Sealed, seal};
use indexmap::IndexMap;
use item_ids::Key;
use named_files::Project;
use ordered_names::Name;
use result_bytes::{FileNames, Value};
use sessions::Session;
use std::alloc::{AllocError, Global};
use std::marker::Model;
use std::sync::Arc;
use std::thread::Threads;

/// The sealed results of the inputs of a project, each source found by its file's name. Contracts see the project.
pub struct Inputs {
    files: Arc<Sealed>,
    sources: IndexMap<Name, Arc<Sealed>>,
    missing: Arc<Sealed>,
}

impl Drop for Inputs {
    fn drop(self) {
        let Inputs {
            files: _,
            sources: _,
            missing: _,
        } = self;
    }
}

impl Model for Inputs {
    ghost use Rattle.std.specs.Prelude.{◌≡◌, None, map};
    ghost use Rattle.std.specs.Arc.{arc_value};
    ghost use Rattle.std.specs.List.{AllByRecursion};
    ghost use Rattle.result_bytes.specs.declared.value.Value.TheVariants as values;
    ghost use Rattle.named_files.specs.Projects.{IsProject, names_of};
    ghost use Rattle.recorder.specs.Projects.{Project};
    ghost use Rattle.project_inputs.specs.Inputs.{file_of, IsSource};

    ghost Value = { Project };

    ghost view = { λ i. map file_of i.sources.entries };

    ghost invariant = { λ i. (arc_value i.files ≡ values.Files (names_of (map file_of i.sources.entries)))
        × (arc_value i.missing ≡ values.Source None)
        × AllByRecursion IsSource i.sources.entries
        × IsProject (map file_of i.sources.entries) };
}

impl Inputs {
    /// Seals the inputs of a project. A source that the previous session has with the same bytes is taken from there.
    pub fn new(
        alloc: Global,
        past: &Option<Arc<Session>>,
        project: &Project,
    ) -> Result<Self, AllocError>
        ensures { IfOk result (λ i. i ≡ project.now) }
    {
        let sealed = sealed_sources(alloc, past, project.files())?;
        Inputs::of(alloc, project, sealed.as_slice())
    }

    /// Seals the inputs of a project as `new` does, the sources by as many threads as there are workers, up to four.
    pub fn by_workers<T: Threads + Sync>(
        rt: &T,
        alloc: Global,
        past: &Option<Arc<Session>>,
        project: &Project,
        workers: usize,
    ) -> Result<Self, AllocError>
        ensures { IfOk result (λ i. i ≡ project.now) }
    {
        let sealed = sealed_by(rt, alloc, past, project.files(), workers)?;
        Inputs::of(alloc, project, sealed.as_slice())
    }

    /// The inputs of a project, of which the sources are sealed.
    fn of(alloc: Global, project: &Project, sealed: &[Arc<Sealed>]) -> Result<Self, AllocError>
        requires { AreSourcesOf project.now sealed.now }
        ensures { IfOk result (λ i. i ≡ project.now) }
    {
        let files = project.files();
        Ok(Inputs {
            files: files_result(alloc, project)?,
            sources: sources_of(alloc, files, sealed)?,
            missing: seal_to_share(alloc, Value::Source(None))?,
        })
    }

    /// The result of a key that is an input, or `None` for any other key.
    #[tactic(auto, unfolding(graph_rules::specs::Keys::input_of))]
    pub fn get(&self, key: &Key) -> Option<&Arc<Sealed>>
        ensures { MatchOption result (input_of self.now key.now ≡ None)
            (λ a. input_of self.now key.now ≡ Some (arc_value a.now)) }
    {
        match key {
            Key::Files => Some(&self.files),
            Key::Source(name) => Some(self.source(name)),
            _ => None,
        }
    }

    fn source(&self, name: &Name) -> &Arc<Sealed>
        ensures { arc_value result.now ≡ values.Source (bytes_at self.now name.now) }
    {
        match self.sources.get(name) {
            Some(sealed) => sealed,
            None => &self.missing,
        }
    }

    /// The keys of the inputs: the names of the files, and each source.
    pub fn keys(&self, alloc: Global) -> Result<Vec<Key>, AllocError>
        ensures { IfOk result (λ v. v.items ≡ keys.Files ∷ map (λ f. keys.Source f.name) self.now) }
    {
        keys_of(alloc, &self.sources)
    }

    /// What the type keeps.
    pub fn project(&self)
        ensures { IsProject self.now }
    {
        let _sources = &self.sources;
    }
}

/// The keys of the inputs: the names of the files, and each of these sources.
fn keys_of(alloc: Global, sources: &IndexMap<Name, Arc<Sealed>>) -> Result<Vec<Key>, AllocError>
    ensures { IfOk result (λ v. v.items
        ≡ keys.Files ∷ map (λ f. keys.Source f.name) (map file_of sources.now.entries)) }
{
    let mut keys = Vec::with_capacity(alloc, sources.len().saturating_add(1))?;
    keys.push(Key::Files)?;
    for at in 0..sources.len() {
        let Some((name, _)) = sources.get_index(at) else {
            unreachable!();
        };
        keys.push(Key::Source(name.copy(alloc)?))?;
    }
    Ok(keys)
}

/// Seals a value, to be shared.
pub(crate) fn seal_to_share(alloc: Global, value: Value) -> Result<Arc<Sealed>, AllocError>
    ensures { IfOk result (λ a. arc_value a ≡ value) }
{
    Ok(Arc::new(alloc, seal(alloc, value)?)?)
}

/// These sources, found by the names of their files.
fn sources_of(
    alloc: Global,
    files: &[(String, Vec<u8>)],
    sealed: &[Arc<Sealed>],
) -> Result<IndexMap<Name, Arc<Sealed>>, AllocError>
    requires project { IsProject (map source_view files.now) }
    requires sealed { AreSourcesOf (map source_view files.now) sealed.now }
    ensures files { IfOk result (λ m. map file_of m.entries ≡ map source_view files.now) }
    ensures sources { IfOk result (λ m. AllByRecursion IsSource m.entries) }
{
    let mut sources = IndexMap::with_capacity(alloc, files.len())?;
    for (at, (name, _)) in files.iter().enumerate() {
        add_source(alloc, &mut sources, name.as_str(), &sealed[at])?;
    }
    Ok(sources)
}

/// Adds the source of one more file.
fn add_source(
    alloc: Global,
    sources: &mut IndexMap<Name, Arc<Sealed>>,
    name: &str,
    sealed: &Arc<Sealed>,
) -> Result<(), AllocError>
    requires some { 0 < length name.now }
    requires short { length name.now ≤ 255 }
    requires new { Contains (names_of (map file_of sources.old.entries)) name.now → ⊥ }
    requires sources { AllByRecursion IsSource sources.old.entries }
    requires source { arc_value sealed.now ≡ values.Source (Some (bytes_in (arc_value sealed.now))) }
    ensures files { OnOk result (map file_of sources.new.entries
        ≡ map file_of sources.old.entries
        ++ record { name = name.now; bytes = bytes_in (arc_value sealed.now) } ∷ []) }
    ensures sources { OnOk result (AllByRecursion IsSource sources.new.entries) }
{
    let shared = Arc::try_clone(sealed)?;
    let own = Name::new(alloc, name)?;
    sources.insert(own, shared)?;
    Ok(())
}

/// The names of the files.
fn file_names(alloc: Global, files: &[(String, Vec<u8>)]) -> Result<Vec<Name>, AllocError>
    requires { IsProject (map source_view files.now) }
    ensures { IfOk result (λ v. v.items ≡ names_of (map source_view files.now)) }
{
    let mut names = Vec::new(alloc);
    for (name, _) in files {
        names.push(Name::new(alloc, name.as_str())?)?;
    }
    Ok(names)
}

/// The result of the key for the names of the files.
fn files_result(alloc: Global, project: &Project) -> Result<Arc<Sealed>, AllocError>
    ensures { IfOk result (λ a. arc_value a ≡ values.Files (names_of project.now)) }
{
    let names = file_names(alloc, project.files())?;
    seal_to_share(alloc, Value::Files(FileNames::new(names)))
}

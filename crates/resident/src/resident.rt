//! A session in memory.
ghost use Rattle.std.specs.Prelude.{◌≡◌, ◌≢◌, true, is_some, Some, IfOk, OnOk, OnErr};
ghost use Rattle.std.specs.Arc.{arc_value};
ghost use Rattle.item_ids.specs.declared.key.Key.TheVariants as keys;
ghost use Rattle.result_bytes.specs.declared.value.Value.TheVariants as values;
ghost use Rattle.named_files.specs.Projects.{IsProject, sources_view};
ghost use Rattle.recorder.specs.Projects.{bytes_at};
ghost use Rattle.resident.specs.Residents.{EditGives, SetFilesGives};

use edited_inputs::EditedInputs;
use fingerprint::{Sealed, seal};
use item_ids::Key;
use keeping::Keeping;
use named_files::{Project, ProjectFault};
use ordered_names::Name;
use profiles::Profile;
use project_inputs::Inputs;
use resident_graph::{Graph, queue_changed_inputs, queue_key, result_in};
use result_bytes::{Text, Value};
use std::alloc::{AllocError, Global};
use std::marker::{Model, PhantomData};
use std::sync::Arc;
use thiserror::Error;

/// Why a file isn't edited.
#[derive(Clone, Copy, Debug, PartialEq, Eq, Error)]
pub enum EditFault {
    /// The project has no file of this name.
    #[error("there is no file of this name")]
    NoFile,
    #[error("out of memory")]
    OutOfMemory,
}

impl From<AllocError> for EditFault {
    ghost use Rattle.std.specs.Prelude.{◌≡◌};
    ghost use Rattle.resident.specs.declared.resident.EditFault.TheVariants.{OutOfMemory};

    ghost from_gives = { λ _ e. e ≡ OutOfMemory };

    fn from(_: AllocError) -> Self {
        EditFault::OutOfMemory
    }
}

/// A project in memory, with the results that were asked for. An edit notes what it may change, and what is asked for
/// after it is computed from that. Contracts see the profile and the project of now.
pub struct Resident<R: Keeping> {
    alloc: Global,
    profile: Profile,
    inputs: EditedInputs,
    graph: Graph,
    runner: PhantomData<R>,
}

impl<R: Keeping> Drop for Resident<R> {
    fn drop(self) {
        let Resident {
            alloc: _,
            profile: _,
            inputs: _,
            graph: _,
            runner: _,
        } = self;
    }
}

impl<R: Keeping> Model for Resident<R> {
    ghost use Rattle.resident_graph.specs.Graphs.{KeepsGraph};
    ghost use Rattle.resident.specs.Residents.{ResidentValue};

    ghost Value = { ResidentValue };

    ghost view = { λ r. record { profile = r.profile; project = r.inputs } };

    ghost invariant = { λ r. KeepsGraph (R.programs r.profile) r.inputs r.graph };
}

/// The sealed source of these bytes.
fn source_of(alloc: Global, bytes: &[u8]) -> Result<Arc<Sealed>, AllocError>
    ensures { IfOk result (λ a. arc_value a ≡ values.Source (Some bytes.now)) }
{
    let text = Text::new(bytes.to_vec(alloc)?);
    let sealed = seal(alloc, Value::Source(Some(text)))?;
    Ok(Arc::new(alloc, sealed)?)
}

impl<R: Keeping> Resident<R> {
    /// A session of a project in a profile. Nothing is run yet.
    pub fn of(alloc: Global, profile: Profile, project: &Project) -> Result<Self, AllocError>
        ensures { IfOk result (λ r. r ≡ record { profile = profile; project = project.now }) }
    {
        let inputs = Inputs::new(alloc, &None, project)?;
        Ok(Resident {
            alloc,
            profile,
            inputs: EditedInputs::of(alloc, inputs),
            graph: Graph::new(alloc),
            runner: PhantomData,
        })
    }

    /// The profile.
    pub fn profile(&self) -> Profile
        ensures { result ≡ self.now.profile }
    {
        self.profile
    }

    /// The file of this name has these bytes from now on. A name that isn't in the project is refused, and after a
    /// refusal the session is as it was.
    pub fn edit(&mut self, name: &Name, bytes: &[u8]) -> Result<(), EditFault>
        ensures { EditGives self.old name.now bytes.now result self.new }
    {
        let key = Key::Source(name.copy(self.alloc)?);
        if !self.inputs.has(&key) {
            return Err(EditFault::NoFile);
        }
        let sealed = source_of(self.alloc, bytes)?;
        let own = name.copy(self.alloc)?;
        queue_key::<R>(
            self.alloc,
            &mut self.graph,
            self.profile,
            &self.inputs,
            &key,
        )?;
        self.inputs.set_source(own, sealed)?;
        Ok(())
    }

    /// The project is these files from now on, in this order. What is no project is refused, for the reason that
    /// `Project::new` gives, and after a refusal the session is as it was.
    pub fn set_files(&mut self, files: Vec<(String, Vec<u8>)>) -> Result<(), ProjectFault>
        ensures { SetFilesGives self.old (sources_view files.items) result self.new }
    {
        let project = Project::new(self.alloc, files)?;
        let inputs = EditedInputs::of(self.alloc, Inputs::new(self.alloc, &None, &project)?);
        queue_changed_inputs::<R>(
            self.alloc,
            &mut self.graph,
            self.profile,
            &self.inputs,
            &inputs,
        )?;
        self.inputs = inputs;
        Ok(())
    }

    /// What a key means in the project of now. If memory runs out, it can be asked for again.
    pub fn result(&mut self, runner: &mut R, key: &Key) -> Result<Arc<Sealed>, AllocError>
        ensures same { self.new ≡ self.old }
        ensures means { IfOk result (λ a.
            R.queries.mean self.old.profile self.old.project key.now ≡ arc_value a) }
    {
        result_in(
            self.alloc,
            &mut self.graph,
            runner,
            self.profile,
            &self.inputs,
            key,
        )
    }

    /// The answer in the project of now. If memory runs out, it can be asked for again.
    pub fn answer(&mut self, runner: &mut R) -> Result<Arc<Sealed>, AllocError>
        ensures same { self.new ≡ self.old }
        ensures means { IfOk result (λ a.
            R.queries.mean self.old.profile self.old.project keys.Answer ≡ arc_value a) }
    {
        self.result(runner, &Key::Answer)
    }

    /// What the type keeps.
    pub fn project(&self)
        ensures { IsProject self.now.project }
    {
        self.inputs.project();
    }
}

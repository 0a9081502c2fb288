//! Inputs some of which have sources of their own.
ghost use Rattle.std.specs.Prelude.{◌≡◌, true, OnOk, OnErr, Some, None, is_some, option_copied, MatchOption};
ghost use Rattle.std.specs.Arc.{arc_value};
ghost use Rattle.result_bytes.specs.declared.value.Value.TheVariants as values;
ghost use Rattle.named_files.specs.Projects.{IsProject};
ghost use Rattle.recorder.specs.Projects.{bytes_at};
ghost use Rattle.graph_rules.specs.Keys.{input_of};
ghost use Rattle.project_inputs.specs.Inputs.{bytes_in};
ghost use Rattle.edited_inputs.specs.Edits.{with_bytes, source_of, is_file, holds_source};

use fingerprint::Sealed;
use indexmap::IndexMap;
use item_ids::Key;
use ordered_names::Name;
use project_inputs::Inputs;
use result_bytes::Value;
use std::alloc::{AllocError, Global};
use std::marker::Model;
use std::sync::Arc;

/// The inputs of a project, some of whose files have sources of their own. Contracts see the project, in which these
/// files have the bytes of their sources.
pub struct EditedInputs {
    inputs: Inputs,
    sources: IndexMap<Name, Arc<Sealed>>,
}

impl Drop for EditedInputs {
    fn drop(self) {
        let EditedInputs {
            inputs: _,
            sources: _,
        } = self;
    }
}

impl Model for EditedInputs {
    ghost use Rattle.std.specs.List.{AllByRecursion};
    ghost use Rattle.recorder.specs.Projects.{Project};
    ghost use Rattle.edited_inputs.specs.Edits.{edited, IsSourceIn};

    ghost Value = { Project };

    ghost view = { λ i. edited i.inputs i.sources.entries };

    ghost invariant = { λ i. AllByRecursion (IsSourceIn i.inputs) i.sources.entries };
}

impl EditedInputs {
    /// These inputs. No file has a source of its own yet.
    pub fn of(alloc: Global, inputs: Inputs) -> Self
        ensures { result ≡ inputs }
    {
        EditedInputs {
            inputs,
            sources: IndexMap::new(alloc),
        }
    }

    /// The result of a key that is an input, or `None` for any other key.
    pub fn get(&self, key: &Key) -> Option<&Arc<Sealed>>
        ensures { MatchOption result (input_of self.now key.now ≡ None)
            (λ a. input_of self.now key.now ≡ Some (arc_value a.now)) }
    {
        match own_source(&self.sources, key) {
            Some(sealed) => Some(sealed),
            None => self.inputs.get(key),
        }
    }

    /// Whether the key is the source of a file that is there.
    pub fn has(&self, key: &Key) -> bool
        ensures { result ≡ is_file self.now key.now }
    {
        match self.inputs.get(key) {
            Some(sealed) => is_source(sealed.value()),
            None => false,
        }
    }

    /// The file of this name has another source from now on. If memory runs out the project stays as it was.
    pub fn set_source(&mut self, name: Name, sealed: Arc<Sealed>) -> Result<(), AllocError>
        requires there { is_some (bytes_at self.old name) ≡ true }
        requires source { arc_value sealed ≡ values.Source (Some (bytes_in (arc_value sealed))) }
        ensures ok { OnOk result (self.new
            ≡ with_bytes self.old name (bytes_in (arc_value sealed))) }
        ensures err { OnErr result (self.new ≡ self.old) }
    {
        self.sources.insert(name, sealed)?;
        Ok(())
    }

    /// What the type keeps.
    pub fn project(&self)
        ensures { IsProject self.now }
    {
        self.inputs.project();
    }
}

/// The source of its own that a key has.
fn own_source<'a>(sources: &'a IndexMap<Name, Arc<Sealed>>, key: &Key) -> Option<&'a Arc<Sealed>>
    ensures { option_copied result ≡ source_of sources.now.entries key.now }
{
    match key {
        Key::Source(name) => sources.get(name),
        _ => None,
    }
}

/// Whether the value is a source of a file that is there.
fn is_source(value: &Value) -> bool
    ensures { result ≡ holds_source value.now }
{
    matches!(value, Value::Source(Some(_)))
}

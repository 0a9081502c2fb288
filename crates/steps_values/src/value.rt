//! Values of queries.
ghost use Rattle.std.specs.Prelude.{◌≡◌, option_copied};

use crate::files::{FileNames, Text};
use crate::plan::Plan;
use ordered_names::Name;
use steps_keys::Kind;

/// The result of a query, one arm for each kind. `None` is the result for a key that names nothing.
pub enum Value {
    /// The names of the files.
    Files(FileNames),
    /// The bytes of a file.
    Source(Option<Text>),
    /// The steps of the build; none if no plan can be read.
    Plan(Option<Plan>),
    /// What a step makes of files alone.
    Compile(Option<Text>),
    /// What a step makes of files and of what other steps made.
    Link(Option<Text>),
    /// What the build makes.
    Answer(Option<Text>),
}

impl Drop for Value {
    fn drop(self) {
        match self {
            Value::Files(_)
            | Value::Source(_)
            | Value::Plan(_)
            | Value::Compile(_)
            | Value::Link(_)
            | Value::Answer(_) => {}
        }
    }
}

impl Value {
    ghost use Rattle.steps_values.specs.Values.{kind_of_value};
    ghost use Rattle.steps_values.specs.Parts.{files_in, text_in, plan_in};

    /// The kind of query that it is a result of.
    pub fn kind(&self) -> Kind
        ensures { result ≡ kind_of_value self.now }
    {
        match self {
            Value::Files(_) => Kind::Files,
            Value::Source(_) => Kind::Source,
            Value::Plan(_) => Kind::Plan,
            Value::Compile(_) => Kind::Compile,
            Value::Link(_) => Kind::Link,
            Value::Answer(_) => Kind::Answer,
        }
    }

    /// The names of the files.
    pub fn files(&self) -> &[Name]
        ensures { result.now ≡ files_in self.now }
    {
        match self {
            Value::Files(files) => files.names(),
            _ => &[],
        }
    }

    /// The bytes of a file, of what a step makes or of what the build makes.
    pub fn text(&self) -> Option<&Text>
        ensures { option_copied result ≡ text_in self.now }
    {
        match self {
            Value::Source(text) | Value::Compile(text) | Value::Link(text) | Value::Answer(text) =>
                { text.as_ref() }
            _ => None,
        }
    }

    /// The steps of the build.
    pub fn plan(&self) -> Option<&Plan>
        ensures { option_copied result ≡ plan_in self.now }
    {
        match self {
            Value::Plan(plan) => plan.as_ref(),
            _ => None,
        }
    }
}

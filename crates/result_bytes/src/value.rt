//! Values of queries.
ghost use Rattle.std.specs.Prelude.{◌≡◌, option_copied};

use crate::class::{Header, Signature, Supers};
use crate::files::{FileNames, Index, IndexRow, Text};
use answer_bytes::{Faults, Members, WholeAnswer};
use item_ids::Kind;
use mj_answer::Diagnostic;
use ordered_names::Name;
use tree_bytes::{Body, Tree};

/// The result of a query, one arm for each kind. `None` is the result for a key that names nothing.
pub enum Value {
    /// The names of the files.
    Files(FileNames),
    /// The bytes of a file.
    Source(Option<Text>),
    /// The tree of a file.
    Tree(Option<Tree>),
    /// Each class with its file.
    Index(Index),
    /// A class without its bodies.
    Header(Option<Header>),
    /// A method, or the statement of `main`.
    Method(Option<Body>),
    /// The types of a method.
    Sig(Option<Signature>),
    /// The chain of a class.
    Supers(Option<Supers>),
    /// The fields and methods of a class.
    Members(Option<Members>),
    /// The diagnostics in a class's declarations.
    CheckClass(Faults),
    /// The diagnostics in a method's body.
    CheckBody(Faults),
    /// All diagnostics of a class.
    Diags(Faults),
    /// The answer for the project.
    Answer(WholeAnswer),
}

impl Drop for Value {
    fn drop(self) {
        match self {
            Value::Files(_)
            | Value::Source(_)
            | Value::Tree(_)
            | Value::Index(_)
            | Value::Header(_)
            | Value::Method(_)
            | Value::Sig(_)
            | Value::Supers(_)
            | Value::Members(_)
            | Value::CheckClass(_)
            | Value::CheckBody(_)
            | Value::Diags(_)
            | Value::Answer(_) => {}
        }
    }
}

impl Value {
    ghost use Rattle.result_bytes.specs.Values.{kind_of_value};
    ghost use Rattle.result_bytes.specs.Parts.{files_in, source_in, tree_in, index_in, header_in, body_in, signature_in, supers_in, members_in, faults_in};
    ghost use Rattle.ordered_names.specs.Order.{IsAscendingByName};
    ghost use Rattle.answer_bytes.specs.Storable.{AreClassFaults, ClassFaultsFit};

    /// The kind of query that it is a result of.
    pub fn kind(&self) -> Kind
        ensures { result ≡ kind_of_value self.now }
    {
        match self {
            Value::Files(_) => Kind::Files,
            Value::Source(_) => Kind::Source,
            Value::Tree(_) => Kind::Tree,
            Value::Index(_) => Kind::Index,
            Value::Header(_) => Kind::Header,
            Value::Method(_) => Kind::Method,
            Value::Sig(_) => Kind::Sig,
            Value::Supers(_) => Kind::Supers,
            Value::Members(_) => Kind::Members,
            Value::CheckClass(_) => Kind::CheckClass,
            Value::CheckBody(_) => Kind::CheckBody,
            Value::Diags(_) => Kind::Diags,
            Value::Answer(_) => Kind::Answer,
        }
    }

    /// The names of the files.
    pub fn files(&self) -> &[Name]
        ensures { result.now ≡ files_in self.now }
    {
        match self {
            Value::Files(files) => files.names(),
            _ => &[],
        }
    }

    /// The bytes of a file.
    pub fn source(&self) -> Option<&Text>
        ensures { option_copied result ≡ source_in self.now }
    {
        match self {
            Value::Source(text) => text.as_ref(),
            _ => None,
        }
    }

    /// The tree of a file.
    pub fn tree(&self) -> Option<&Tree>
        ensures { option_copied result ≡ tree_in self.now }
    {
        match self {
            Value::Tree(tree) => tree.as_ref(),
            _ => None,
        }
    }

    /// Each class with its file. The rows ascend by class.
    pub fn index(&self) -> &[IndexRow]
        ensures value { result.now ≡ index_in self.now }
        ensures ascending { IsAscendingByName (λ row. row.class) result.now }
    {
        match self {
            Value::Index(index) => index.rows(),
            _ => &[],
        }
    }

    /// A class without its bodies.
    pub fn header(&self) -> Option<&Header>
        ensures { option_copied result ≡ header_in self.now }
    {
        match self {
            Value::Header(header) => header.as_ref(),
            _ => None,
        }
    }

    /// A method, or the statement of `main`.
    pub fn body(&self) -> Option<&Body>
        ensures { option_copied result ≡ body_in self.now }
    {
        match self {
            Value::Method(body) => body.as_ref(),
            _ => None,
        }
    }

    /// The types of a method.
    pub fn signature(&self) -> Option<&Signature>
        ensures { option_copied result ≡ signature_in self.now }
    {
        match self {
            Value::Sig(signature) => signature.as_ref(),
            _ => None,
        }
    }

    /// The chain of a class.
    pub fn supers(&self) -> Option<&Supers>
        ensures { option_copied result ≡ supers_in self.now }
    {
        match self {
            Value::Supers(supers) => supers.as_ref(),
            _ => None,
        }
    }

    /// The fields and methods of a class.
    pub fn members(&self) -> Option<&Members>
        ensures { option_copied result ≡ members_in self.now }
    {
        match self {
            Value::Members(members) => members.as_ref(),
            _ => None,
        }
    }

    /// The diagnostics, of the three kinds that are lists of them.
    pub fn faults(&self) -> &[Diagnostic]
        ensures value { result.now ≡ faults_in self.now }
        ensures fits { ClassFaultsFit result.now }
        ensures places { AreClassFaults result.now }
    {
        match self {
            Value::CheckClass(faults) => faults.list(),
            Value::CheckBody(faults) => faults.list(),
            Value::Diags(faults) => faults.list(),
            _ => &[],
        }
    }
}

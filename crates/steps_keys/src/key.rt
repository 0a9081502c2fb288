//! Keys of queries.
ghost use Rattle.std.specs.Prelude.{◌≡◌, ◌↔◌, List, ℕ, [], IsSome, IfSome, IfOk, option_map};
ghost use Rattle.steps_keys.specs.Kinds.{FitNames, text_of};
ghost use Rattle.std.specs.Option.{option_copied};

use crate::kind::Kind;
use ordered_names::Name;
use std::alloc::{AllocError, Global};
use std::cmp::Ordering;
use std::hash::{Hash, Hasher};

/// The key of a query, with the name that its kind has: a file's, or a step's. Keys are ordered by the number of their
/// kind, then by the name's bytes.
pub enum Key {
    Files,
    Source(Name),
    Plan,
    Compile(Name),
    Link(Name),
    Answer,
}

impl Drop for Key {
    fn drop(self) {
        match self {
            Key::Files
            | Key::Source(_)
            | Key::Plan
            | Key::Compile(_)
            | Key::Link(_)
            | Key::Answer => {}
        }
    }
}

impl Key {
    ghost use Rattle.steps_keys.specs.Keys.{kind_of, class_of, member_of};

    /// The key of this kind with these names, a file or a step as the class, and no member. There is none where a
    /// name is missing or one too many.
    pub fn new(kind: Kind, class: Option<Name>, member: Option<Name>) -> Option<Key>
        ensures named { IsSome result ↔ FitNames kind class member }
        ensures kind { IfSome result (λ key. kind_of key ≡ kind) }
        ensures class { IfSome result (λ key. class_of key ≡ class) }
        ensures member { IfSome result (λ key. member_of key ≡ member) }
    {
        match (kind, class, member) {
            (Kind::Files, None, None) => Some(Key::Files),
            (Kind::Source, Some(file), None) => Some(Key::Source(file)),
            (Kind::Plan, None, None) => Some(Key::Plan),
            (Kind::Compile, Some(step), None) => Some(Key::Compile(step)),
            (Kind::Link, Some(step), None) => Some(Key::Link(step)),
            (Kind::Answer, None, None) => Some(Key::Answer),
            _ => None,
        }
    }

    /// What the query asks for.
    pub fn kind(&self) -> Kind
        ensures { result ≡ kind_of self.now }
    {
        match self {
            Key::Files => Kind::Files,
            Key::Source(_) => Kind::Source,
            Key::Plan => Kind::Plan,
            Key::Compile(_) => Kind::Compile,
            Key::Link(_) => Kind::Link,
            Key::Answer => Kind::Answer,
        }
    }

    /// The file, or the step, that the query is about.
    pub fn class(&self) -> Option<&Name>
        ensures { option_copied result ≡ class_of self.now }
    {
        match self {
            Key::Files | Key::Plan | Key::Answer => None,
            Key::Source(name) | Key::Compile(name) | Key::Link(name) => Some(name),
        }
    }

    /// No key has a second name.
    pub fn member(&self) -> Option<&Name>
        ensures { option_copied result ≡ member_of self.now }
    {
        match self {
            Key::Files
            | Key::Source(_)
            | Key::Plan
            | Key::Compile(_)
            | Key::Link(_)
            | Key::Answer => None,
        }
    }

    /// An equal key.
    pub fn copy(&self, alloc: Global) -> Result<Key, AllocError>
        ensures { IfOk result (λ key. key ≡ self.now) }
    {
        Ok(match self {
            Key::Files => Key::Files,
            Key::Source(file) => Key::Source(file.copy(alloc)?),
            Key::Plan => Key::Plan,
            Key::Compile(step) => Key::Compile(step.copy(alloc)?),
            Key::Link(step) => Key::Link(step.copy(alloc)?),
            Key::Answer => Key::Answer,
        })
    }
}

/// The bytes of a name that may be missing.
fn text(name: Option<&Name>) -> &[u8]
    ensures { result.now ≡ text_of (option_copied name.entry) }
{
    match name {
        Some(name) => name.bytes(),
        None => &[],
    }
}

impl PartialEq for Key {
    ghost use Rattle.std.specs.Ordering.{eq_by_cmp};
    ghost use Rattle.std.specs.Cmp.Rules.{comparing};
    ghost use Rattle.std.proofs.Common.{rules};
    ghost use Rattle.steps_keys.specs.Keys.{key_cmp, key_total};

    ghost eq = { eq_by_cmp key_cmp };

    ghost laws = { Prim.search (key_total, comparing, rules) };

    fn eq(&self, other: &Key) -> bool {
        if self.kind().number() != other.kind().number() {
            return false;
        }
        if text(self.class()) != text(other.class()) {
            return false;
        }
        text(self.member()) == text(other.member())
    }
}

impl Eq for Key {
    ghost use Rattle.std.specs.Cmp.Rules.{comparing};
    ghost use Rattle.std.proofs.Common.{rules};
    ghost use Rattle.steps_keys.specs.Keys.{key_total};

    ghost laws = { Prim.search (key_total, comparing, rules) };
}

impl PartialOrd for Key {
    ghost use Rattle.std.specs.Ordering.{as_partial_cmp};
    ghost use Rattle.std.specs.Cmp.Rules.{comparing};
    ghost use Rattle.std.proofs.Common.{rules};
    ghost use Rattle.steps_keys.specs.Keys.{key_cmp, key_total};

    ghost partial_cmp = { as_partial_cmp key_cmp };

    ghost laws = { Prim.search (key_total, comparing, rules) };

    fn partial_cmp(&self, other: &Key) -> Option<Ordering> {
        Some(self.cmp(other))
    }
}

impl Ord for Key {
    ghost use Rattle.std.specs.Cmp.Rules.{comparing};
    ghost use Rattle.std.proofs.Common.{rules};
    ghost use Rattle.steps_keys.specs.Keys.{key_cmp, key_total};

    ghost cmp = { key_cmp };

    ghost total = { Prim.search (key_total, comparing, rules) };

    ghost matches_partial_cmp = { Prim.search (comparing, rules) };

    ghost matches_eq = { Prim.search (comparing, rules) };

    fn cmp(&self, other: &Key) -> Ordering {
        self.kind()
            .number()
            .cmp(&other.kind().number())
            .then_with(|| text(self.class()).cmp(text(other.class())))
            .then_with(|| text(self.member()).cmp(text(other.member())))
    }
}

impl Hash for Key {
    ghost use Rattle.std.specs.Prelude.{◌++◌, ◌∷◌, []};
    ghost use Rattle.std.specs.Hash as writes;
    ghost use Rattle.steps_keys.specs.Keys.{number, class_text, member_text};
    ghost use Rattle.steps_keys.specs.Hashes.{alike};

    ghost hash_input = { λ key. writes.u8 (number key) ++ class_text key ∷ member_text key ∷ [] };

    ghost respects_eq = { alike };

    fn hash<H: Hasher>(&self, state: &mut H) {
        state.write_u8(self.kind().number());
        state.write(text(self.class()));
        state.write(text(self.member()));
    }
}

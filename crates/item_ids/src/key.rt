//! Keys of queries.
ghost use Rattle.std.specs.Prelude.{◌≡◌, ◌↔◌, List, ℕ, [], IsSome, IfSome, IfOk, option_map};
ghost use Rattle.item_ids.specs.Kinds.{FitNames, text_of};
ghost use Rattle.std.specs.Option.{option_copied};

use crate::kind::Kind;
use ordered_names::Name;
use std::alloc::{AllocError, Global};
use std::cmp::Ordering;
use std::hash::{Hash, Hasher};

/// The key of a query, with the names that its kind has: a file, a class, or a class and one of its methods.
/// Keys are ordered by the number of their kind, then by file or class, then by method, names by their bytes.
pub enum Key {
    Files,
    Source(Name),
    Tree(Name),
    Index,
    Header(Name),
    Method(Name, Name),
    Sig(Name, Name),
    Supers(Name),
    Members(Name),
    CheckClass(Name),
    CheckBody(Name, Name),
    Diags(Name),
    Answer,
}

impl Drop for Key {
    fn drop(self) {
        match self {
            Key::Files
            | Key::Source(_)
            | Key::Tree(_)
            | Key::Index
            | Key::Header(_)
            | Key::Method(_, _)
            | Key::Sig(_, _)
            | Key::Supers(_)
            | Key::Members(_)
            | Key::CheckClass(_)
            | Key::CheckBody(_, _)
            | Key::Diags(_)
            | Key::Answer => {}
        }
    }
}

impl Key {
    ghost use Rattle.item_ids.specs.Keys.{kind_of, class_of, member_of};

    /// The key of this kind with these names; a file counts as a class. There is none if a name is missing
    /// or one too many.
    pub fn new(kind: Kind, class: Option<Name>, member: Option<Name>) -> Option<Key>
        ensures named { IsSome result ↔ FitNames kind class member }
        ensures kind { IfSome result (λ key. kind_of key ≡ kind) }
        ensures class { IfSome result (λ key. class_of key ≡ class) }
        ensures member { IfSome result (λ key. member_of key ≡ member) }
    {
        match (kind, class, member) {
            (Kind::Files, None, None) => Some(Key::Files),
            (Kind::Source, Some(file), None) => Some(Key::Source(file)),
            (Kind::Tree, Some(file), None) => Some(Key::Tree(file)),
            (Kind::Index, None, None) => Some(Key::Index),
            (Kind::Header, Some(class), None) => Some(Key::Header(class)),
            (Kind::Method, Some(class), Some(member)) => Some(Key::Method(class, member)),
            (Kind::Sig, Some(class), Some(member)) => Some(Key::Sig(class, member)),
            (Kind::Supers, Some(class), None) => Some(Key::Supers(class)),
            (Kind::Members, Some(class), None) => Some(Key::Members(class)),
            (Kind::CheckClass, Some(class), None) => Some(Key::CheckClass(class)),
            (Kind::CheckBody, Some(class), Some(member)) => Some(Key::CheckBody(class, member)),
            (Kind::Diags, Some(class), None) => Some(Key::Diags(class)),
            (Kind::Answer, None, None) => Some(Key::Answer),
            _ => None,
        }
    }

    /// What the query asks for.
    pub fn kind(&self) -> Kind
        ensures { result ≡ kind_of self.now }
    {
        match self {
            Key::Files => Kind::Files,
            Key::Source(_) => Kind::Source,
            Key::Tree(_) => Kind::Tree,
            Key::Index => Kind::Index,
            Key::Header(_) => Kind::Header,
            Key::Method(_, _) => Kind::Method,
            Key::Sig(_, _) => Kind::Sig,
            Key::Supers(_) => Kind::Supers,
            Key::Members(_) => Kind::Members,
            Key::CheckClass(_) => Kind::CheckClass,
            Key::CheckBody(_, _) => Kind::CheckBody,
            Key::Diags(_) => Kind::Diags,
            Key::Answer => Kind::Answer,
        }
    }

    /// The class, or the file, that the query is about.
    pub fn class(&self) -> Option<&Name>
        ensures { option_copied result ≡ class_of self.now }
    {
        match self {
            Key::Files | Key::Index | Key::Answer => None,
            Key::Source(name)
            | Key::Tree(name)
            | Key::Header(name)
            | Key::Supers(name)
            | Key::Members(name)
            | Key::CheckClass(name)
            | Key::Diags(name)
            | Key::Method(name, _)
            | Key::Sig(name, _)
            | Key::CheckBody(name, _) => Some(name),
        }
    }

    /// The method that the query is about.
    pub fn member(&self) -> Option<&Name>
        ensures { option_copied result ≡ member_of self.now }
    {
        match self {
            Key::Method(_, name) | Key::Sig(_, name) | Key::CheckBody(_, name) => Some(name),
            _ => None,
        }
    }

    /// An equal key.
    pub fn copy(&self, alloc: Global) -> Result<Key, AllocError>
        ensures { IfOk result (λ key. key ≡ self.now) }
    {
        Ok(match self {
            Key::Files => Key::Files,
            Key::Source(file) => Key::Source(file.copy(alloc)?),
            Key::Tree(file) => Key::Tree(file.copy(alloc)?),
            Key::Index => Key::Index,
            Key::Header(class) => Key::Header(class.copy(alloc)?),
            Key::Method(class, member) => Key::Method(class.copy(alloc)?, member.copy(alloc)?),
            Key::Sig(class, member) => Key::Sig(class.copy(alloc)?, member.copy(alloc)?),
            Key::Supers(class) => Key::Supers(class.copy(alloc)?),
            Key::Members(class) => Key::Members(class.copy(alloc)?),
            Key::CheckClass(class) => Key::CheckClass(class.copy(alloc)?),
            Key::CheckBody(class, member) => Key::CheckBody(
                class.copy(alloc)?,
                member.copy(alloc)?,
            ),
            Key::Diags(class) => Key::Diags(class.copy(alloc)?),
            Key::Answer => Key::Answer,
        })
    }
}

/// The bytes of a name that may be missing.
fn text(name: Option<&Name>) -> &[u8]
    ensures { result.now ≡ text_of (option_copied name.entry) }
{
    match name {
        Some(name) => name.bytes(),
        None => &[],
    }
}

impl PartialEq for Key {
    ghost use Rattle.std.specs.Ordering.{eq_by_cmp};
    ghost use Rattle.std.specs.Cmp.Rules.{comparing};
    ghost use Rattle.std.proofs.Common.{rules};
    ghost use Rattle.item_ids.specs.Keys.{key_cmp, key_total};

    ghost eq = { eq_by_cmp key_cmp };

    ghost laws = { Prim.search (key_total, comparing, rules) };

    fn eq(&self, other: &Key) -> bool {
        if self.kind().number() != other.kind().number() {
            return false;
        }
        if text(self.class()) != text(other.class()) {
            return false;
        }
        text(self.member()) == text(other.member())
    }
}

impl Eq for Key {
    ghost use Rattle.std.specs.Cmp.Rules.{comparing};
    ghost use Rattle.std.proofs.Common.{rules};
    ghost use Rattle.item_ids.specs.Keys.{key_total};

    ghost laws = { Prim.search (key_total, comparing, rules) };
}

impl PartialOrd for Key {
    ghost use Rattle.std.specs.Ordering.{as_partial_cmp};
    ghost use Rattle.std.specs.Cmp.Rules.{comparing};
    ghost use Rattle.std.proofs.Common.{rules};
    ghost use Rattle.item_ids.specs.Keys.{key_cmp, key_total};

    ghost partial_cmp = { as_partial_cmp key_cmp };

    ghost laws = { Prim.search (key_total, comparing, rules) };

    fn partial_cmp(&self, other: &Key) -> Option<Ordering> {
        Some(self.cmp(other))
    }
}

impl Ord for Key {
    ghost use Rattle.std.specs.Cmp.Rules.{comparing};
    ghost use Rattle.std.proofs.Common.{rules};
    ghost use Rattle.item_ids.specs.Keys.{key_cmp, key_total};

    ghost cmp = { key_cmp };

    ghost total = { Prim.search (key_total, comparing, rules) };

    ghost matches_partial_cmp = { Prim.search (comparing, rules) };

    ghost matches_eq = { Prim.search (comparing, rules) };

    fn cmp(&self, other: &Key) -> Ordering {
        self.kind()
            .number()
            .cmp(&other.kind().number())
            .then_with(|| text(self.class()).cmp(text(other.class())))
            .then_with(|| text(self.member()).cmp(text(other.member())))
    }
}

impl Hash for Key {
    ghost use Rattle.std.specs.Prelude.{◌++◌, ◌∷◌, []};
    ghost use Rattle.std.specs.Hash as writes;
    ghost use Rattle.item_ids.specs.Keys.{number, class_text, member_text};
    ghost use Rattle.item_ids.specs.Hashes.{alike};

    ghost hash_input = { λ key. writes.u8 (number key) ++ class_text key ∷ member_text key ∷ [] };

    ghost respects_eq = { alike };

    fn hash<H: Hasher>(&self, state: &mut H) {
        state.write_u8(self.kind().number());
        state.write(text(self.class()));
        state.write(text(self.member()));
    }
}

//! Names: the texts of identifiers, and of whatever else is named in the same way.
ghost use Rattle.std.specs.Prelude.{◌≡◌, ◌==◌, ◌<◌, ◌≤◌, ℕ, List, length, Some, IfOk};
ghost use Rattle.std.specs.Option.{SomeIff};
ghost use Rattle.std.specs.Str.{IsUtf8};
ghost use Rattle.std.proofs.Common.{rules};
ghost use Rattle.std.specs.Cmp.Lexicographic.{pointwise, slice_cmp};
ghost use Rattle.std.specs.Cmp.{partial_order_from_own_ties};
ghost use Rattle.std.specs.Cmp.Rules.{comparing, hashing};
ghost use Rattle.std.specs.Hash as writes;
ghost use Rattle.std.specs.Ordering.{nat_cmp, as_partial_cmp};
ghost use Rattle.ordered_names.specs.Names.{most_name_bytes};
ghost use Rattle.ordered_names.specs.Names.{bytes_of};
ghost use Rattle.std.specs.Arc.{arc_value};

use arrayvec::ArrayString;
use std::alloc::{AllocError, Global};
use std::cmp::Ordering;
use std::fmt;
use std::hash::{Hash, Hasher};
use std::marker::Model;
use std::sync::Arc;

/// A text of 1 to 255 bytes, which a name shares with its copies. Contracts see its bytes; names are ordered by them.
pub struct Name {
    text: Arc<Text>,
}

impl Drop for Name {
    fn drop(self) {
        let Name { text: _ } = self;
    }
}

/// A short text lies beside the count of its owners, so that memory is taken for it once.
enum Text {
    Short(ArrayString<16>),
    Long(String),
}

impl Drop for Text {
    fn drop(self) {
        match self {
            Text::Short(_) | Text::Long(_) => {}
        }
    }
}

impl Text {
    fn new(alloc: Global, text: &str) -> Result<Self, AllocError>
        ensures { IfOk result (λ t. bytes_of t ≡ text.now) }
    {
        match ArrayString::from(text) {
            Ok(short) => Ok(Text::Short(short)),
            Err(_) => Ok(Text::Long(String::from_str(alloc, text)?)),
        }
    }

    fn as_str(&self) -> &str
        ensures { result.now ≡ bytes_of self.now }
    {
        match self {
            Text::Short(short) => short.as_str(),
            Text::Long(long) => long.as_str(),
        }
    }
}

impl Model for Name {
    ghost Value = { List ℕ };

    ghost view = { λ n. bytes_of (arc_value n.text) };

    ghost invariant = { λ n.
        (0 < length (bytes_of (arc_value n.text))) × (length (bytes_of (arc_value n.text)) ≤ most_name_bytes) };
}

impl Name {
    /// The most bytes of a name.
    pub const MOST: usize = 255;

    /// A name with this text.
    pub fn new(alloc: Global, text: &str) -> Result<Self, AllocError>
        requires some { 0 < length text.now }
        requires short { length text.now ≤ most_name_bytes }
        ensures { IfOk result (λ n. n ≡ text.now) }
    {
        Ok(Name {
            text: Arc::new(alloc, Text::new(alloc, text)?)?,
        })
    }

    /// A name with this text, or `None` if the text is empty or too long.
    pub fn try_new(alloc: Global, text: &str) -> Result<Option<Self>, AllocError>
        ensures { IfOk result (λ name.
            SomeIff name ((0 < length text.now) × (length text.now ≤ most_name_bytes)) text.now) }
    {
        if text.is_empty() || text.len() > Name::MOST {
            return Ok(None);
        }
        Ok(Some(Name::new(alloc, text)?))
    }

    /// An equal name: one more owner of the text.
    pub fn copy(&self, _alloc: Global) -> Result<Self, AllocError>
        ensures { IfOk result (λ n. n ≡ self.now) }
    {
        Ok(Name {
            text: Arc::try_clone(&self.text)?,
        })
    }

    /// The name's text.
    pub fn as_str(&self) -> &str
        ensures { result.now ≡ self.now }
    {
        self.text.as_str()
    }

    /// The bytes of the name's text.
    pub fn bytes(&self) -> &[u8]
        ensures value { result.now ≡ self.now }
        ensures some { 0 < length self.now }
        ensures short { length self.now ≤ most_name_bytes }
        ensures text { IsUtf8 self.now }
    {
        let text = self.text.as_str();
        text.as_bytes()
    }
}

impl PartialEq for Name {
    ghost eq = { pointwise ◌==◌ };

    ghost laws = { Prim.search (comparing, rules) };

    fn eq(&self, other: &Name) -> bool {
        self.bytes() == other.bytes()
    }
}

impl Eq for Name {
    ghost laws = { Prim.search (comparing, rules) };
}

impl PartialOrd for Name {
    ghost partial_cmp = { as_partial_cmp (slice_cmp nat_cmp) };

    ghost laws = { partial_order_from_own_ties (Prim.search (comparing, rules))
        (Prim.search (comparing, rules)) };

    fn partial_cmp(&self, other: &Name) -> Option<Ordering> {
        Some(self.cmp(other))
    }
}

impl Ord for Name {
    ghost cmp = { slice_cmp nat_cmp };

    ghost total = { Prim.search (comparing, rules) };

    ghost matches_partial_cmp = { Prim.search (comparing, rules) };

    ghost matches_eq = { Prim.search (comparing, rules) };

    fn cmp(&self, other: &Name) -> Ordering {
        self.bytes().cmp(other.bytes())
    }
}

impl Hash for Name {
    ghost hash_input = { writes.str };

    ghost respects_eq = { Prim.search (hashing, rules) };

    fn hash<H: Hasher>(&self, state: &mut H) {
        self.as_str().hash(state);
    }
}

impl fmt::Display for Name {
    ghost output = { λ name. Some name };

    fn fmt<W: fmt::Write>(&self, f: &mut fmt::Formatter<W>) -> fmt::Result {
        f.write_str(self.as_str())
    }
}

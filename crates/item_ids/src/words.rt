//! The words for kinds.
ghost use Rattle.std.specs.Prelude.{◌≡◌};
ghost use Rattle.item_ids.specs.Words.{kind_word};

use crate::kind::Kind;

/// The word for a kind, with which texts begin that name a key.
pub fn kind_word(kind: Kind) -> &'static str
    ensures { result.now ≡ kind_word kind }
{
    match kind {
        Kind::Files => "Files",
        Kind::Source => "Source",
        Kind::Tree => "Tree",
        Kind::Index => "Index",
        Kind::Header => "Header",
        Kind::Method => "Method",
        Kind::Sig => "Sig",
        Kind::Supers => "Supers",
        Kind::Members => "Members",
        Kind::CheckClass => "CheckClass",
        Kind::CheckBody => "CheckBody",
        Kind::Diags => "Diags",
        Kind::Answer => "Answer",
    }
}

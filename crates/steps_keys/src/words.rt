//! The words for kinds.
ghost use Rattle.std.specs.Prelude.{◌≡◌};
ghost use Rattle.steps_keys.specs.Words.{kind_word};

use crate::kind::Kind;

/// The word for a kind, with which texts begin that name a key.
pub fn kind_word(kind: Kind) -> &'static str
    ensures { result.now ≡ kind_word kind }
{
    match kind {
        Kind::Files => "Files",
        Kind::Source => "Source",
        Kind::Plan => "Plan",
        Kind::Compile => "Compile",
        Kind::Link => "Link",
        Kind::Answer => "Answer",
    }
}

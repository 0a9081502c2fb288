//! The tree of a text can be stored: what the types of stored trees ask holds of each tree that is derived from a text.
#![tactic(auto)]

ghost use Rattle.storable_trees.specs.Laws.{StorableLaw};

/// The tree that is derived from the tokens of a text has a spelling in bytes: its names are names, its
/// marks and counts have room in their bytes, its literals are at most the greatest, and no phrase is
/// at a level over the greatest.
pub fn storable_law()
    ensures { StorableLaw }
{}

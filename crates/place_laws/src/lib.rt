//! The tokens of places: in a file that the grammar derives, the token of a class, a field or a method is one of its part.
#![tactic(auto)]

ghost use Rattle.place_laws.specs.Laws.{PlacesLaw};

/// If a tree is derived from tokens, `token_of` names the tokens that its parts were derived from: the name
/// behind the word `class`, the name of a field or of a method, and the tokens of a method from its `public` on.
pub fn places_law()
    ensures { PlacesLaw }
{}

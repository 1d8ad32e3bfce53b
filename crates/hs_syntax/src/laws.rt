//! Laws of the tables. Each is the contract of a function that does nothing.
ghost use Rattle.hs_syntax.specs.CharacterLaws.{CharactersAreEncodings};

/// In UTF-8 the character that bytes begin with is the code point whose well-formed encoding they begin with.
pub fn characters_are_encodings()
    ensures { CharactersAreEncodings }
{}

//! Laws of what is kept of a piece: each is the contract of a function that does nothing.

ghost use Rattle.hs_base.specs.KeptLaws.{BitsOnce, FieldsAreWellFormed, FieldsOnce};

/// Rows of so many bytes in which the same bits are set are the same.
pub fn bits_once()
    ensures { BitsOnce }
{}

/// A history has one field.
pub fn fields_once()
    ensures { FieldsOnce }
{}

/// A field has the length of its form, and may stand where its history ends.
pub fn fields_are_well_formed()
    ensures { FieldsAreWellFormed }
{}

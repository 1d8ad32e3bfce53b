//! Laws of layouts: each is the contract of a function that does nothing.

ghost use Rattle.hs_layout.specs.LayoutLaws.{FieldsAreDisjoint};

/// What stands in a field's place is that field's new contents, and all else is as before.
pub fn fields_are_disjoint()
    ensures { FieldsAreDisjoint }
{}

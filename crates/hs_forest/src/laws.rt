//! Laws of forests: functions that do nothing, whose contracts state them.

ghost use Rattle.hs_forest.specs.Laws.{EqualBeginningsAreOneNode};

/// Keys of chains have one node just where their chains are equal up to them.
pub fn equal_beginnings_are_one_node()
    ensures { EqualBeginningsAreOneNode }
{}

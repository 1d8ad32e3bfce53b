//! A law of the position automaton: the contract of a function that does nothing.

ghost use Rattle.hs_glushkov.specs.Counting.{PositionsAreCounted};

/// An expression has as many positions written out as are counted in its tree.
pub fn positions_are_counted()
    ensures { PositionsAreCounted }
{}

//! Laws of the position automaton: each is the contract of a function that does nothing.

ghost use Rattle.hs_engine.specs.Agreement.{PositionsAgree, PositionsLeave, PositionsStep};

/// The paths of the automaton end where its positions are reached, and accept where its expression has a span.
pub fn positions_agree()
    ensures { PositionsAgree }
{}

/// One more byte leads to exactly the positions that are reached behind it.
pub fn positions_step()
    ensures { PositionsStep }
{}

/// An expression is left exactly where a position that is reached accepts.
pub fn positions_leave()
    ensures { PositionsLeave }
{}

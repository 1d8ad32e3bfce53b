//! Laws of regions: each is the contract of a function that does nothing.

ghost use Rattle.hs_base.specs.RegionLaws.{LastBytesFollow, PlansOnce, RegionsAreWellFormed, RegionsBegin, RegionsOnce};

/// Patterns have one list of identifiers, and one of single ones.
pub fn plans_once()
    ensures { PlansOnce }
{}

/// The region of the empty stream has no bit set.
pub fn regions_begin()
    ensures { RegionsBegin }
{}

/// The region of a stream is well formed.
pub fn regions_are_well_formed()
    ensures { RegionsAreWellFormed }
{}

/// A history has one region.
pub fn regions_once()
    ensures { RegionsOnce }
{}

/// The last bytes, with more behind them, have the last ones of both at their end.
pub fn last_bytes_follow()
    ensures { LastBytesFollow }
{}

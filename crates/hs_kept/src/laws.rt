//! Laws of what streams keep of their regions: each is the contract of a function that does nothing.

ghost use Rattle.hs_kept.specs.KeptLaws.{KeptFormsOnce, KeptIsNoLarger, KeptRegionsAreWell, KeptRegionsBegin};
ghost use Rattle.hs_kept.specs.KeptLaws.{KeptRegionsOnce, KeptSizesOnce, SameKeptSameRegion};

/// The pieces of a plan are kept in one way.
pub fn kept_forms_once()
    ensures { KeptFormsOnce }
{}

/// A plan's regions are kept in one number of bytes.
pub fn kept_sizes_once()
    ensures { KeptSizesOnce }
{}

/// What is kept takes no more bytes than a region.
pub fn kept_is_no_larger()
    ensures { KeptIsNoLarger }
{}

/// Of the empty stream no bit is set.
pub fn kept_regions_begin()
    ensures { KeptRegionsBegin }
{}

/// What is kept of a stream is well formed.
pub fn kept_regions_are_well()
    ensures { KeptRegionsAreWell }
{}

/// One list of bytes is kept of a history.
pub fn kept_regions_once()
    ensures { KeptRegionsOnce }
{}

/// Histories of which the same is kept have the same region.
pub fn same_kept_same_region()
    ensures { SameKeptSameRegion }
{}

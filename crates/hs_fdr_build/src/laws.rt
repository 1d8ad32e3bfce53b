//! Laws over the definitions of `specs/`: each is the contract of a function that does nothing.

ghost use Rattle.hs_fdr_build.specs.NoEndMasked.{NoEndIsMasked, NoEndIsMaskedInBlocks};

/// Where the tables are those of the literals, the mask of a place at which a literal ends has a 0 for its bucket.
pub fn no_end_is_masked()
    ensures { NoEndIsMasked }
{}

/// The same of the masks of a block.
pub fn no_end_is_masked_in_blocks()
    ensures { NoEndIsMaskedInBlocks }
{}

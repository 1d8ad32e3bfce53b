//! Laws of what bytes in a row tell: each is the contract of a function that does nothing.

ghost use Rattle.hs_reports.specs.ChunkLaws.{BlocksAreNew, ByteLeavesToEnd, ByteTells, ChunkIsHeard, ChunkIsNew};
ghost use Rattle.hs_reports.specs.ChunkLaws.{ChunkStaysHeard, KeptIsHeard};

/// What is kept of an identifier is what is known of it, and its pair that only the end would decide.
pub fn kept_is_heard()
    ensures { KeptIsHeard }
{}

/// What is known of an identifier and its ends about a byte tell what the byte newly gives, and what is known then.
pub fn byte_tells()
    ensures { ByteTells }
{}

/// They tell too what the byte leaves to the end; what was left to it before plays no part.
pub fn byte_leaves_to_end()
    ensures { ByteLeavesToEnd }
{}

/// What the concerned identifiers tell, byte by byte, are the new reports.
pub fn chunk_is_new()
    ensures { ChunkIsNew }
{}

/// What is known of an identifier behind the last byte goes by its ends about each.
pub fn chunk_is_heard()
    ensures { ChunkIsHeard }
{}

/// Of an identifier without an end nothing else is known than before, but that no pair of it ends behind the last byte.
pub fn chunk_stays_heard()
    ensures { ChunkStaysHeard }
{}

/// The new reports of blocks of one size in a row are those of each in turn.
pub fn blocks_are_new()
    ensures { BlocksAreNew }
{}

//! Laws of hits: each is the contract of a function that does nothing.

ghost use Rattle.hs_literals.specs.HitLaws.{BlocksTellOfStreams, HitsTellOfStreams};

/// Hits that were found behind the last bytes of a stream are its own, if these are as many as a literal has.
pub fn hits_tell_of_streams()
    ensures { HitsTellOfStreams }
{}

/// What hits tell of a block is what a literal that takes the block asks for.
pub fn blocks_tell_of_streams()
    ensures { BlocksTellOfStreams }
{}

//! Laws of blocks of bytes: each is the contract of a function that does nothing.

ghost use Rattle.hs_block.specs.BlockLaws.{BlocksHandOn, HandingOnBegins};

/// Blocks follow each other: what is told of a block goes on with what is told of the bytes before it.
pub fn blocks_hand_on()
    ensures { BlocksHandOn }
{}

/// Before the first block nothing is told.
pub fn handing_on_begins()
    ensures { HandingOnBegins }
{}

//! Where pieces are entered at every offset.

ghost use Rattle.std.specs.Prelude.{ℕ, List, []};
ghost use Rattle.hs_nodes.specs.Left.{AreLeftIn};

use crate::chunk::Chunk;
use crate::ends::ChunkEnds;
use hs_bits::low_places;

/// Everywhere in a chunk: where no pieces are left.
pub fn everywhere(chunk: &Chunk) -> ChunkEnds
    ensures { (u : List ℕ) → AreLeftIn [] u chunk.now.bytes.now result }
{
    let mut ends = ChunkEnds::NOWHERE;
    for j in 0..chunk.blocks() {
        let all = low_places(chunk.block(j).len());
        ends.before[j] = all;
        ends.behind[j] = all;
    }
    ends
}

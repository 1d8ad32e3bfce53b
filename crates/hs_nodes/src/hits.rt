//! Where a literal ends in a chunk.

ghost use Rattle.std.specs.Prelude.{◌≡◌, ◌+◌, ◌*◌, ◌<◌, ◌≤◌, ℕ, true, false};
ghost use Rattle.hs_block.specs.LiteralBlocks.{is_hit};
ghost use Rattle.hs_bits.specs.WordBits.{word_bit};
ghost use Rattle.hs_nodes.specs.Hits.{is_hit_at};

use crate::chunk::MAX_BLOCKS;
use hs_bits::{contains_place, is_unset};
use hs_block::Hits;

/// Where a literal ends in a chunk.
#[derive(Clone, Copy, Debug)]
pub struct ChunkHits {
    /// It ends where the chunk begins.
    pub at_start: bool,
    /// For each block a word with a bit for each byte: it ends behind that.
    pub behind: [u64; MAX_BLOCKS],
}

impl ChunkHits {
    /// Nowhere.
    pub const NOWHERE: ChunkHits = ChunkHits {
        at_start: false,
        behind: [0; MAX_BLOCKS],
    };

    /// Whether it ends nowhere.
    pub(crate) fn is_nowhere(&self) -> bool
        ensures { result ≡ true → (i : ℕ) → is_hit_at self.now i ≡ false }
    {
        !self.at_start & is_unset(&self.behind)
    }

    /// Where it ends in a block.
    pub(crate) fn of_block(&self, number: usize) -> Hits
        requires { number < 8 }
        ensures { (i : ℕ) → i ≤ 64 → is_hit result i ≡ is_hit_at self.now (64 * number + i) }
    {
        Hits {
            at_start: self.at_block(number),
            behind: self.behind[number],
        }
    }

    /// A bit for each byte of a block: it ends before that.
    pub(crate) fn before_block(&self, number: usize) -> u64
        requires { number < 8 }
        ensures { (i : ℕ) → i < 64 → word_bit result i ≡ is_hit_at self.now (64 * number + i) }
    {
        (self.behind[number] << 1) | (self.at_block(number) as u64)
    }

    /// Whether it ends where a block begins.
    fn at_block(&self, number: usize) -> bool
        requires { number < 8 }
        ensures { result ≡ is_hit_at self.now (64 * number) }
    {
        if number == 0 {
            return self.at_start;
        }
        contains_place(self.behind[number - 1], 63)
    }
}

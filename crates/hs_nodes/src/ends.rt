//! Where pieces are left in a chunk.

ghost use Rattle.std.specs.Prelude.{◌≡◌, ◌↔◌, ℕ, ◌<◌, ◌≤◌, IsTrue, bit_and, bit_or, slice_index};

use crate::chunk::MAX_BLOCKS;
use hs_bits::next_bit_in;

/// How many bytes a literal has at most.
pub(crate) const MAX_LITERAL: usize = 32;

/// Where pieces are left in a chunk: for each of its blocks a word with a bit for each byte, none from its end on.
#[derive(Clone, Copy, Debug, PartialEq, Eq)]
pub struct ChunkEnds {
    /// They are left before the byte, where that byte comes next.
    pub before: [u64; MAX_BLOCKS],
    /// They are left behind the byte, where nothing is known of what comes next.
    pub behind: [u64; MAX_BLOCKS],
}

impl ChunkEnds {
    ghost use Rattle.hs_nodes.specs.Left.{nowhere};
    ghost use Rattle.hs_nodes.specs.Sparing.{AreQuiet};

    /// Nowhere.
    pub const NOWHERE: ChunkEnds = ChunkEnds {
        before: [0; MAX_BLOCKS],
        behind: [0; MAX_BLOCKS],
    };

    /// Whether it is nowhere.
    pub fn is_nowhere(&self) -> bool
        ensures { IsTrue result ↔ (self.now ≡ nowhere) }
    {
        *self == ChunkEnds::NOWHERE
    }

    /// Before how many of the last bytes of a chunk of so many the pieces are not left, up to as many as a literal has.
    pub(crate) fn quiet_end(&self, count: usize) -> usize
        requires { count ≤ 512 }
        ensures { AreQuiet result count self.now }
    {
        let mut from = count.saturating_sub(MAX_LITERAL);
        while let Some(place) = next_bit_in(&self.before, from, count) {
            from = place + 1;
        }
        count - from
    }

    /// These, and where pieces that are left as `enters` tell are followed by the empty span where `null` tells it.
    pub(crate) fn through(&self, enters: &ChunkEnds, null: &ChunkEnds) -> ChunkEnds
        ensures before { (j : ℕ) → j < 8 → slice_index result.before j ≡ bit_or (slice_index self.now.before j)
            (bit_and (slice_index enters.now.before j) (slice_index null.now.before j)) }
        ensures behind { (j : ℕ) → j < 8 → slice_index result.behind j ≡ bit_or (slice_index self.now.behind j)
            (bit_and (slice_index enters.now.behind j) (slice_index null.now.behind j)) }
        ensures past { (j : ℕ) → 8 ≤ j → slice_index result.before j ≡ 0 }
        ensures past_behind { (j : ℕ) → 8 ≤ j → slice_index result.behind j ≡ 0 }
    {
        let mut ends = *self;
        for j in 0..MAX_BLOCKS {
            ends.before[j] |= enters.before[j] & null.before[j];
            ends.behind[j] |= enters.behind[j] & null.behind[j];
        }
        ends
    }
}

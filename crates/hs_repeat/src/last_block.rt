//! The engine of at most so many bytes of a set over a whole block: by words, a bit for each place.

ghost use Rattle.std.specs.Prelude.{◌≡◌, ◌≢◌, ℕ, ◌+◌, ◌^◌, ◌<◌, ◌≤◌, true, false, length, MatchOption};
ghost use Rattle.hs_base.specs.RepeatRows.{distance_of};
ghost use Rattle.hs_bits.specs.WordBits.{word_bit};
ghost use Rattle.hs_repeat.specs.RepeatBlocks.{GoesOnOver, IsLastPlace, TakesDistances};

use crate::last::Last;
use hs_bits::{WORD_BITS, contains_place, low_places, member_places, next_place, row_word};

impl Last {
    /// Takes a whole block, before each byte of which the repeat is entered whose bit is set: the word of the places
    /// behind whose byte it is left. None where an entry may be lost at the bound before the block ends: all is then as
    /// before, and the block has to be taken byte by byte.
    pub fn run_whole(&self, region: &mut [u8], enters: u64, bytes: &[u8]) -> Option<u64>
        requires len { length region.old ≡ 2 }
        requires well { distance_of region.old ≤ self.now.nearest.bound }
        requires whole { length bytes.now ≡ 64 }
        ensures len { length region.new ≡ 2 }
        ensures takes { MatchOption result (region.new ≡ region.old)
            (λ left. TakesDistances self.now.nearest.set self.now.nearest.bound (distance_of region.old)
            (distance_of region.new) enters bytes.now left) }
    {
        if (self.nearest.bound as usize) < WORD_BITS {
            return None;
        }
        let class = member_places(&self.nearest.set, bytes);
        let Some(reached) = row_word(class, enters, u64::MAX) else {
            return None;
        };
        let distance = self.nearest.read(region);
        let kept = self.kept_places(distance, class);
        let behind = distance_behind_block(distance, kept, reached, enters);
        self.nearest.write(region, behind);
        Some(reached | low_places(kept))
    }

    /// Over how many of the first places what lives before a block goes on, by the places of the set.
    #[inline]
    fn kept_places(&self, distance: u32, class: u64) -> usize
        requires { distance ≤ self.now.nearest.bound }
        ensures { GoesOnOver self.now.nearest.bound distance (word_bit class) result }
    {
        if distance == 0 {
            return 0;
        }
        let end = WORD_BITS.min((self.nearest.bound - distance) as usize);
        next_place(!class, 0, end)
    }
}

/// The distance behind a block: that of the last entry in it, where its last place is reached; or else that of what
/// lived before it and went on over so many places.
#[inline]
fn distance_behind_block(distance: u32, kept: usize, reached: u64, enters: u64) -> u32
    requires { distance < 2 ^ 31 }
    ensures reached { word_bit reached 63 ≡ true → (place : ℕ) → IsLastPlace (word_bit enters) 64 place →
        result + place ≡ 64 }
    ensures kept { word_bit reached 63 ≡ false → kept ≡ 64 → result ≡ distance + 64 }
    ensures gone { word_bit reached 63 ≡ false → kept ≢ 64 → result ≡ 0 }
{
    if contains_place(reached, WORD_BITS - 1) {
        enters.leading_zeros() + 1
    } else if kept == WORD_BITS {
        distance + WORD_BITS as u32
    } else {
        0
    }
}

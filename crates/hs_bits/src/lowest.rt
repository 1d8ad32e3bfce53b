//! The lowest bit of a word.

ghost use Rattle.std.specs.Prelude.{◌≢◌, ◌<◌, ℕ};
ghost use Rattle.hs_bits.specs.LowestBits.{IsLowestBit, AreBitsBehind};

/// The place of the lowest bit that is set.
#[inline(always)]
pub fn lowest_bit(word: u64) -> usize
    requires { word ≢ 0 }
    ensures within { result < 64 }
    ensures lowest { IsLowestBit word result }
{
    word.trailing_zeros() as usize
}

/// The word without the lowest bit that is set.
#[inline(always)]
pub fn without_lowest_bit(word: u64) -> u64
    requires { word ≢ 0 }
    ensures fewer { result < word }
    ensures behind { (place : ℕ) → IsLowestBit word place → AreBitsBehind word place result }
{
    word & (word - 1)
}

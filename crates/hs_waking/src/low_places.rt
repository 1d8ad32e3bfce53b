//! The lowest places of a word.

ghost use Rattle.std.specs.Prelude.{◌≡◌, ℕ, ◌≤◌, nat_lt};
ghost use Rattle.hs_waking.specs.PlaceBits.{place_bit};

use hs_bits::WORD_BITS;

/// The word with the bits of so many places set, the lowest ones.
pub(crate) fn low_places(count: usize) -> u64
    requires { count ≤ 64 }
    ensures { (i : ℕ) → place_bit result i ≡ nat_lt i count }
{
    if count == 0 {
        0
    } else {
        u64::MAX >> (WORD_BITS - count)
    }
}

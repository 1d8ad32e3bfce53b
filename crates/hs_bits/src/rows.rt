//! Rows of words with a bit for each of so many numbers, read from bytes.

ghost use Rattle.std.specs.Prelude.{◌≡◌, ℕ, ◌*◌, ◌<◌, ◌≤◌, length};
ghost use Rattle.hs_base.specs.Bits.{has_bit, has_word_bit};

use crate::words::{WORD_BITS, unite_bytes};

/// The number of a bit of a row; that of a row of one word is below 64, as a program for such rows then knows.
#[inline(always)]
pub fn place_in<const W: usize>(bit: usize) -> usize
    requires { bit < 64 * W }
    ensures { result ≡ bit }
{
    if W == 1 { bit % WORD_BITS } else { bit }
}

/// The bits of the bytes as a row.
pub fn load<const W: usize>(bytes: &[u8]) -> [u64; W]
    requires { length bytes.now ≤ 8 * W }
    ensures len { length result ≡ W }
    ensures bits { (k : ℕ) → has_word_bit result k ≡ has_bit bytes.now k }
{
    let mut row = [0u64; W];
    unite_bytes(&mut row, bytes);
    row
}

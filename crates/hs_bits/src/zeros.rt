//! Zeros in bytes, four words at a time.

ghost use Rattle.std.specs.Prelude.{◌≡◌, ◌↔◌, ◌+◌, ◌≤◌, IsTrue, length};
ghost use Rattle.hs_bits.specs.Zeros.{IsZeroBetween};

use crate::words::{WORD_BYTES, word_at};

/// How many bytes are looked at at once: four words.
pub const SPAN_BYTES: usize = 4 * WORD_BYTES;

/// Whether the 32 bytes from a place on are 0.
#[inline(always)]
pub fn is_zero_span(bytes: &[u8], at: usize) -> bool
    requires { at + 32 ≤ length bytes.now }
    ensures { IsTrue result ↔ IsZeroBetween bytes.now at (at + 32) }
{
    let first = word_at(bytes, at) | word_at(bytes, at + WORD_BYTES);
    let last = word_at(bytes, at + 2 * WORD_BYTES) | word_at(bytes, at + 3 * WORD_BYTES);
    first | last == 0
}

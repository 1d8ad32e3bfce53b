//! Bits of a row by ranges of places.

ghost use Rattle.std.specs.Prelude.{◌≡◌, ◌↔◌, ◌+◌, ◌*◌, ◌<◌, ◌≤◌, ◌^◌, length, IsTrue};
ghost use Rattle.hs_bits.specs.BitRanges.{HasBitIn, HasBitRound};

use crate::bytes::{BYTE_BITS, contains_bit};

/// Whether a bit from `first` to before `end` is set. It looks at whole bytes, and at each bit only in the first and
/// the last of them.
pub fn has_bit_in(bytes: &[u8], first: usize, end: usize) -> bool
    requires order { first ≤ end }
    requires room { end ≤ 8 * length bytes.now }
    requires small { 8 * length bytes.now < 2 ^ 64 }
    ensures { IsTrue result ↔ HasBitIn bytes.now first end }
{
    let whole = (first + (BYTE_BITS - 1)) / BYTE_BITS;
    let last = end / BYTE_BITS;
    if last <= whole {
        return has_bit_among(bytes, first, end);
    }
    has_bit_among(bytes, first, BYTE_BITS * whole)
        || has_byte_among(bytes, whole, last)
        || has_bit_among(bytes, BYTE_BITS * last, end)
}

/// Whether a bit from `first` to before `end` is set, one by one.
fn has_bit_among(bytes: &[u8], first: usize, end: usize) -> bool
    requires order { first ≤ end }
    requires room { end ≤ 8 * length bytes.now }
    ensures { IsTrue result ↔ HasBitIn bytes.now first end }
{
    for bit in first..end {
        if contains_bit(bytes, bit) {
            return true;
        }
    }
    false
}

/// Whether a bit of a byte from `first` to before `end` is set.
fn has_byte_among(bytes: &[u8], first: usize, end: usize) -> bool
    requires order { first ≤ end }
    requires room { end ≤ length bytes.now }
    ensures { IsTrue result ↔ HasBitIn bytes.now (8 * first) (8 * end) }
{
    for place in first..end {
        if bytes[place] != 0 {
            return true;
        }
    }
    false
}

/// Whether of `count` bits from `first` on one is set, where behind the last of `size` bits comes the first again.
pub fn has_bit_round(bytes: &[u8], size: usize, first: usize, count: usize) -> bool
    requires first { first < size }
    requires count { count ≤ size }
    requires room { size ≤ 8 * length bytes.now }
    requires small { 8 * length bytes.now < 2 ^ 63 }
    ensures { IsTrue result ↔ HasBitRound bytes.now size first count }
{
    let end = first + count;
    if end <= size {
        return has_bit_in(bytes, first, end);
    }
    has_bit_in(bytes, first, size) || has_bit_in(bytes, 0, end - size)
}

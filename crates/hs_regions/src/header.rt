//! The header of what is kept of a region, which begins with the same bytes: its offset, and whether it keeps to its
//! rules.

ghost use Rattle.std.specs.Prelude.{◌≡◌, ◌↔◌, ℕ, ◌+◌, ◌*◌, ◌^◌, ◌≤◌, IfSome, IsNone, IsTrue, length};
ghost use Rattle.hs_base.specs.Regions.{AreSpare, HasNoEarlyByte, IsHeader, fields_at, region_offset, row_size};
ghost use Rattle.hs_layout.specs.HeaderFaults.{IsHeaderFault};

use hs_base::MAX_OFFSET;
use hs_bits::{BYTE_BITS, has_bit_in, is_zero};
use hs_layout::HISTORY_SIZE;

/// How many bytes the offset has, behind which the history begins.
const OFFSET_LEN: usize = 8;

/// Where the rows of bits begin: behind the history.
const ROWS_AT: usize = OFFSET_LEN + HISTORY_SIZE;

/// How many bytes the stream has of which these are kept.
pub fn offset_in(kept: &[u8]) -> u64
    requires there { 8 ≤ length kept.now }
    ensures { result ≡ region_offset kept.now }
{
    u64::from_le_bytes([
        kept[0], kept[1], kept[2], kept[3], kept[4], kept[5], kept[6], kept[7],
    ])
}

/// Where the first field of the header begins that breaks a rule, for so many single identifiers and identifiers: an
/// offset that no stream has, a history with a byte before the stream's first, or a set bit that stands for nothing.
/// None: the header may be one.
pub(crate) fn header_fault(singles: usize, identifiers: usize, kept: &[u8]) -> Option<usize>
    requires there { fields_at singles identifiers ≤ length kept.now }
    requires small { length kept.now ≤ 2 ^ 24 }
    ensures none { IsNone result ↔ IsHeader singles identifiers kept.now }
    ensures first { IfSome result (IsHeaderFault singles identifiers kept.now) }
    ensures within { IfSome result (λ at. at ≤ length kept.now) }
{
    let here = ROWS_AT + bytes_for(singles);
    let last = here + bytes_for(identifiers);
    let offset = offset_in(kept);
    if offset > MAX_OFFSET {
        return Some(0);
    }
    if !has_no_early_byte(kept, offset) {
        return Some(OFFSET_LEN);
    }
    if !are_spare(kept, ROWS_AT, singles, here) {
        return Some(ROWS_AT);
    }
    if !are_spare(kept, here, identifiers, last) {
        return Some(here);
    }
    if !are_spare(kept, last, identifiers, last + bytes_for(identifiers)) {
        return Some(last);
    }
    None
}

/// Whether the history has no byte before the stream's first.
fn has_no_early_byte(kept: &[u8], offset: u64) -> bool
    requires there { 72 ≤ length kept.now }
    requires is { offset ≡ region_offset kept.now }
    ensures { IsTrue result ↔ HasNoEarlyByte kept.now }
{
    let seen = offset.min(HISTORY_SIZE as u64) as usize;
    is_zero(&kept[OFFSET_LEN..ROWS_AT - seen])
}

/// Whether none but the first so many bits from byte `from` on is set before byte `end`.
fn are_spare(kept: &[u8], from: usize, count: usize, end: usize) -> bool
    requires order { 8 * from + count ≤ 8 * end }
    requires within { end ≤ length kept.now }
    requires small { length kept.now ≤ 2 ^ 24 }
    ensures { IsTrue result ↔ AreSpare kept.now from count end }
{
    !has_bit_in(kept, BYTE_BITS * from + count, BYTE_BITS * end)
}

/// How many bytes a row of so many bits has.
fn bytes_for(bits: usize) -> usize
    requires small { bits ≤ 2 ^ 32 }
    ensures { result ≡ row_size bits }
{
    (bits + (BYTE_BITS - 1)) / BYTE_BITS
}

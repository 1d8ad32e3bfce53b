//! Whether a header keeps to its rules.

ghost use Rattle.std.specs.Prelude.{◌≡◌, ◌↔◌, ℕ, ◌+◌, ◌*◌, ◌^◌, ◌≤◌, IfSome, IsNone, IsTrue, length};
ghost use Rattle.hs_base.specs.Regions.{AreSpare, HasNoEarlyByte, IsHeader, region_offset};
ghost use Rattle.hs_layout.specs.HeaderFaults.{IsHeaderFault};
ghost use Rattle.hs_layout.specs.Layouts.{laid_size};

use crate::layout::{HISTORY_AT, HISTORY_SIZE, Layout, TOLD_AT, bytes_for};
use hs_base::MAX_OFFSET;
use hs_bits::{BYTE_BITS, has_bit_in, is_zero};

impl Layout {
    /// Where the first field of the header begins that breaks a rule: an offset that no stream has, a history with a
    /// byte before the stream's first, or a set bit that stands for nothing. None: the header may be one of a region.
    pub fn header_fault(&self, region: &[u8]) -> Option<usize>
        requires sized { length region.now ≡ laid_size self.now }
        ensures none { IsNone result ↔ IsHeader self.now.singles self.now.identifiers region.now }
        ensures first { IfSome result (λ at. IsHeaderFault self.now.singles self.now.identifiers region.now at) }
    {
        let here = self.here_at();
        let last = self.last_at();
        let offset = self.offset(region);
        if offset > MAX_OFFSET {
            return Some(0);
        }
        if !has_no_early_byte(region, offset) {
            return Some(HISTORY_AT);
        }
        if !are_spare(region, TOLD_AT, self.singles, here) {
            return Some(TOLD_AT);
        }
        if !are_spare(region, here, self.identifiers, last) {
            return Some(here);
        }
        if !are_spare(
            region,
            last,
            self.identifiers,
            last + bytes_for(self.identifiers),
        ) {
            return Some(last);
        }
        None
    }
}

/// Whether the history has no byte before the stream's first.
fn has_no_early_byte(region: &[u8], offset: u64) -> bool
    requires there { 72 ≤ length region.now }
    requires is { offset ≡ region_offset region.now }
    ensures { IsTrue result ↔ HasNoEarlyByte region.now }
{
    let seen = offset.min(HISTORY_SIZE as u64) as usize;
    is_zero(&region[HISTORY_AT..TOLD_AT - seen])
}

/// Whether none but the first so many bits from byte `from` on is set before byte `end`.
fn are_spare(region: &[u8], from: usize, count: usize, end: usize) -> bool
    requires order { 8 * from + count ≤ 8 * end }
    requires within { end ≤ length region.now }
    requires small { length region.now ≤ 2 ^ 24 }
    ensures { IsTrue result ↔ AreSpare region.now from count end }
{
    !has_bit_in(region, BYTE_BITS * from + count, BYTE_BITS * end)
}

//! Whether the bits behind the positions of a region are 0.

ghost use Rattle.std.specs.Prelude.{◌↔◌, ◌*◌, ◌^◌, ◌<◌, ◌≤◌, IsTrue, length};
ghost use Rattle.hs_engine.specs.Tables.{IsClearFrom};

use hs_bits::{BYTE_BITS, has_bit_in};

/// Whether no bit from that one on is set.
pub fn is_clear_from(region: &[u8], first: usize) -> bool
    requires room { first ≤ 8 * length region.now }
    requires small { 8 * length region.now < 2 ^ 64 }
    ensures { IsTrue result ↔ IsClearFrom region.now first }
{
    !has_bit_in(region, first, BYTE_BITS * region.len())
}

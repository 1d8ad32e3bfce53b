//! The region of the empty stream.

ghost use Rattle.std.specs.Prelude.{◌≡◌, length};
ghost use Rattle.hs_regions.specs.Clearing.{AreEmptyRegions};

use hs_bits::clear_bits;

/// Makes the region that of the empty stream.
pub fn clear(region: &mut [u8])
    ensures len { length region.new ≡ length region.old }
    ensures empty { AreEmptyRegions region.new }
{
    clear_bits(region);
}

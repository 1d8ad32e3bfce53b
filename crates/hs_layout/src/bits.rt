//! One bit of a region.

ghost use Rattle.std.specs.Prelude.{◌*◌, ◌<◌, length};
ghost use Rattle.hs_layout.specs.Layouts.{IsBitWritten};

use hs_bits::{BYTE_BITS, write_bit};

/// Sets or unsets the bit of that number.
pub(crate) fn set_bit(region: &mut [u8], bit: usize, value: bool)
    requires { bit < 8 * length region.old }
    ensures { IsBitWritten bit value region.old region.new }
{
    let place = bit / BYTE_BITS;
    write_bit(&mut region[place..place + 1], bit % BYTE_BITS, value);
}

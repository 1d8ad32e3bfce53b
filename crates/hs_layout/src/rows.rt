//! The rows of bits of a region: what is kept of each identifier.

ghost use Rattle.std.specs.Prelude.{◌≡◌, ◌+◌, ◌*◌, ◌<◌, length};
ghost use Rattle.hs_base.specs.Bits.{has_bit};
ghost use Rattle.hs_base.specs.Regions.{here_at, last_at, told_at};
ghost use Rattle.hs_layout.specs.Layouts.{IsBitWritten, laid_size};

use crate::bits::set_bit;
use crate::layout::{Layout, TOLD_AT};
use hs_bits::{BYTE_BITS, contains_bit};

impl Layout {
    /// Whether the single identifier of that number is reported.
    pub fn told_single(&self, region: &[u8], k: usize) -> bool
        requires sized { length region.now ≡ laid_size self.now }
        requires there { k < self.now.singles }
        ensures { result ≡ has_bit region.now (8 * told_at + k) }
    {
        let _ = &self.starts;
        contains_bit(region, BYTE_BITS * TOLD_AT + k)
    }

    /// Writes whether the single identifier of that number is reported; every other bit stays.
    pub fn set_told_single(&self, region: &mut [u8], k: usize, value: bool)
        requires sized { length region.old ≡ laid_size self.now }
        requires there { k < self.now.singles }
        ensures { IsBitWritten (8 * told_at + k) value region.old region.new }
    {
        let _ = &self.starts;
        set_bit(region, BYTE_BITS * TOLD_AT + k, value);
    }

    /// Whether the pair of the identifier of that number is reported that ends at the offset.
    pub fn told_here(&self, region: &[u8], k: usize) -> bool
        requires sized { length region.now ≡ laid_size self.now }
        requires there { k < self.now.identifiers }
        ensures { result ≡ has_bit region.now (8 * (here_at self.now.singles) + k) }
    {
        contains_bit(region, BYTE_BITS * self.here_at() + k)
    }

    /// Writes whether the pair of the identifier of that number is reported that ends at the offset; every other bit
    /// stays.
    pub fn set_told_here(&self, region: &mut [u8], k: usize, value: bool)
        requires sized { length region.old ≡ laid_size self.now }
        requires there { k < self.now.identifiers }
        ensures { IsBitWritten (8 * (here_at self.now.singles) + k) value region.old region.new }
    {
        set_bit(region, BYTE_BITS * self.here_at() + k, value);
    }

    /// Whether only the end would report the pair of the identifier of that number that ends before the last byte.
    pub fn final_bit(&self, region: &[u8], k: usize) -> bool
        requires sized { length region.now ≡ laid_size self.now }
        requires there { k < self.now.identifiers }
        ensures { result ≡ has_bit region.now (8 * (last_at self.now.singles self.now.identifiers) + k) }
    {
        contains_bit(region, BYTE_BITS * self.last_at() + k)
    }

    /// Writes whether only the end would report the pair of the identifier of that number that ends before the last
    /// byte; every other bit stays.
    pub fn set_final_bit(&self, region: &mut [u8], k: usize, value: bool)
        requires sized { length region.old ≡ laid_size self.now }
        requires there { k < self.now.identifiers }
        ensures { IsBitWritten (8 * (last_at self.now.singles self.now.identifiers) + k) value region.old region.new }
    {
        set_bit(region, BYTE_BITS * self.last_at() + k, value);
    }
}

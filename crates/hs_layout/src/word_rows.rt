//! The rows of bits of a region, many identifiers at a time: as rows of words.

ghost use Rattle.std.specs.Prelude.{◌≡◌, ℕ, ◌+◌, ◌*◌, ◌<◌, ◌≤◌, ◌^◌, length};
ghost use Rattle.hs_base.specs.Bits.{has_bit, has_word_bit};
ghost use Rattle.hs_base.specs.Regions.{here_at, last_at, row_size, told_at};
ghost use Rattle.hs_layout.specs.Layouts.{laid_size};
ghost use Rattle.hs_layout.specs.Rows.{IsRowRead, IsRowWritten};

use crate::bits::set_bit;
use crate::layout::{Layout, TOLD_AT, bytes_for};
use hs_bits::{BYTE_BITS, clear_words, contains_word_bit, store, unite_bytes};

impl Layout {
    /// Reads of each single identifier whether it is reported, a bit for each by its number among them.
    pub fn read_told_singles(&self, region: &[u8], row: &mut [u64])
        requires sized { length region.now ≡ laid_size self.now }
        requires room { self.now.singles ≤ 64 * length row.old }
        ensures { IsRowRead told_at self.now.singles region.now row.old row.new }
    {
        let _ = &self.starts;
        read_row(region, TOLD_AT, self.singles, row);
    }

    /// Writes of each single identifier whether it is reported; every other bit stays.
    pub fn write_told_singles(&self, region: &mut [u8], row: &[u64])
        requires sized { length region.old ≡ laid_size self.now }
        requires room { self.now.singles ≤ 64 * length row.now }
        ensures { IsRowWritten told_at self.now.singles row.now region.old region.new }
    {
        let _ = &self.starts;
        write_row(region, TOLD_AT, self.singles, row);
    }

    /// Reads of each identifier whether its pair is reported that ends at the offset, a bit for each by its number.
    pub fn read_told_here(&self, region: &[u8], row: &mut [u64])
        requires sized { length region.now ≡ laid_size self.now }
        requires room { self.now.identifiers ≤ 64 * length row.old }
        ensures { IsRowRead (here_at self.now.singles) self.now.identifiers region.now row.old row.new }
    {
        read_row(region, self.here_at(), self.identifiers, row);
    }

    /// Writes of each identifier whether its pair is reported that ends at the offset; every other bit stays.
    pub fn write_told_here(&self, region: &mut [u8], row: &[u64])
        requires sized { length region.old ≡ laid_size self.now }
        requires room { self.now.identifiers ≤ 64 * length row.now }
        ensures { IsRowWritten (here_at self.now.singles) self.now.identifiers row.now region.old region.new }
    {
        let from = self.here_at();
        write_row(region, from, self.identifiers, row);
    }

    /// Writes of each identifier whether only the end would report its pair that ends before the last byte; every other
    /// bit stays.
    pub fn write_finals(&self, region: &mut [u8], row: &[u64])
        requires sized { length region.old ≡ laid_size self.now }
        requires room { self.now.identifiers ≤ 64 * length row.now }
        ensures { IsRowWritten (last_at self.now.singles self.now.identifiers) self.now.identifiers row.now region.old
            region.new }
    {
        let from = self.last_at();
        write_row(region, from, self.identifiers, row);
    }
}

/// Reads so many bits of a region, from the byte `from` on, into a row.
fn read_row(region: &[u8], from: usize, bits: usize, row: &mut [u64])
    requires room { from + row_size bits ≤ length region.now }
    requires words { bits ≤ 64 * length row.old }
    requires small { bits ≤ 2 ^ 32 }
    ensures { IsRowRead from bits region.now row.old row.new }
{
    clear_words(row);
    unite_bytes(row, &region[from..from + bytes_for(bits)]);
}

/// Writes so many bits of a row into a region, from the byte `from` on: whole bytes, and then each bit that is left.
/// Every other bit stays.
fn write_row(region: &mut [u8], from: usize, bits: usize, row: &[u64])
    requires room { from + row_size bits ≤ length region.old }
    requires words { bits ≤ 64 * length row.now }
    requires few { length region.old ≤ 2 ^ 24 }
    ensures { IsRowWritten from bits row.now region.old region.new }
{
    let bytes = bits / BYTE_BITS;
    store(row, &mut region[from..from + bytes]);
    for k in BYTE_BITS * bytes..bits {
        set_bit(region, BYTE_BITS * from + k, contains_word_bit(row, k));
    }
}

//! The offset and the history of a region.

ghost use Rattle.std.specs.Prelude.{◌≡◌, ◌≤◌, length, slice_range};
ghost use Rattle.std.specs.Int.{to_le_bytes, w64};
ghost use Rattle.hs_base.specs.Regions.{history_at, history_size, region_offset, told_at};
ghost use Rattle.hs_layout.specs.Layouts.{laid_size, with_part};

use crate::layout::{HISTORY_AT, Layout, TOLD_AT};

impl Layout {
    /// How many bytes the stream has.
    pub fn offset(&self, region: &[u8]) -> u64
        requires sized { length region.now ≡ laid_size self.now }
        ensures { result ≡ region_offset region.now }
    {
        let _ = &self.starts;
        number_in(region)
    }

    /// Writes the offset; every other byte stays.
    pub fn set_offset(&self, region: &mut [u8], value: u64)
        requires sized { length region.old ≡ laid_size self.now }
        ensures written { region.new ≡ with_part region.old 0 history_at (to_le_bytes w64 value) }
        ensures reads { region_offset region.new ≡ value }
        ensures len { length region.new ≡ length region.old }
    {
        let _ = &self.starts;
        region[..HISTORY_AT].copy_from_slice(&value.to_le_bytes());
    }

    /// The last bytes of the stream, the last one last, and zeros before its first one.
    pub fn history<'a>(&self, region: &'a [u8]) -> &'a [u8]
        requires sized { length region.now ≡ laid_size self.now }
        ensures { result.now ≡ slice_range region.now history_at told_at }
    {
        let _ = &self.starts;
        &region[HISTORY_AT..TOLD_AT]
    }

    /// Writes the history; every other byte stays.
    pub fn set_history(&self, region: &mut [u8], bytes: &[u8])
        requires sized { length region.old ≡ laid_size self.now }
        requires whole { length bytes.now ≡ history_size }
        ensures written { region.new ≡ with_part region.old history_at told_at bytes.now }
        ensures reads { slice_range region.new history_at told_at ≡ bytes.now }
        ensures len { length region.new ≡ length region.old }
    {
        let _ = &self.starts;
        region[HISTORY_AT..TOLD_AT].copy_from_slice(bytes);
    }
}

/// The number in the first eight bytes, the low one first.
fn number_in(bytes: &[u8]) -> u64
    requires there { 8 ≤ length bytes.now }
    ensures { result ≡ region_offset bytes.now }
{
    u64::from_le_bytes([
        bytes[0], bytes[1], bytes[2], bytes[3], bytes[4], bytes[5], bytes[6], bytes[7],
    ])
}

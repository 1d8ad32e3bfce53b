//! The fields of a region: what is kept of each piece.

ghost use Rattle.std.specs.Prelude.{◌≡◌, ◌+◌, ◌<◌, ◌≤◌, length, slice_index, slice_range};
ghost use Rattle.std.specs.Borrow.{sem};
ghost use Rattle.hs_layout.specs.Layouts.{field_bytes, laid_size, LendsField, LendsPart};

use crate::layout::Layout;

impl Layout {
    /// The bytes of the field of that number, from 0 in the order of the sizes.
    pub fn piece<'a>(&self, region: &'a [u8], k: usize) -> &'a [u8]
        requires sized { length region.now ≡ laid_size self.now }
        requires there { k + 1 < length self.now.starts }
        ensures { result.now ≡ field_bytes self.now region.now k }
    {
        &region[self.starts[k]..self.starts[k + 1]]
    }

    /// The bytes of the field of that number, to be written: the region ends with what is last written there in the
    /// field's place, and with every other byte as it was. The prover takes this up from `lends` in a proof by hand
    /// alone; a caller that has to know the region afterwards and has no such proof slices by `place`.
    pub fn part<'a>(&self, region: &'a mut [u8], k: usize) -> &'a mut [u8]
        requires sized { length region.old ≡ laid_size self.now }
        requires there { k + 1 < length self.now.starts }
        ensures* lends { sem 𝓛 (LendsField self.now region.entry k result) }
        ensures value { result.now ≡ field_bytes self.now region.old k }
    {
        let low = self.place(k);
        let high = self.field_end(k);
        part_of(region, low, high)
    }

    /// Where the field of that number ends.
    fn field_end(&self, k: usize) -> usize
        requires there { k + 1 < length self.now.starts }
        ensures at { result ≡ slice_index self.now.starts (k + 1) }
        ensures ordered { slice_index self.now.starts k ≤ result }
        ensures within { result ≤ laid_size self.now }
    {
        self.starts[k + 1]
    }
}

/// The bytes from `low` to before `high`, to be written.
fn part_of(region: &mut [u8], low: usize, high: usize) -> &mut [u8]
    requires ordered { low ≤ high }
    requires within { high ≤ length region.old }
    ensures* lends { sem 𝓛 (LendsPart region.entry low high result) }
    ensures value { result.now ≡ slice_range region.old low high }
{
    &mut region[low..high]
}

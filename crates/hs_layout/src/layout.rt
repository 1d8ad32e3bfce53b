//! Where the parts of a region lie.

ghost use Rattle.std.specs.Prelude.{◌≡◌, ℕ, ◌+◌, ◌^◌, ◌<◌, ◌≤◌, IfOk, length, slice_index};
ghost use Rattle.hs_base.specs.Regions.{fields_at, here_at, last_at, region_size, row_size};
ghost use Rattle.hs_layout.specs.Layouts.{AreApart, Laid, laid, laid_size, layout_of};

use crate::starts::starts_for;
use hs_bits::BYTE_BITS;
use std::alloc::{AllocError, Global};
use std::marker::Model;

/// How many of a stream's last bytes are kept.
pub const HISTORY_SIZE: usize = 64;

/// The greatest size of a region in bytes.
pub const MAX_SIZE: usize = 16_777_216;

/// Where the history begins: behind the offset.
pub(crate) const HISTORY_AT: usize = 8;

/// Where the bits of the single identifiers begin: behind the history.
pub(crate) const TOLD_AT: usize = HISTORY_AT + HISTORY_SIZE;

/// The layout of the regions of a list.
#[derive(Debug, Drop)]
pub struct Layout {
    pub(crate) singles: usize,
    pub(crate) identifiers: usize,
    /// Where the fields begin, and where the last one ends.
    pub(crate) starts: Vec<usize>,
}

impl Model for Layout {
    ghost Value = { Laid };

    ghost view = { λ l. laid l.singles l.identifiers l.starts.items };

    ghost invariant = { λ l. AreApart (laid l.singles l.identifiers l.starts.items) };
}

impl Layout {
    /// The layout for so many single identifiers and identifiers, and for fields of these sizes, in order. The only
    /// error is want of memory.
    pub fn new(
        alloc: Global,
        singles: usize,
        identifiers: usize,
        field_sizes: &[usize],
    ) -> Result<Layout, AllocError>
        requires small { region_size singles identifiers field_sizes.now ≤ 2 ^ 24 }
        ensures laid { IfOk result (λ l. l ≡ layout_of singles identifiers field_sizes.now) }
        ensures size { IfOk result (λ l. laid_size l ≡ region_size singles identifiers field_sizes.now) }
    {
        let first = TOLD_AT + bytes_for(singles) + bytes_for(identifiers) + bytes_for(identifiers);
        let starts = starts_for(alloc, first, field_sizes)?;
        Ok(Layout {
            singles,
            identifiers,
            starts,
        })
    }

    /// How many bytes a region has.
    pub fn size(&self) -> usize
        ensures all { result ≡ laid_size self.now }
        ensures small { result ≤ 2 ^ 24 }
    {
        self.starts[self.starts.len() - 1]
    }

    /// How many single identifiers there are.
    pub fn singles(&self) -> usize
        ensures { result ≡ self.now.singles }
    {
        self.singles
    }

    /// How many fields there are.
    pub fn fields(&self) -> usize
        ensures { result + 1 ≡ length self.now.starts }
    {
        self.starts.len() - 1
    }

    /// Where the field of that number begins; for the number of the fields, where the last one ends. So
    /// `&mut region[layout.place(k)..layout.place(k + 1)]` is the field `k`, and every other byte stays: a caller's
    /// proof learns it from such a slice without a file, which it doesn't from `part`.
    pub fn place(&self, k: usize) -> usize
        requires there { k < length self.now.starts }
        ensures at { result ≡ slice_index self.now.starts k }
        ensures rising { (j : ℕ) → k ≤ j → j < length self.now.starts → result ≤ slice_index self.now.starts j }
        ensures within { result ≤ laid_size self.now }
        ensures behind { fields_at self.now.singles self.now.identifiers ≤ result }
    {
        self.starts[k]
    }

    /// Where the bits of the identifiers begin that tell of pairs at the offset.
    pub(crate) fn here_at(&self) -> usize
        ensures at { result ≡ here_at self.now.singles }
        ensures within { result + row_size self.now.identifiers + row_size self.now.identifiers ≤ laid_size self.now }
        ensures small { laid_size self.now ≤ 2 ^ 24 }
    {
        TOLD_AT + bytes_for(self.singles)
    }

    /// Where the bits of the identifiers begin that tell of pairs that wait for the end.
    pub(crate) fn last_at(&self) -> usize
        ensures at { result ≡ last_at self.now.singles self.now.identifiers }
        ensures within { result + row_size self.now.identifiers ≤ laid_size self.now }
        ensures small { laid_size self.now ≤ 2 ^ 24 }
    {
        TOLD_AT + bytes_for(self.singles) + bytes_for(self.identifiers)
    }
}

/// How many bytes a row of so many bits has.
pub(crate) fn bytes_for(bits: usize) -> usize
    requires small { bits ≤ 2 ^ 32 }
    ensures { result ≡ row_size bits }
{
    (bits + (BYTE_BITS - 1)) / BYTE_BITS
}

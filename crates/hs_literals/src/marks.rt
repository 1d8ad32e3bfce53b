//! The places of a block that have a bucket left open, as the bits of a word.

ghost use Rattle.hs_literals.specs.OpenPlaces.{AreOpenPlaces};

use hs_fdr::BLOCK_LEN;
use std::simd::prelude::*;

/// A mask that leaves no bucket open.
pub(crate) const NO_BUCKET: u8 = 0xFF;

/// A 1 for each place whose mask leaves a bucket open.
#[inline(always)]
pub(crate) fn open_marks(masks: &[u8; BLOCK_LEN]) -> u64
    ensures { AreOpenPlaces masks.now 0 result }
{
    u8x64::from_array(*masks)
        .simd_ne(u8x64::splat(NO_BUCKET))
        .to_bitmask()
}

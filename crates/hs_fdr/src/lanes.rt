//! Sixteen lanes, one for each of the places from one on, moved to other places.

ghost use Rattle.std.specs.Prelude.{◌+◌, ◌∷◌, slice_index, bit_or};
ghost use Rattle.hs_fdr.specs.Lanes.{HasLanes};

use std::simd::prelude::*;

/// The lanes counted from one place earlier.
#[inline(always)]
pub(crate) fn later(lanes: u8x16) -> u8x16
    ensures { HasLanes result (λ k. slice_index (0 ∷ lanes) k) }
{
    u8x16::splat(0).shuffle(
        lanes,
        [
            15, 16, 17, 18, 19, 20, 21, 22, 23, 24, 25, 26, 27, 28, 29, 30,
        ],
    )
}

/// The lanes counted from the next place.
#[inline(always)]
pub(crate) fn one_on(lanes: u8x16) -> u8x16
    ensures { HasLanes result (λ k. slice_index lanes (1 + k)) }
{
    lanes.shuffle(
        u8x16::splat(0),
        [1, 2, 3, 4, 5, 6, 7, 8, 9, 10, 11, 12, 13, 14, 15, 16],
    )
}

/// The lanes counted from eight places on.
#[inline(always)]
pub(crate) fn eight_on(lanes: u8x16) -> u8x16
    ensures { HasLanes result (λ k. slice_index lanes (8 + k)) }
{
    lanes.shuffle(
        u8x16::splat(0),
        [8, 9, 10, 11, 12, 13, 14, 15, 16, 17, 18, 19, 20, 21, 22, 23],
    )
}

/// What either has.
#[inline(always)]
pub(crate) fn either(a: u8x16, b: u8x16) -> u8x16
    ensures { HasLanes result (λ k. bit_or (slice_index a k) (slice_index b k)) }
{
    a | b
}

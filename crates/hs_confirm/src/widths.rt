//! How many of the last bytes count for the keys of each bucket.

ghost use Rattle.std.specs.Prelude.{◌≡◌, ◌<◌, ◌≤◌, ℕ, length, map, slice_index, vec_len};
ghost use Rattle.hs_confirm.specs.Keys.{AreMasks};
ghost use Rattle.hs_confirm.specs.Widths.{AreShort};

use crate::keys::{KEY_LEN, mask_of};
use hs_base::{BUCKETS, LitByte};

/// The width, or the length of a literal where that is less.
pub(crate) fn narrowed(width: u8, literal: &[LitByte]) -> u8
    ensures width { result ≤ width }
    ensures short { result ≤ length literal.now }
{
    if literal.len() < usize::from(width) {
        literal.len() as u8
    } else {
        width
    }
}

/// For each bucket, how many of the last bytes count: up to eight, and no more than its shortest literal has.
pub(crate) fn widths_of(literals: &[Vec<LitByte>], buckets: &[u8]) -> [u8; BUCKETS]
    requires each { length buckets.now ≡ length literals.now }
    requires few { (k : ℕ) → k < length buckets.now → slice_index buckets.now k < 8 }
    ensures { AreShort result (map (λ literal. length literal.items) literals.now) buckets.now (length literals.now) }
{
    let mut widths = [KEY_LEN; BUCKETS];
    for number in 0..literals.len() {
        let bucket = usize::from(buckets[number]);
        widths[bucket] = narrowed(widths[bucket], literals[number].as_slice());
    }
    widths
}

/// For each bucket the bits of keys that count.
pub(crate) fn masks_of(widths: &[u8; BUCKETS]) -> [u64; BUCKETS]
    ensures { AreMasks widths.now result }
{
    let mut masks = [0; BUCKETS];
    for bucket in 0..BUCKETS {
        masks[bucket] = mask_of(widths[bucket]);
    }
    masks
}

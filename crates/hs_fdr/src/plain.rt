//! The masks of a block place by place: slow, and close to the formula.

ghost use Rattle.std.specs.Prelude.{◌≡◌, ◌≤◌, ◌<◌, ◌+◌, ◌++◌, length, nat_lt, if◌then◌else◌};
ghost use Rattle.std.specs.List.{slice_index_or};
ghost use Rattle.hs_fdr.specs.Masks.{mask_of, width_of};
ghost use Rattle.hs_fdr.specs.Blocks.{block_masks, mask_at, term, byte_or_zero};

use crate::tables::{BLOCK_LEN, PLACES, Tables};

/// The byte, or 0 for none.
pub(crate) fn or_zero(next: Option<u8>) -> u8
    ensures { result ≡ byte_or_zero next }
{
    next.unwrap_or(0)
}

/// The byte at a place of `before` and `block`; behind the last one stands `next`.
pub(crate) fn byte_at(before: &[u8], block: &[u8], next: u8, place: usize) -> u8
    ensures { result ≡ slice_index_or (before.now ++ block.now) place next }
{
    if place < before.len() {
        return before[place];
    }
    let place = place - before.len();
    if place < block.len() {
        block[place]
    } else {
        next
    }
}

/// What the super-character `j` before the place says of it.
fn said(tables: &Tables, before: &[u8], block: &[u8], next: u8, place: usize, j: usize) -> u8
    requires count { j < 8 }
    requires within { place < length before.now + length block.now }
    requires short { length before.now + length block.now < 100 }
    ensures { result ≡ term (mask_of tables.now) (width_of tables.now) (before.now ++ block.now) next place j }
{
    if place < j {
        return 0;
    }
    let byte = byte_at(before, block, next, place - j);
    let after = byte_at(before, block, next, place - j + 1);
    tables.mask(j, tables.super_character(byte, after))
}

/// The mask of a place.
fn mask_at_place(tables: &Tables, before: &[u8], block: &[u8], next: u8, place: usize) -> u8
    requires within { place < length before.now + length block.now }
    requires short { length before.now + length block.now < 100 }
    ensures { result ≡ mask_at (mask_of tables.now) (width_of tables.now) (before.now ++ block.now) next place }
{
    let mut mask = 0;
    for later in 0..PLACES {
        mask = said(tables, before, block, next, place, PLACES - 1 - later) | mask;
    }
    mask
}

/// The mask of a place of the block, or FF behind its end.
fn mask_or_ones(tables: &Tables, before: &[u8], block: &[u8], next: u8, place: usize) -> u8
    requires before { length before.now ≤ 7 }
    requires block { length block.now ≤ 64 }
    ensures { result ≡ (if nat_lt place (length block.now) then mask_at (mask_of tables.now) (width_of tables.now)
        (before.now ++ block.now) next (length before.now + place) else 255) }
{
    if place < block.len() {
        mask_at_place(tables, before, block, next, before.len() + place)
    } else {
        0xFF
    }
}

/// The masks of a block, as `scan_block` makes them.
pub fn plain_block(
    tables: &Tables,
    before: &[u8],
    block: &[u8],
    next: Option<u8>,
    out: &mut [u8; BLOCK_LEN],
)
    requires before { length before.now ≤ 7 }
    requires block { length block.now ≤ 64 }
    ensures { out.new ≡ block_masks (mask_of tables.now) (width_of tables.now) before.now block.now next }
{
    let last = or_zero(next);
    for place in 0..BLOCK_LEN {
        out[place] = mask_or_ones(tables, before, block, last, place);
    }
}

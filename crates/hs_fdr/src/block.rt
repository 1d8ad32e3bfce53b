//! The masks of a block by lanes, eight places at a time.

ghost use Rattle.std.specs.Prelude.{◌≡◌, ◌≤◌, ◌<◌, ◌+◌, ◌-◌, ◌++◌, ℕ, length, slice_index};
ghost use Rattle.std.specs.List.{slice_index_or};
ghost use Rattle.hs_fdr.specs.Masks.{mask_of, width_of};
ghost use Rattle.hs_fdr.specs.Blocks.{block_masks};
ghost use Rattle.hs_fdr.specs.Lanes.{HasLanes, IsStored};
ghost use Rattle.hs_fdr.specs.Adding.{added, added_by, rows_of, text_rows};

use crate::lanes::{eight_on, either, later, one_on};
use crate::plain::{byte_at, or_zero};
use crate::tables::{BLOCK_LEN, PLACES, Tables};
use std::simd::prelude::*;

/// The masks of a block of at most 64 bytes, behind at most seven bytes that stand before it and before `next`. Place
/// `i` has a 0 for each bucket that may have a literal whose last byte is byte `i` of the block, and FF stands at the
/// places behind the block.
pub fn scan_block(
    tables: &Tables,
    before: &[u8],
    block: &[u8],
    next: Option<u8>,
    out: &mut [u8; BLOCK_LEN],
)
    requires before { length before.now ≤ 7 }
    requires block { length block.now ≤ 64 }
    ensures { out.new ≡ block_masks (mask_of tables.now) (width_of tables.now) before.now block.now next }
{
    *out = [0xFF; BLOCK_LEN];
    let last = or_zero(next);
    let mut ahead = ahead_of(tables, before, block, last);
    let mut at = 0;
    while at + PLACES < block.len() {
        let total = either(ahead, group(tables, block, at));
        store(total, PLACES, out, at);
        ahead = eight_on(total);
        at += PLACES;
    }
    let rest = &block[at..];
    let total = either(ahead, group(tables, &with_next(rest, last), 0));
    store(total, rest.len(), out, at);
}

/// Writes some of the first eight lanes from a place on.
#[inline(always)]
fn store(lanes: u8x16, count: usize, out: &mut [u8; BLOCK_LEN], at: usize)
    requires { (count ≤ 8) × (at + count ≤ 64) }
    ensures { IsStored lanes count at out.old out.new }
{
    if count == PLACES {
        store_each(lanes, PLACES, out, at);
    } else {
        store_each(lanes, count, out, at);
    }
}

/// The same, one by one. A count that is known when it is compiled becomes one write.
#[inline(always)]
fn store_each(lanes: u8x16, count: usize, out: &mut [u8; BLOCK_LEN], at: usize)
    requires { (count ≤ 8) × (at + count ≤ 64) }
    ensures { IsStored lanes count at out.old out.new }
{
    let lanes = lanes.to_array();
    for k in 0..count {
        out[at + k] = lanes[k];
    }
}

/// What the bytes before a block add to its first places.
#[inline(always)]
fn ahead_of(tables: &Tables, before: &[u8], block: &[u8], next: u8) -> u8x16
    requires { length before.now ≤ 7 }
    ensures { HasLanes result
        (λ k. added (text_rows tables.now (before.now ++ block.now) next) (length before.now) (length before.now + k)) }
{
    if before.len() == PLACES - 1 {
        let first = byte_at(before, block, next, PLACES - 1);
        return eight_on(group(tables, &behind_one(before, first), 0));
    }
    ahead_of_few(tables, before, block, next)
}

/// A byte that says nothing of the places behind the others, seven bytes, and the one behind them.
#[inline(always)]
fn behind_one(before: &[u8], first: u8) -> [u8; 9]
    requires { length before.now ≡ 7 }
    ensures bytes { (k : ℕ) → k < 7 → slice_index result (k + 1) ≡ slice_index before.now k }
    ensures behind { slice_index result 8 ≡ first }
{
    let mut bytes = [first; 9];
    for k in 0..PLACES - 1 {
        bytes[k + 1] = before[k];
    }
    bytes
}

/// The same one byte after the other, as at the beginning of a text.
fn ahead_of_few(tables: &Tables, before: &[u8], block: &[u8], next: u8) -> u8x16
    requires { length before.now ≤ 7 }
    ensures { HasLanes result
        (λ k. added (text_rows tables.now (before.now ++ block.now) next) (length before.now) (length before.now + k)) }
{
    let mut ahead = u8x16::splat(0);
    for place in 0..before.len() {
        let after = byte_at(before, block, next, place + 1);
        ahead = one_on(either(ahead, tables.row(before[place], after)));
    }
    ahead
}

/// What eight places add to the sixteen from the first of them on.
#[inline(always)]
fn group(tables: &Tables, bytes: &[u8], at: usize) -> u8x16
    requires { at + 9 ≤ length bytes.now }
    ensures { HasLanes result (λ k. added_by (rows_of tables.now bytes.now) at 8 k) }
{
    let mut sum = u8x16::splat(0);
    for back in 0..PLACES {
        let place = at + (PLACES - 1 - back);
        sum = either(tables.row_at(bytes, place), later(sum));
    }
    sum
}

/// Up to eight bytes with the next one behind them.
#[inline(always)]
fn with_next(rest: &[u8], next: u8) -> [u8; 9]
    requires { length rest.now ≤ 8 }
    ensures { (k : ℕ) → k ≤ length rest.now → slice_index result k ≡ slice_index_or rest.now k next }
{
    if rest.len() == PLACES {
        each_with_next(rest, PLACES, next)
    } else {
        each_with_next(rest, rest.len(), next)
    }
}

/// The same, one by one. A count that is known when it is compiled becomes one read.
#[inline(always)]
fn each_with_next(rest: &[u8], count: usize, next: u8) -> [u8; 9]
    requires few { length rest.now ≤ 8 }
    requires count { count ≡ length rest.now }
    ensures { (k : ℕ) → k ≤ length rest.now → slice_index result k ≡ slice_index_or rest.now k next }
{
    let mut bytes = [next; 9];
    for k in 0..count {
        bytes[k] = rest[k];
    }
    bytes
}

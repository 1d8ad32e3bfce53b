//! The masks of literals in buckets.

ghost use Rattle.std.specs.Prelude.{◌≡◌, ◌≤◌, ◌<◌, ◌+◌, ◌*◌, ◌/◌, ◌%◌, ◌^◌, ◌-◌, ◌⊎◌, ℕ, IsTrue, All, IfOk, length};
ghost use Rattle.std.specs.Prelude.{map, vec_len, replicate, slice_index};
ghost use Rattle.hs_base.specs.LiteralView.{literal_byte, literal_bytes};
ghost use Rattle.hs_fdr_build.specs.Clearing.{Clears, IsClear};
ghost use Rattle.hs_fdr_build.specs.Asking.{MayStand, IsAsked};
ghost use Rattle.hs_fdr_build.specs.MaskPlaces.{IsPlaceOf, HasPlace, IsPast, IsAskedBy, AreMasksOf};

use crate::clear::{clear, clear_inner, clear_last};
use hs_base::LitByte;
use hs_fdr::PLACES;
use std::alloc::{AllocError, Global};

/// How many masks there are for one place.
fn row_len(width: u8) -> usize
    requires { (9 ≤ width) × (width ≤ 15) }
    ensures value { result ≡ 2 ^ width }
    ensures small { (0 < result) × (result ≤ 32768) }
{
    1 << width
}

/// Where the masks for the place `j` begin.
fn first_place(width: u8, j: usize) -> usize
    requires width { (9 ≤ width) × (width ≤ 15) }
    requires place { j < 8 }
    ensures value { result ≡ j * 2 ^ width }
    ensures room { result + 2 ^ width ≤ 8 * 2 ^ width }
{
    j << width
}

/// Makes the bit of a bucket 0 in the masks for the place `j` before the last byte of a literal, unless it doesn't
/// reach that far.
fn clear_place(masks: &mut [u8], width: u8, literal: &[LitByte], j: usize, bucket: u8)
    requires width { (9 ≤ width) × (width ≤ 15) }
    requires place { j < 8 }
    requires filled { length masks.old ≡ 8 * 2 ^ width }
    requires bucket { bucket < 8 }
    ensures { Clears (λ place b. (b ≡ bucket) × IsPlaceOf width (map literal_byte literal.now) j place) masks.old
        masks.new }
{
    if j >= literal.len() {
        return;
    }
    let last = literal.len() - 1;
    let x = &literal[last - j];
    if j == 0 {
        clear_last(masks, width, x, bucket);
    } else {
        clear_inner(
            masks,
            width,
            first_place(width, j),
            x,
            &literal[last - (j - 1)],
            bucket,
        );
    }
}

/// Makes the bit of a bucket 0 in the masks for each of the last bytes of a literal.
fn clear_literal(masks: &mut [u8], width: u8, literal: &[LitByte], bucket: u8)
    requires width { (9 ≤ width) × (width ≤ 15) }
    requires filled { length masks.old ≡ 8 * 2 ^ width }
    requires bucket { bucket < 8 }
    ensures { Clears (λ place b. (b ≡ bucket) ×
        HasPlace width (map literal_byte literal.now) place) masks.old masks.new }
{
    for j in 0..PLACES {
        clear_place(masks, width, literal, j, bucket);
    }
}

/// Makes the bit of a bucket 0 for each place that a literal doesn't reach.
fn clear_past(past: &mut [u8; PLACES], literal: &[LitByte], bucket: u8)
    requires { bucket < 8 }
    ensures { Clears (λ j b. (b ≡ bucket) × IsPast (map literal_byte literal.now) j) past.old past.new }
{
    for j in 0..PLACES {
        if literal.len() <= j {
            clear(past, j, bucket);
        }
    }
}

/// For each place before the last byte a mask with a 0 for each bucket that has a literal that doesn't reach that far.
fn past_of(literals: &[Vec<LitByte>], buckets: &[u8]) -> [u8; PLACES]
    requires one_each { length buckets.now ≡ length literals.now }
    requires below { All (λ b. b < 8) buckets.now }
    ensures { Clears (IsAskedBy IsPast (map literal_bytes literals.now) buckets.now) (replicate 8 255) result }
{
    let mut past = [0xFF; PLACES];
    for number in 0..literals.len() {
        clear_past(&mut past, literals[number].as_slice(), buckets[number]);
    }
    past
}

/// As many masks as tables of that width have, each as `past` says of its place before the last byte.
fn filled(alloc: Global, width: u8, past: &[u8; PLACES]) -> Result<Vec<u8>, AllocError>
    requires { (9 ≤ width) × (width ≤ 15) }
    ensures whole { IfOk result (λ masks. vec_len masks ≡ 8 * 2 ^ width) }
    ensures each { IfOk result (λ masks. (at : ℕ) → at < 8 * 2 ^ width →
        slice_index masks.items at ≡ slice_index past.now (at / 2 ^ width)) }
{
    let row = row_len(width);
    let count = PLACES * row;
    let mut masks = Vec::with_capacity(alloc, count)?;
    for at in 0..count {
        masks.push(past[at / row])?;
    }
    Ok(masks)
}

/// Makes the bits 0 that the literals ask for in the places that they reach.
fn clear_all(masks: &mut [u8], width: u8, literals: &[Vec<LitByte>], buckets: &[u8])
    requires width { (9 ≤ width) × (width ≤ 15) }
    requires filled { length masks.old ≡ 8 * 2 ^ width }
    requires one_each { length buckets.now ≡ length literals.now }
    requires below { All (λ b. b < 8) buckets.now }
    ensures { Clears (IsAskedBy (HasPlace width) (map literal_bytes literals.now) buckets.now) masks.old masks.new }
{
    for number in 0..literals.len() {
        clear_literal(masks, width, literals[number].as_slice(), buckets[number]);
    }
}

/// The masks of literals in their buckets: that of place `j` and super-character `v` is at `j * 2^width + v`.
///
/// # Errors
///
/// There may be no memory.
pub(crate) fn masks_of(
    alloc: Global,
    width: u8,
    literals: &[Vec<LitByte>],
    buckets: &[u8],
) -> Result<Vec<u8>, AllocError>
    requires width { (9 ≤ width) × (width ≤ 15) }
    requires one_each { length buckets.now ≡ length literals.now }
    requires below { All (λ b. b < 8) buckets.now }
    ensures whole { IfOk result (λ masks. vec_len masks ≡ 8 * 2 ^ width) }
    ensures exact { IfOk result (λ masks. AreMasksOf width (map literal_bytes literals.now) buckets.now masks.items) }
{
    let past = past_of(literals, buckets);
    let mut masks = filled(alloc, width, &past)?;
    clear_all(masks.as_mut_slice(), width, literals, buckets);
    Ok(masks)
}

//! The literals that end at a place, one by one: slow, and close to the definition.

ghost use Rattle.std.specs.Prelude.{◌≡◌, ◌<◌, ◌≤◌, ◌+◌, ◌++◌, IfOk, length, map, slice_index};
ghost use Rattle.hs_base.specs.LiteralView.{literal_byte};
ghost use Rattle.hs_confirm.specs.Taking.{ends_there};
ghost use Rattle.hs_confirm.specs.BucketEnds.{AreBucketEnds};
ghost use Rattle.hs_confirm.specs.Plain.{IsByteBefore, plain_ends_there};

use hs_base::LitByte;
use std::alloc::{AllocError, Global};

/// The byte so many places before the last one in front of `at`; before `bytes` stands `history`.
fn byte_before(history: &[u8], bytes: &[u8], at: usize, back: usize) -> Option<u8>
    requires { at ≤ length bytes.now }
    ensures { IsByteBefore (history.now ++ bytes.now) (length history.now + at) back result }
{
    if back < at {
        return Some(bytes[at - 1 - back]);
    }
    let early = back - at;
    if early < history.len() {
        Some(history[history.len() - 1 - early])
    } else {
        None
    }
}

/// Whether the literal ends at `at`, from its last byte back.
fn ends_at_place(literal: &[LitByte], history: &[u8], bytes: &[u8], at: usize) -> bool
    requires { at ≤ length bytes.now }
    ensures { result ≡ ends_there (map literal_byte literal.now) (history.now ++ bytes.now) (length history.now + at) }
{
    for back in 0..literal.len() {
        let byte = match byte_before(history, bytes, at, back) {
            Some(byte) => byte,
            None => return false,
        };
        if !literal[literal.len() - 1 - back].contains(byte) {
            return false;
        }
    }
    true
}

/// Whether the literal of that number is in the bucket and ends at `at`.
fn is_bucket_end(
    literals: &[Vec<LitByte>],
    buckets: &[u8],
    bucket: u8,
    history: &[u8],
    bytes: &[u8],
    at: usize,
    number: usize,
) -> bool
    requires each { length buckets.now ≡ length literals.now }
    requires within { at ≤ length bytes.now }
    requires number { number < length literals.now }
    ensures { result ≡ plain_ends_there (map (λ literal. map literal_byte literal.items) literals.now) buckets.now
        bucket (history.now ++ bytes.now) (length history.now + at) number }
{
    buckets[number] == bucket && ends_at_place(literals[number].as_slice(), history, bytes, at)
}

/// The numbers of the literals of a bucket that end at `at`, as `Confirm::ends_at` tells them.
///
/// # Errors
///
/// There may be no memory.
pub fn plain_ends(
    alloc: Global,
    literals: &[Vec<LitByte>],
    buckets: &[u8],
    bucket: u8,
    history: &[u8],
    bytes: &[u8],
    at: usize,
) -> Result<Vec<usize>, AllocError>
    requires each { length buckets.now ≡ length literals.now }
    requires within { at ≤ length bytes.now }
    ensures { IfOk result
        (λ numbers. AreBucketEnds (map (λ literal. map literal_byte literal.items) literals.now) buckets.now bucket
        (history.now ++ bytes.now) (length history.now + at) numbers.items) }
{
    let mut numbers = Vec::new(alloc);
    for number in 0..literals.len() {
        if is_bucket_end(literals, buckets, bucket, history, bytes, at, number) {
            numbers.push(number)?;
        }
    }
    Ok(numbers)
}

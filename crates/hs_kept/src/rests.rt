//! Fields at rest: their sets have no position.

ghost use Rattle.std.specs.Prelude.{◌≡◌, ◌<◌, ◌≤◌, ◌+◌, ◌-◌, ◌*◌, ◌++◌, IfSome, true, length, replicate};
ghost use Rattle.std.specs.Prelude.{slice_range, take};
ghost use Rattle.hs_kept.specs.Rests.{IsRestNumber};
ghost use Rattle.hs_bits.specs.Zeros.{IsZeroBetween};

use crate::field_bytes::number_for;
use hs_base::Prev;
use hs_bits::{SPAN_BYTES, WORD_BYTES, is_zero, is_zero_span, word_at};
use hs_states::StateSets;

/// The greatest set of no position.
const NO_POSITION: [u8; 64] = [0; 64];

/// What is kept of a region of zeros.
#[derive(Debug, Drop)]
pub struct Rest {
    /// What stands before the next byte.
    pub(crate) prev: Prev,
    /// The bytes.
    pub(crate) bytes: Vec<u8>,
}

/// What is kept for a set of no position; None where that would be unpacked to another set.
pub(crate) fn rest_number(sets: &StateSets, prev: Prev) -> Option<u8>
    ensures { IfSome result (λ number. IsRestNumber sets.now prev number) }
{
    let number = number_for(sets, &NO_POSITION[..sets.width()], prev, 0);
    if is_zero(sets.set(number)) {
        Some(number)
    } else {
        None
    }
}

/// Whether the bytes from one place to before the other are the same in both.
pub(crate) fn are_alike(bytes: &[u8], others: &[u8], at: usize, end: usize) -> bool
    requires order { at ≤ end }
    requires within { end ≤ length bytes.now }
    requires others_within { end ≤ length others.now }
    ensures { result ≡ true → slice_range bytes.now at end ≡ slice_range others.now at end }
{
    bytes[at..end] == others[at..end]
}

/// Whether all bytes from one place to before the other are 0.
pub(crate) fn is_zero_between(bytes: &[u8], at: usize, end: usize) -> bool
    requires order { at ≤ end }
    requires within { end ≤ length bytes.now }
    ensures { result ≡ true → IsZeroBetween bytes.now at end }
{
    let spans = (end - at) / SPAN_BYTES;
    are_spans_zero(bytes, at, spans) && is_rest_zero(bytes, at + SPAN_BYTES * spans, end)
}

/// Whether so many times 32 bytes are 0.
fn are_spans_zero(bytes: &[u8], at: usize, count: usize) -> bool
    requires { at + 32 * count ≤ length bytes.now }
    ensures { result ≡ true → IsZeroBetween bytes.now at (at + 32 * count) }
{
    for number in 0..count {
        if !is_zero_span(bytes, at + SPAN_BYTES * number) {
            return false;
        }
    }
    true
}

/// Whether the bytes are 0 that are less than 32.
fn is_rest_zero(bytes: &[u8], at: usize, end: usize) -> bool
    requires order { at ≤ end }
    requires within { end ≤ length bytes.now }
    ensures { result ≡ true → IsZeroBetween bytes.now at end }
{
    let words = (end - at) / WORD_BYTES;
    are_words_zero(bytes, at, words) && is_zero(&bytes[at + WORD_BYTES * words..end])
}

/// Whether so many words are 0.
fn are_words_zero(bytes: &[u8], at: usize, count: usize) -> bool
    requires { at + 8 * count ≤ length bytes.now }
    ensures { result ≡ true → IsZeroBetween bytes.now at (at + 8 * count) }
{
    for number in 0..count {
        if word_at(bytes, at + WORD_BYTES * number) != 0 {
            return false;
        }
    }
    true
}

/// Makes the bytes from one place to before the other 0.
pub(crate) fn write_zeros(bytes: &mut [u8], at: usize, end: usize)
    requires order { at ≤ end }
    requires within { end ≤ length bytes.old }
    ensures len { length bytes.new ≡ length bytes.old }
    ensures made { take end bytes.new ≡ take at bytes.old ++ replicate (end - at) 0 }
{
    bytes[at..end].fill(0);
}

/// Makes the bytes from one place to before the other those of a row.
pub(crate) fn copy_between(row: &[u8], bytes: &mut [u8], at: usize, end: usize)
    requires order { at ≤ end }
    requires within { end ≤ length bytes.old }
    requires row_within { end ≤ length row.now }
    ensures len { length bytes.new ≡ length bytes.old }
    ensures before { take at bytes.new ≡ take at bytes.old }
    ensures made { slice_range bytes.new at end ≡ slice_range row.now at end }
{
    bytes[at..end].copy_from_slice(&row[at..end]);
}

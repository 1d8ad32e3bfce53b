//! The next bit of a row of words, from a place on.

ghost use Rattle.std.specs.Prelude.{◌≡◌, ◌*◌, ◌<◌, ◌≤◌, ◌^◌, nat_lt, Some, None, if◌then◌else◌, length};
ghost use Rattle.hs_base.specs.Bits.{has_word_bit};
ghost use Rattle.hs_bits.specs.NextBits.{IsNextBitIn, is_in_either};

use crate::lowest::lowest_bit;
use crate::words::WORD_BITS;

/// The least bit from `from` on and before `end` that is set; None exactly where there is none.
#[inline]
pub fn next_bit_in(words: &[u64], from: usize, end: usize) -> Option<usize>
    requires room { end ≤ 64 * length words.now }
    requires small { 64 * length words.now < 2 ^ 64 }
    ensures { IsNextBitIn (has_word_bit words.now) from end result }
{
    next_bit_in_either(words, words, from, end)
}

/// The least bit from `from` on and before `end` that is set in either row; None exactly where there is none.
#[inline]
pub fn next_bit_in_either(words: &[u64], row: &[u64], from: usize, end: usize) -> Option<usize>
    requires same { length row.now ≡ length words.now }
    requires room { end ≤ 64 * length words.now }
    requires small { 64 * length words.now < 2 ^ 64 }
    ensures { IsNextBitIn (is_in_either words.now row.now) from end result }
{
    if end <= from {
        return None;
    }
    let word = from / WORD_BITS;
    let rest = (words[word] | row[word]) >> (from % WORD_BITS);
    if rest == 0 {
        return next_bit_from_word(words, row, word + 1, end);
    }
    before(from + lowest_bit(rest), end)
}

/// The least such bit of the words from `word` on.
#[inline]
fn next_bit_from_word(words: &[u64], row: &[u64], word: usize, end: usize) -> Option<usize>
    requires same { length row.now ≡ length words.now }
    requires room { end ≤ 64 * length words.now }
    requires small { 64 * length words.now < 2 ^ 64 }
    ensures { IsNextBitIn (is_in_either words.now row.now) (64 * word) end result }
{
    for at in word..words.len() {
        let either = words[at] | row[at];
        if either != 0 {
            return before(WORD_BITS * at + lowest_bit(either), end);
        }
    }
    None
}

/// The bit, if it stands before `end`.
#[inline(always)]
fn before(bit: usize, end: usize) -> Option<usize>
    ensures { result ≡ (if nat_lt bit end then Some bit else None) }
{
    if bit < end { Some(bit) } else { None }
}

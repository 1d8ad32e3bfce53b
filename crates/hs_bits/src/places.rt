//! The places of a block as the bits of a word.

ghost use Rattle.std.specs.Prelude.{◌≡◌, ℕ, ◌<◌, ◌≤◌, ◌&&◌, ◌||◌, ◌==◌, false, true, nat_lt};
ghost use Rattle.hs_bits.specs.WordBits.{count_below, count_set, one_later, word_bit};

use crate::lowest::lowest_bit;
use crate::words::WORD_BITS;

/// Whether the bit of that place is set.
#[inline(always)]
#[tactic(auto, using(std::proofs::lemmas::Nat::Bits::shr_and_one), unfolding(crate::specs::WordBits::word_bit))]
pub fn contains_place(word: u64, place: usize) -> bool
    requires { place < 64 }
    ensures { result ≡ word_bit word place }
{
    (word >> place) & 1 == 1
}

/// The word with the bit of that place set besides, if `value` says so.
#[inline(always)]
pub fn with_place(word: u64, place: usize, value: bool) -> u64
    requires { place < 64 }
    ensures { (i : ℕ) → word_bit result i ≡ (((i == place) && value) || word_bit word i) }
{
    word | ((value as u64) << place)
}

/// The least place from `from` on whose bit is set, or `end` where none is before it.
pub fn next_place(word: u64, from: usize, end: usize) -> usize
    requires from { from ≤ end }
    requires end { end ≤ 64 }
    ensures low { from ≤ result }
    ensures high { result ≤ end }
    ensures none { (i : ℕ) → from ≤ i → i < result → word_bit word i ≡ false }
    ensures set { result < end → word_bit word result ≡ true }
    ensures further { from < end → word_bit word from ≡ false → from < result }
{
    if from == end {
        return end;
    }
    let rest = word >> from;
    if rest == 0 {
        return end;
    }
    (from + lowest_bit(rest)).min(end)
}

/// The word with the bits of so many places set, the lowest ones.
#[inline]
pub fn low_places(count: usize) -> u64
    requires { count ≤ 64 }
    ensures { (i : ℕ) → word_bit result i ≡ nat_lt i count }
{
    if count == 0 {
        0
    } else {
        u64::MAX >> (WORD_BITS - count)
    }
}

/// How many places from `from` on and before `end` have their bit set.
#[inline(always)]
pub fn count_places(word: u64, from: usize, end: usize) -> u64
    requires from { from < end }
    requires end { end ≤ 64 }
    ensures { result ≡ count_set word from end }
{
    let bits = (word >> from) & low_places(end - from);
    u64::from(bits.count_ones())
}

/// How many places have their bit set.
#[inline(always)]
pub fn place_count(word: u64) -> u64
    ensures { (count : ℕ) →
        count ≤ 64 →
        ((i : ℕ) → count ≤ i → word_bit word i ≡ false) →
        result ≡ count_below count (word_bit word) }
{
    word.count_ones() as u64
}

/// The word one place on, with that bit for the first place.
#[inline]
pub fn one_later(word: u64, first: bool) -> u64
    ensures { (i : ℕ) → i < 64 → word_bit result i ≡ one_later first (word_bit word) i }
{
    (word << 1) | (first as u64)
}

/// The word, or none of its bits.
#[inline]
pub fn only_if(word: u64, kept: bool) -> u64
    ensures { (i : ℕ) → word_bit result i ≡ (word_bit word i && kept) }
{
    if kept { word } else { 0 }
}

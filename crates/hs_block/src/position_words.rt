//! Words of 64 places, one for each position: united, read at one place, and whether rows of positions meet.

ghost use Rattle.std.specs.Prelude.{◌≡◌, ℕ, ◌-◌, ◌*◌, ◌<◌, ◌≤◌, ◌&&◌, ◌||◌, IfSome, false, length, nat_le, slice_index};
ghost use Rattle.hs_base.specs.Bits.{has_word_bit};
ghost use Rattle.hs_engine.specs.AnyBelow.{any_below};
ghost use Rattle.hs_bits.specs.WordBits.{word_bit};

use hs_bits::{
    WORD_BITS, are_apart, contains_place, lowest_bit, row_word, with_place, without_lowest_bit,
};

/// Whether the two rows have a bit in common.
#[inline(always)]
pub(crate) fn meet(one: &[u64], other: &[u64]) -> bool
    requires { length other.now ≤ length one.now }
    ensures { (size : ℕ) →
        ((y : ℕ) → size ≤ y → has_word_bit one.now y ≡ false) →
        result ≡ any_below size (λ y. has_word_bit one.now y && has_word_bit other.now y) }
{
    !are_apart(one, other)
}

/// As `row_word`, which has no more to look at where the row may go on nowhere.
#[inline(always)]
pub(crate) fn word_behind(class: u64, reached: u64, again: u64) -> Option<u64>
    ensures { IfSome result (λ word. (i : ℕ) → i < 64 → word_bit word i ≡ (word_bit class i
        && (word_bit reached i || (nat_le 1 i && (word_bit word (i - 1) && word_bit again i))))) }
{
    if again == 0 {
        return Some(class & reached);
    }
    row_word(class, reached, again)
}

/// The words of those numbers, united.
#[inline(always)]
pub(crate) fn united(words: &[u64], numbers: u64) -> u64
    requires few { (y : ℕ) → length words.now ≤ y → word_bit numbers y ≡ false }
    ensures { (i : ℕ) → word_bit result i ≡
        any_below (length words.now) (λ y. word_bit (slice_index words.now y) i && word_bit numbers y) }
{
    let mut all = 0;
    let mut left = numbers;
    while left != 0 {
        all |= words[lowest_bit(left)];
        left = without_lowest_bit(left);
    }
    all
}

/// The words of those positions that both rows have, united.
#[inline(always)]
pub(crate) fn united_rows(words: &[u64], row: &[u64], live: &[u64]) -> u64
    requires live { length row.now ≤ length live.now }
    requires room { 64 * length row.now ≤ length words.now }
    ensures { (i : ℕ) → word_bit result i ≡ any_below (64 * length row.now)
        (λ y. word_bit (slice_index words.now y) i && (has_word_bit row.now y && has_word_bit live.now y)) }
{
    let mut all = 0;
    for place in 0..row.len() {
        let from = WORD_BITS * place;
        all |= united(&words[from..from + WORD_BITS], row[place] & live[place]);
    }
    all
}

/// The row of the positions whose words have the bit of that place, where only those of `live` have a word that isn't
/// 0.
pub(crate) fn column<const W: usize>(words: &[u64], live: &[u64], place: usize) -> [u64; W]
    requires place { place < 64 }
    requires room { 64 * W ≤ length words.now }
    requires live { length live.now ≡ W }
    requires dark { (y : ℕ) → has_word_bit live.now y ≡ false → slice_index words.now y ≡ 0 }
    ensures len { length result ≡ W }
    ensures bits { (x : ℕ) → has_word_bit result x ≡ word_bit (slice_index words.now x) place }
{
    let mut row = [0u64; W];
    for at in 0..W {
        let from = WORD_BITS * at;
        row[at] = column_word(&words[from..from + WORD_BITS], live[at], place);
    }
    row
}

/// Those of the numbers whose words have the bit of that place.
#[inline(always)]
fn column_word(words: &[u64], numbers: u64, place: usize) -> u64
    requires words { length words.now ≡ 64 }
    requires place { place < 64 }
    ensures { (y : ℕ) → y < 64 → word_bit result y ≡ (word_bit (slice_index words.now y) place && word_bit numbers y) }
{
    let mut row = 0;
    let mut left = numbers;
    while left != 0 {
        let number = lowest_bit(left);
        row = with_place(row, number, contains_place(words[number], place));
        left = without_lowest_bit(left);
    }
    row
}

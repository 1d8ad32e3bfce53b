//! Numbers that are marked, and the next one of them.

ghost use Rattle.std.specs.Prelude.{◌≡◌, ◌/◌, ◌^◌, ◌<◌, ◌≤◌, ◌==◌, ◌||◌, ℕ, false, not, IfOk, length};
ghost use Rattle.std.specs.Prelude.{slice_index, slice_set};
ghost use Rattle.std.specs.Int.{bit_at};
ghost use Rattle.hs_base.specs.Bits.{has_word_bit, word_count};
ghost use Rattle.hs_bits.specs.NextBits.{IsNextBitIn};
ghost use Rattle.hs_bits.specs.Marks.{IsSummed, is_marked, mark_room};

use crate::lowest::lowest_bit;
use crate::next::next_bit_in;
use crate::words::{WORD_BITS, clear_words, contains_word_bit, word_count_for, write_word_bit};
use std::alloc::{AllocError, Global};
use std::marker::Model;

/// Numbers that are marked: a bit for each, and a bit for each word of these in which one is set. The next one is found
/// by a look at one word of bits and at the summary, whose words stand for 4,096 numbers each.
#[derive(Debug, Drop)]
pub struct MarkSet {
    words: Vec<u64>,
    /// Bit w tells whether a bit of word w is set.
    summary: Vec<u64>,
}

impl Model for MarkSet {
    ghost use Rattle.std.specs.Prelude.{ℕ, List};
    ghost use Rattle.hs_bits.specs.Marks.{IsSummed};

    ghost Value = { List ℕ };

    ghost view = { λ m. m.words.items };

    ghost invariant = { λ m. IsSummed m.words.items m.summary.items };
}

impl MarkSet {
    /// None of so many numbers.
    pub fn new(alloc: Global, count: usize) -> Result<MarkSet, AllocError>
        requires { count < 2 ^ 32 }
        ensures room { IfOk result (λ marks. count ≤ mark_room marks) }
        ensures size { IfOk result (λ marks. length marks ≡ word_count count) }
        ensures none { IfOk result (λ marks. (k : ℕ) → is_marked marks k ≡ false) }
    {
        let words = word_count_for(count);
        Ok(MarkSet {
            words: vec![in alloc; 0u64; words]?,
            summary: vec![in alloc; 0u64; word_count_for(words)]?,
        })
    }

    /// Whether the number is marked.
    pub fn contains(&self, number: usize) -> bool
        requires { number < mark_room self.now }
        ensures { result ≡ is_marked self.now number }
    {
        contains_word_bit(&self.words, number)
    }

    /// Marks the number, or takes its mark away.
    pub fn write(&mut self, number: usize, value: bool)
        requires { number < mark_room self.old }
        ensures room { length self.new ≡ length self.old }
        ensures put { is_marked self.new number ≡ value }
        ensures others { (k : ℕ) → (k ≡ number → ⊥) → is_marked self.new k ≡ is_marked self.old k }
    {
        let some = write_mark(&mut self.words, number, value);
        write_word_bit(&mut self.summary, number / WORD_BITS, some);
    }

    /// Takes all marks away.
    pub fn clear(&mut self)
        ensures room { length self.new ≡ length self.old }
        ensures none { (k : ℕ) → is_marked self.new k ≡ false }
    {
        clear_words(&mut self.words);
        clear_words(&mut self.summary);
    }

    /// Marks those numbers more whose bit is set in a row.
    pub fn mark_row(&mut self, row: &[u64])
        requires { length row.now ≤ length self.old }
        ensures room { length self.new ≡ length self.old }
        ensures marked { (k : ℕ) → is_marked self.new k ≡ (has_word_bit row.now k || is_marked self.old k) }
    {
        let _ = self.words.len();
        let end = WORD_BITS * row.len();
        let mut from = 0;
        while let Some(k) = next_bit_in(row, from, end) {
            self.write(k, true);
            from = k + 1;
        }
    }

    /// The least number from `from` on and before `end` that is marked; None exactly where there is none.
    pub fn next_before(&self, from: usize, end: usize) -> Option<usize>
        requires { end ≤ mark_room self.now }
        ensures { IsNextBitIn (is_marked self.now) from end result }
    {
        let Some(k) = self.next(from) else {
            return None;
        };
        if k < end { Some(k) } else { None }
    }

    /// The least number from `from` on that is marked; None exactly where there is none.
    pub fn next(&self, from: usize) -> Option<usize>
        ensures { IsNextBitIn (is_marked self.now) from (mark_room self.now) result }
    {
        next_mark(&self.words, &self.summary, from)
    }
}

/// Sets the bit of the number, or unsets it. Answers whether a bit of its word is set then.
fn write_mark(words: &mut [u64], number: usize, value: bool) -> bool
    requires { number < mark_room words.old }
    ensures some { result ≡ not (slice_index words.new (number / 64) == 0) }
    ensures words { words.new ≡ slice_set words.old (number / 64) (slice_index words.new (number / 64)) }
    ensures put { is_marked words.new number ≡ value }
    ensures others { (k : ℕ) → (k ≡ number → ⊥) → is_marked words.new k ≡ is_marked words.old k }
{
    let at = number / WORD_BITS;
    let word = with_bit(words[at], number % WORD_BITS, value);
    words[at] = word;
    word != 0
}

/// The least number from `from` on whose bit is set in the words.
fn next_mark(words: &[u64], summary: &[u64], from: usize) -> Option<usize>
    requires { IsSummed words.now summary.now }
    ensures { IsNextBitIn (is_marked words.now) from (mark_room words.now) result }
{
    let at = from / WORD_BITS;
    if words.len() <= at {
        return None;
    }
    let rest = words[at] >> (from % WORD_BITS);
    if rest != 0 {
        return Some(from + lowest_bit(rest));
    }
    let Some(word) = next_bit_in(summary, at + 1, words.len()) else {
        return None;
    };
    Some(WORD_BITS * word + lowest_bit(words[word]))
}

/// The word with the bit of that number set, or not set.
fn with_bit(word: u64, bit: usize, value: bool) -> u64
    requires { bit < 64 }
    ensures put { (bit_at result bit == 1) ≡ value }
    ensures others { (i : ℕ) → i < 64 → (i ≡ bit → ⊥) → bit_at result i ≡ bit_at word i }
{
    let mask = 1u64 << bit;
    if value { word | mask } else { word & !mask }
}

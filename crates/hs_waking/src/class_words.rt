//! The words of a chunk of up to 512 bytes for a table of sets: at which places the bytes of each set stand. They are
//! made when they are first asked for.
//!
//! The places behind the last byte have their bits set, so that a row fits at the end of the bytes as far as they go.

ghost use Rattle.std.specs.Prelude.{◌≡◌, ℕ, ◌+◌, ◌*◌, ◌/◌, ◌<◌, ◌≤◌, ◌^◌, ◌&&◌, ◌||◌, ◌==◌, nat_le, nat_lt, true};
ghost use Rattle.std.specs.Prelude.{IfOk, List, length, slice_get, slice_index, vec_len};
ghost use Rattle.std.specs.Int.{bit_at};
ghost use Rattle.hs_base.specs.declared.byte_set.ByteSet.{ByteSet};
ghost use Rattle.hs_base.specs.Bits.{has_word_bit};
ghost use Rattle.hs_base.specs.ByteSets.{has};

use crate::low_places::low_places;
use hs_base::ByteSet;
use hs_bits::{
    WORD_BITS, clear_words, contains_word_bit, insert_word_bit, member_places, word_count_for,
};
use std::alloc::{AllocError, Global};

/// The most bytes of a chunk.
pub const MAX_CHUNK: usize = 512;
/// How many words hold a bit for each of them.
pub(crate) const CHUNK_WORDS: usize = MAX_CHUNK / WORD_BITS;
/// How many words a set has: behind those of the chunk one more, all of whose places lie behind the last byte.
pub(crate) const CLASS_WORDS: usize = CHUNK_WORDS + 1;

/// At which places of a chunk the bytes of each set of a table stand: 72 bytes and a bit a set, taken once. Its caller
/// keeps it from chunk to chunk.
#[derive(Debug, Drop)]
pub struct ClassWords {
    /// For how many sets there is room.
    count: usize,
    /// Nine words for each set: bit p is set where the byte p of the chunk is in it, or p lies behind the last byte.
    words: Vec<u64>,
    /// The sets whose words are those of this chunk.
    known: Vec<u64>,
    ghost words_room: { 9 * count ≤ vec_len words },
    ghost known_room: { count ≤ 64 * vec_len known },
}

impl ClassWords {
    ghost use Rattle.hs_waking.specs.ChunkWords.{AreOfChunk, has_place, is_known, is_open_at};

    /// Room for the words of so many sets, of which none is known.
    ///
    /// # Errors
    ///
    /// There may be no memory.
    pub fn new(alloc: Global, sets: usize) -> Result<ClassWords, AllocError>
        requires { sets < 2 ^ 32 }
        ensures count { IfOk result (λ words. words.count ≡ sets) }
        ensures forgotten { IfOk result (λ words. (sets : List ByteSet) (bytes : List ℕ) →
            AreOfChunk words sets bytes) }
    {
        Ok(ClassWords {
            count: sets,
            words: vec![in alloc; 0u64; CLASS_WORDS * sets]?,
            known: vec![in alloc; 0u64; word_count_for(sets)]?,
        })
    }

    /// For how many sets there is room.
    pub fn count(&self) -> usize
        ensures { result ≡ self.now.count }
    {
        self.count
    }

    /// Forgets what is known of the chunk before. The work is a word for 64 sets.
    pub fn begin(&mut self)
        ensures count { self.new.count ≡ self.old.count }
        ensures forgotten { (sets : List ByteSet) (bytes : List ℕ) → AreOfChunk self.new sets bytes }
    {
        clear_words(&mut self.known);
    }

    /// Makes the words of the set of that number, if they aren't known.
    #[inline]
    pub fn learn(&mut self, sets: &[ByteSet], number: usize, bytes: &[u8])
        requires number { number < length sets.now }
        requires room { length sets.now ≤ self.old.count }
        requires few { length bytes.now ≤ 512 }
        requires chunk { AreOfChunk self.old sets.now bytes.now }
        ensures count { self.new.count ≡ self.old.count }
        ensures chunk { AreOfChunk self.new sets.now bytes.now }
        ensures places { (p : ℕ) → p < 576 →
            has_place self.new number p ≡ is_open_at (slice_get sets.now number) bytes.now p }
    {
        if !contains_word_bit(&self.known, number) {
            fill(&mut self.words, number, &sets[number], bytes);
            insert_word_bit(&mut self.known, number);
        }
    }

    /// The nine words of the set of that number, as they were made last.
    #[inline]
    pub fn row(&self, number: usize) -> &[u64]
        requires { number < self.now.count }
        ensures len { length result.now ≡ 9 }
        ensures places { (p : ℕ) → p < 576 → has_word_bit result.now p ≡ has_place self.now number p }
    {
        &self.words[CLASS_WORDS * number..CLASS_WORDS * number + CLASS_WORDS]
    }
}

/// Makes the nine words of a set.
#[inline(never)]
fn fill(words: &mut [u64], number: usize, set: &ByteSet, bytes: &[u8])
    requires room { 9 * number + 9 ≤ length words.old }
    requires few { length bytes.now ≤ 512 }
    ensures len { length words.new ≡ length words.old }
    ensures places { (p : ℕ) → p < 576 →
        has_word_bit words.new (576 * number + p) ≡
        (nat_le (length bytes.now) p || has set.now (slice_index bytes.now p)) }
    ensures others { (b : ℕ) → (b / 576 ≡ number → ⊥) → has_word_bit words.new b ≡ has_word_bit words.old b }
{
    for block in 0..CLASS_WORDS {
        words[CLASS_WORDS * number + block] = open_places(set, bytes, block);
    }
}

/// The places of a block of 64 bytes that are in the set, and those behind the last byte.
#[inline(always)]
fn open_places(set: &ByteSet, bytes: &[u8], block: usize) -> u64
    requires few { length bytes.now ≤ 512 }
    requires block { block < 9 }
    ensures { (i : ℕ) → i < 64 →
        (bit_at result i == 1) ≡
        (nat_le (length bytes.now) (64 * block + i) || has set.now (slice_index bytes.now (64 * block + i))) }
{
    if WORD_BITS * block + WORD_BITS <= bytes.len() {
        return whole_places(set, bytes, block);
    }
    part_places(set, bytes, block)
}

/// The places of a whole block that are in the set. That its length is known spares what counts its lanes.
#[inline(always)]
fn whole_places(set: &ByteSet, bytes: &[u8], block: usize) -> u64
    requires few { length bytes.now ≤ 512 }
    requires within { 64 * block + 64 ≤ length bytes.now }
    ensures { (i : ℕ) → i < 64 →
        (bit_at result i == 1) ≡
        (nat_le (length bytes.now) (64 * block + i) || has set.now (slice_index bytes.now (64 * block + i))) }
{
    let from = WORD_BITS * block;
    member_places(set, &bytes[from..from + WORD_BITS])
}

/// The places of a block in which the bytes end, or behind their end, that are in the set, and those behind the last
/// byte.
#[inline(never)]
fn part_places(set: &ByteSet, bytes: &[u8], block: usize) -> u64
    requires few { length bytes.now ≤ 512 }
    requires block { block < 9 }
    ensures { (i : ℕ) → i < 64 →
        (bit_at result i == 1) ≡
        (nat_le (length bytes.now) (64 * block + i) || has set.now (slice_index bytes.now (64 * block + i))) }
{
    let there = bytes.len().saturating_sub(WORD_BITS * block).min(WORD_BITS);
    block_places(set, bytes, block) | !low_places(there)
}

/// The places of a block of 64 bytes that are in the set; behind the last byte there is none.
fn block_places(set: &ByteSet, bytes: &[u8], block: usize) -> u64
    requires few { length bytes.now ≤ 512 }
    requires block { block < 9 }
    ensures { (i : ℕ) → i < 64 →
        (bit_at result i == 1) ≡
        (nat_lt (64 * block + i) (length bytes.now) && has set.now (slice_index bytes.now (64 * block + i))) }
{
    let from = (WORD_BITS * block).min(bytes.len());
    let to = (from + WORD_BITS).min(bytes.len());
    member_places(set, &bytes[from..to])
}

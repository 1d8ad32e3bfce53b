//! Where the literals of a program end in a chunk of bytes: for each literal a row of bits.
//!
//! The row of `word` in the chunk `sword-word`, before which nothing stands:
//!
//! ```text
//! place      0   1   2   3   4   5   6   7   8   9   10
//! byte         s   w   o   r   d   -   w   o   r   d
//! ends here  .   .   .   .   .   1   .   .   .   .   1
//! ```
//!
//! A place is one of 0 to 512: a literal that ends at place 0 stands whole before the chunk.

ghost use Rattle.std.specs.Prelude.{◌≡◌, ℕ, ◌+◌, ◌*◌, ◌<◌, ◌≤◌, ◌^◌, ◌++◌, ◌&&◌, nat_lt, nat_le, IfOk, length};
ghost use Rattle.std.specs.Prelude.{slice_index, if◌then◌else◌};
ghost use Rattle.hs_base.specs.Bits.{has_word_bit};
ghost use Rattle.hs_bits.specs.Marks.{is_marked, mark_room};
ghost use Rattle.hs_bits.specs.NextBits.{IsNextBitIn};
ghost use Rattle.hs_block.specs.LiteralBlocks.{is_hit};
ghost use Rattle.hs_bits.specs.WordBits.{word_bit};
ghost use Rattle.hs_confirm.specs.Keys.{full_text_key};
ghost use Rattle.hs_literals.specs.HitTables.{AddsHit, AddsHits, AreMarked, Forgets, IsBlank, IsHitAt, IsHitOf};
ghost use Rattle.hs_literals.specs.HitTables.{IsHitInside, TellsHits, has_hit, is_hit_at};
ghost use Rattle.hs_literals.specs.Masking.{HidesNone};

use crate::literals::Literals;
use crate::places::Places;
use hs_bits::{
    MarkSet, WORD_BITS, contains_place, insert_word_bit, lowest_bit, without_lowest_bit,
};
use hs_block::Hits;
use hs_confirm::full_text_key;
use std::alloc::{AllocError, Global};
use std::marker::Model;

/// How many words the row of a literal has: a bit for each of the places 0 to 512, and some that are never set.
const ROW_WORDS: usize = 9;
/// How many bits these are.
const ROW_BITS: usize = ROW_WORDS * WORD_BITS;
/// A mask that leaves every bucket of literals open.
const EVERY_BUCKET: u8 = 0;

/// Where the literals of a program end in a chunk of up to 512 bytes. A program's scratch has it: 72 bytes and a bit a
/// literal, taken once. Only what a chunk's literals have set is cleared before the next chunk.
#[derive(Drop)]
pub struct HitRows {
    /// How many literals there are.
    count: usize,
    /// The row of each literal: bit p is set where it ends behind the first p bytes.
    rows: Vec<u64>,
    /// The literals of which a bit is set.
    marks: MarkSet,
}

impl Model for HitRows {
    ghost use Rattle.hs_literals.specs.HitTables.{HitTable, IsHitTable, hit_table};

    ghost Value = { HitTable };

    ghost view = { λ h. hit_table h.count h.rows.items h.marks };

    ghost invariant = { λ h. IsHitTable (hit_table h.count h.rows.items h.marks) };
}

impl HitRows {
    ghost use Rattle.hs_literals.specs.Held.{held, held_buckets};

    /// Rows of so many literals, none of which ends anywhere.
    ///
    /// # Errors
    ///
    /// There may be no memory.
    pub fn new(alloc: Global, count: usize) -> Result<HitRows, AllocError>
        requires { count < 2 ^ 32 }
        ensures { IfOk result (λ rows. IsBlank rows count) }
    {
        Ok(HitRows {
            count,
            rows: vec![in alloc; 0u64; ROW_WORDS * count]?,
            marks: MarkSet::new(alloc, count)?,
        })
    }

    /// Forgets all ends: the work is that of the literals that end somewhere.
    pub fn clear(&mut self)
        ensures { IsBlank self.new self.old.count }
    {
        let mut from = 0;
        while let Some(number) = self.next_hit(from) {
            self.forget(number);
            from = number + 1;
        }
    }

    /// Finds where the literals end in a chunk, before which stands `before`: just these ends are told afterwards.
    ///
    /// They are those of a whole stream, if `before` has all of its bytes so far, or the last ones, as many as the
    /// longest literal has.
    pub fn find(&mut self, literals: &Literals, before: &[u8], bytes: &[u8])
        requires known { length (held literals.now) ≤ self.old.count }
        requires few { length bytes.now ≤ 512 }
        ensures count { self.new.count ≡ self.old.count }
        ensures tells { TellsHits self.new (held literals.now) before.now bytes.now }
    {
        self.clear();
        self.add_place(literals, before, bytes, 0, EVERY_BUCKET);
        self.add_inside(literals, before, bytes);
    }

    /// Adds the literals that end at a place, given a mask that hides none of them.
    #[inline(always)]
    fn add_place(
        &mut self,
        literals: &Literals,
        before: &[u8],
        bytes: &[u8],
        place: usize,
        mask: u8,
    )
        requires known { length (held literals.now) ≤ self.old.count }
        requires few { length bytes.now ≤ 512 }
        requires within { place ≤ length bytes.now }
        requires hides { HidesNone mask (held literals.now) (held_buckets literals.now) (before.now ++ bytes.now)
            (length before.now + place) }
        ensures { AddsHits self.old self.new (IsHitAt (held literals.now) before.now bytes.now place) }
    {
        let full = full_text_key(before, bytes, place);
        let mut left = u64::from(!mask);
        while left != 0 {
            let bucket = lowest_bit(left) as u8;
            left = without_lowest_bit(left);
            self.add_bucket(literals, before, bytes, place, bucket, full);
        }
    }

    /// Adds the literals of a bucket that end at a place, given the last eight bytes in front of it.
    #[inline]
    fn add_bucket(
        &mut self,
        literals: &Literals,
        before: &[u8],
        bytes: &[u8],
        place: usize,
        bucket: u8,
        full: u64,
    )
        requires known { length (held literals.now) ≤ self.old.count }
        requires few { length bytes.now ≤ 512 }
        requires within { place ≤ length bytes.now }
        requires bucket { bucket < 8 }
        requires full { full ≡ full_text_key (before.now ++ bytes.now) (length before.now + place) }
        ensures { AddsHits self.old self.new
            (IsHitOf (held literals.now) (held_buckets literals.now) bucket before.now bytes.now place) }
    {
        if !literals.confirm.may_end(bucket, full) {
            return;
        }
        let ends = literals
            .confirm
            .keyed_ends(bucket, full, before, bytes, place);
        for number in ends {
            self.add(number, place);
        }
    }

    /// Adds the ends behind the bytes of the chunk.
    fn add_inside(&mut self, literals: &Literals, before: &[u8], bytes: &[u8])
        requires known { length (held literals.now) ≤ self.old.count }
        requires few { length bytes.now ≤ 512 }
        ensures { AddsHits self.old self.new (IsHitInside (held literals.now) before.now bytes.now) }
    {
        let mut places = Places::new(literals, before, bytes);
        while let Some(mask) = places.next_open() {
            self.add_place(literals, before, bytes, places.at, mask);
        }
    }

    /// Adds an end of a literal.
    #[inline]
    fn add(&mut self, number: usize, place: usize)
        requires known { number < self.old.count }
        requires within { place ≤ 512 }
        ensures { AddsHit self.old self.new number place }
    {
        insert_word_bit(&mut self.rows, ROW_BITS * number + place);
        self.marks.write(number, true);
    }

    /// Forgets where a literal ends.
    fn forget(&mut self, number: usize)
        requires { number < self.old.count }
        ensures { Forgets self.old self.new number }
    {
        clear_words(&mut self.rows, ROW_WORDS * number, ROW_WORDS);
        self.marks.write(number, false);
    }

    /// The literals that end in the chunk.
    pub fn ending(&self) -> &MarkSet
        ensures room { self.now.count ≤ mark_room result.now }
        ensures marks { (k : ℕ) → is_marked result.now k ≡ has_hit self.now k }
    {
        &self.marks
    }

    /// The least number from `from` on of a literal that ends in the chunk; None exactly where there is none.
    pub fn next_hit(&self, from: usize) -> Option<usize>
        ensures next { IsNextBitIn (has_hit self.now) from self.now.count result }
        ensures few { self.now.count < 2 ^ 32 }
        ensures marked { AreMarked self.now }
    {
        self.marks.next(from)
    }

    /// Where a literal ends in a block of 64 bytes of the chunk, the first of which has the number 0.
    pub fn in_block(&self, number: usize, block: usize) -> Hits
        requires known { number < self.now.count }
        requires within { block < 8 }
        ensures { (i : ℕ) → i ≤ 64 → is_hit result i ≡ is_hit_at self.now number (64 * block + i) }
    {
        block_hits(&self.rows, number, block)
    }
}

/// Where the literal of that number ends in a block, by the rows of all.
fn block_hits(rows: &[u64], number: usize, block: usize) -> Hits
    requires known { 9 * number + 9 ≤ length rows.now }
    requires within { block < 8 }
    ensures { (i : ℕ) → i ≤ 64 → is_hit result i ≡ has_word_bit rows.now (576 * number + (64 * block + i)) }
{
    let word = ROW_WORDS * number + block;
    Hits {
        at_start: contains_place(rows[word], 0),
        behind: one_earlier(rows[word], rows[word + 1]),
    }
}

/// The bits of a word one place earlier; the last one is the first of the word behind it.
fn one_earlier(word: u64, next: u64) -> u64
    ensures { (i : ℕ) →
        i < 64 →
        word_bit result i ≡ (if nat_lt i 63 then word_bit word (i + 1) else word_bit next 0) }
{
    (word >> 1) | (next << (WORD_BITS - 1))
}

/// Makes so many words 0, from one on.
fn clear_words(words: &mut [u64], from: usize, count: usize)
    requires { from + count ≤ length words.old }
    ensures len { length words.new ≡ length words.old }
    ensures words { (w : ℕ) →
        slice_index words.new w ≡ (if nat_le from w && nat_lt w (from + count) then 0 else slice_index words.old w) }
{
    for place in from..from + count {
        words[place] = 0;
    }
}

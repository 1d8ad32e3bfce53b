//! Where a row of sets fits in a chunk, for all of its places at once.
//!
//! The words of the row `[ab] [c] [d]` over eight bytes; behind the last one all places count as set:
//!
//! ```text
//! bytes           x a c d b c x a
//! [ab]            . 1 . . 1 . . 1
//! [c], 1 on       . 1 . . 1 . . 1
//! [d], 2 on       . 1 . . . . 1 1
//! fits            . 1 . . . . . 1
//! ```

ghost use Rattle.std.specs.Prelude.{◌≡◌, ◌↔◌, ℕ, ◌<◌, ◌≤◌, ◌&&◌, nat_lt, true, false, List, length, slice_index};
ghost use Rattle.hs_base.specs.declared.byte_set.ByteSet.{ByteSet};
ghost use Rattle.hs_base.specs.Bits.{has_word_bit};
ghost use Rattle.hs_bits.specs.BlockContexts.{prev_before};
ghost use Rattle.hs_waking.specs.ChunkWords.{AreOfChunk};
ghost use Rattle.hs_waking.specs.Fits.{FitsAt, FitsNowhere, IsBehindBy, IsRowBy, row_numbers};
ghost use Rattle.hs_waking.specs.PrevSets.{has_prev};

use crate::chunk_places::{NO_PLACES, Places, is_none, keep_behind, keep_open, places_before};
use crate::class_words::ClassWords;
use crate::wake_row::WakeRow;
use hs_base::{ByteSet, Prev};

/// Whether the row fits at some place of a chunk behind `prev`; at its end, as far as it goes. The words are those of
/// this chunk so far as they are known.
pub fn fits(
    row: &WakeRow,
    sets: &[ByteSet],
    words: &mut ClassWords,
    prev: Prev,
    bytes: &[u8],
) -> bool
    requires numbers { (d : ℕ) → d < length (row_numbers row.now) →
        slice_index (row_numbers row.now) d < length sets.now }
    requires behind { IsBehindBy row.now sets.now }
    requires room { length sets.now ≤ words.old.count }
    requires few { length bytes.now ≤ 512 }
    requires chunk { AreOfChunk words.old sets.now bytes.now }
    ensures count { words.new.count ≡ words.old.count }
    ensures chunk { AreOfChunk words.new sets.now bytes.now }
    ensures fits { (own : List ByteSet) →
        IsRowBy (row_numbers row.now) sets.now own →
        (result ≡ false) ↔ FitsNowhere row.now.behind own prev bytes.now }
{
    !is_none(&fit_places(row, sets, words, prev, bytes))
}

/// The places of a chunk behind `prev` at which the row fits; at its end, as far as it goes. The words are those of
/// this chunk so far as they are known.
///
/// The places at which the sets so far have their bytes are kept for all places at once, and it ends with the first set
/// that leaves none. Block by block, with an end for each block, took two to three times as long.
pub fn fit_places(
    row: &WakeRow,
    sets: &[ByteSet],
    words: &mut ClassWords,
    prev: Prev,
    bytes: &[u8],
) -> Places
    requires numbers { (d : ℕ) → d < length (row_numbers row.now) →
        slice_index (row_numbers row.now) d < length sets.now }
    requires behind { IsBehindBy row.now sets.now }
    requires room { length sets.now ≤ words.old.count }
    requires few { length bytes.now ≤ 512 }
    requires chunk { AreOfChunk words.old sets.now bytes.now }
    ensures count { words.new.count ≡ words.old.count }
    ensures chunk { AreOfChunk words.new sets.now bytes.now }
    ensures places { (own : List ByteSet) →
        IsRowBy (row_numbers row.now) sets.now own →
        (p : ℕ) →
        p < 512 →
        (has_word_bit result p ≡ true) ↔ ((p < length bytes.now) × FitsAt row.now.behind own prev bytes.now p) }
{
    if row.behind.is_start() && !row.behind.contains(prev) {
        return NO_PLACES;
    }
    let numbers = row.numbers();
    let mut places = begun_places(row, sets, words, prev, bytes);
    for depth in 0..numbers.len() {
        if is_none(&places) {
            return places;
        }
        let number = numbers[depth] as usize;
        words.learn(sets, number, bytes);
        keep_open(&mut places, words.row(number), depth);
    }
    places
}

/// The places of a chunk behind `prev` at which the row may begin.
#[inline(always)]
pub(crate) fn begun_places(
    row: &WakeRow,
    sets: &[ByteSet],
    words: &mut ClassWords,
    prev: Prev,
    bytes: &[u8],
) -> Places
    requires behind { IsBehindBy row.now sets.now }
    requires room { length sets.now ≤ words.old.count }
    requires few { length bytes.now ≤ 512 }
    requires chunk { AreOfChunk words.old sets.now bytes.now }
    ensures count { words.new.count ≡ words.old.count }
    ensures chunk { AreOfChunk words.new sets.now bytes.now }
    ensures places { (p : ℕ) → p < 512 → has_word_bit result p ≡
        (nat_lt p (length bytes.now) && has_prev row.now.behind (prev_before prev bytes.now p)) }
{
    let mut places = places_before(bytes.len());
    if row.behind.is_all() {
        return places;
    }
    let number = row.behind_number as usize;
    words.learn(sets, number, bytes);
    keep_behind(&mut places, words.row(number), row.behind.contains(prev));
    places
}

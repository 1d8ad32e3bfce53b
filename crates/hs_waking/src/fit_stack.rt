//! Where rows fit in a chunk, of which many begin alike.
//!
//! Rows are asked one after the other, and each goes on from the level up to which it has the same sets as the one
//! before:
//!
//! ```text
//! row            levels
//! [a] [b] [c]    before [a], behind [a], behind [b], behind [c]
//! [a] [b] [d]    the same three, behind [d]
//! [a] [e]        the same two, behind [e]
//! ```
//!
//! A level without a place is the last one, and then all rows that have it fit nowhere.

ghost use Rattle.std.specs.Prelude.{◌≡◌, ℕ, ◌+◌, ◌<◌, ◌≤◌, length, slice_index};

use crate::chunk_places::{NO_PLACES, Places, is_none, keep_open};
use crate::class_words::ClassWords;
use crate::fitting::begun_places;
use crate::prev_set::PrevSet;
use crate::rows::MAX_ROW;
use crate::wake_row::WakeRow;
use hs_base::{ByteSet, Prev};

/// How many levels a row has at most: one before its first set, and one behind each.
const MAX_LEVELS: usize = MAX_ROW + 1;

/// The places of a chunk that the row asked last leaves, level by level.
#[derive(Clone, Copy, Debug)]
pub struct FitStack {
    /// The row that was asked last.
    row: WakeRow,
    /// How many of its levels are known.
    count: usize,
    /// The places at which it may begin, and of these the ones at which its first set fits, the second too and so on.
    levels: [Places; MAX_LEVELS],
    ghost few: { count ≤ 9 },
    ghost levels_room: { length levels ≡ 9 },
}

impl FitStack {
    ghost use Rattle.std.specs.Prelude.{◌↔◌, true, List};
    ghost use Rattle.hs_base.specs.declared.byte_set.ByteSet.{ByteSet};
    ghost use Rattle.hs_base.specs.declared.context.Prev.{Prev};
    ghost use Rattle.hs_base.specs.Bits.{has_word_bit};
    ghost use Rattle.hs_waking.specs.ChunkWords.{AreOfChunk};
    ghost use Rattle.hs_waking.specs.FitStacks.{IsStackOf};
    ghost use Rattle.hs_waking.specs.Fits.{FitsAt, FitsNowhere, IsBehindBy, IsRowBy, row_numbers};

    /// Of no row yet.
    pub fn new() -> FitStack
        ensures { (sets : List ByteSet) (prev : Prev) (bytes : List ℕ) → IsStackOf result sets prev bytes }
    {
        FitStack {
            row: WakeRow {
                behind: PrevSet::all(),
                behind_number: 0,
                count: 0,
                numbers: [0; MAX_ROW],
            },
            count: 0,
            levels: [NO_PLACES; MAX_LEVELS],
        }
    }

    /// Whether the row has all levels that are known, and the last of them has no place: then it fits nowhere.
    #[inline]
    pub fn rules_out(&self, row: &WakeRow) -> bool
        ensures { result ≡ true → (sets own : List ByteSet) (prev : Prev) (bytes : List ℕ) →
            IsStackOf self.now sets prev bytes →
            length bytes ≤ 512 →
            IsRowBy (row_numbers row.now) sets own →
            FitsNowhere row.now.behind own prev bytes }
    {
        if self.count == 0 {
            return false;
        }
        let last = self.count - 1;
        if !is_none(&self.levels[last]) {
            return false;
        }
        last < levels_alike(&self.row, row).min(row.numbers().len() + 1)
    }

    /// The places of a chunk behind `prev` at which the row fits; at its end, as far as it goes. The words are those of
    /// this chunk so far as they are known, and so are the levels.
    pub fn fit_places(
        &mut self,
        row: &WakeRow,
        sets: &[ByteSet],
        words: &mut ClassWords,
        prev: Prev,
        bytes: &[u8],
    ) -> Places
        requires numbers { (d : ℕ) → d < length (row_numbers row.now) →
            slice_index (row_numbers row.now) d < length sets.now }
        requires behind { IsBehindBy row.now sets.now }
        requires room { length sets.now ≤ words.old.count }
        requires few { length bytes.now ≤ 512 }
        requires chunk { AreOfChunk words.old sets.now bytes.now }
        requires levels { IsStackOf self.old sets.now prev bytes.now }
        ensures count { words.new.count ≡ words.old.count }
        ensures chunk { AreOfChunk words.new sets.now bytes.now }
        ensures levels { IsStackOf self.new sets.now prev bytes.now }
        ensures places { (own : List ByteSet) →
            IsRowBy (row_numbers row.now) sets.now own →
            (p : ℕ) →
            p < 512 →
            (has_word_bit result p ≡ true) ↔ ((p < length bytes.now) × FitsAt row.now.behind own prev bytes.now p) }
    {
        let numbers = row.numbers();
        self.begin(row, sets, words, prev, bytes);
        for depth in self.count - 1..numbers.len() {
            let mut places = self.levels[depth];
            if is_none(&places) {
                return places;
            }
            let number = numbers[depth] as usize;
            words.learn(sets, number, bytes);
            keep_open(&mut places, words.row(number), depth);
            self.levels[depth + 1] = places;
            self.count = depth + 2;
        }
        self.levels[numbers.len()]
    }

    /// Turns to another row, of which one level at least is known then.
    fn begin(
        &mut self,
        row: &WakeRow,
        sets: &[ByteSet],
        words: &mut ClassWords,
        prev: Prev,
        bytes: &[u8],
    )
        requires behind { IsBehindBy row.now sets.now }
        requires room { length sets.now ≤ words.old.count }
        requires few { length bytes.now ≤ 512 }
        requires chunk { AreOfChunk words.old sets.now bytes.now }
        requires levels { IsStackOf self.old sets.now prev bytes.now }
        ensures count { words.new.count ≡ words.old.count }
        ensures chunk { AreOfChunk words.new sets.now bytes.now }
        ensures row { self.new.row ≡ row.now }
        ensures some { 1 ≤ self.new.count }
        ensures few { self.new.count ≤ length (row_numbers row.now) + 1 }
        ensures levels { IsStackOf self.new sets.now prev bytes.now }
    {
        self.turn_to(row);
        if self.count > 0 {
            return;
        }
        self.levels[0] = begun_places(row, sets, words, prev, bytes);
        self.count = 1;
    }

    /// Turns to another row: the levels that it has too stay.
    fn turn_to(&mut self, row: &WakeRow)
        ensures row { self.new.row ≡ row.now }
        ensures few { self.new.count ≤ length (row_numbers row.now) + 1 }
        ensures levels { (sets : List ByteSet) (prev : Prev) (bytes : List ℕ) →
            IsStackOf self.old sets prev bytes → IsStackOf self.new sets prev bytes }
    {
        self.count = self
            .count
            .min(levels_alike(&self.row, row))
            .min(row.numbers().len() + 1);
        self.row = *row;
    }
}

/// How many levels the rows have in common.
fn levels_alike(row: &WakeRow, other: &WakeRow) -> usize
    ensures few { result ≤ 9 }
    ensures behind { 0 < result → row.now.behind ≡ other.now.behind }
    ensures numbers { (d : ℕ) → d + 1 < result →
        slice_index row.now.numbers d ≡ slice_index other.now.numbers d }
{
    if row.behind != other.behind {
        return 0;
    }
    for depth in 0..MAX_ROW {
        if row.numbers[depth] != other.numbers[depth] {
            return depth + 1;
        }
    }
    MAX_LEVELS
}

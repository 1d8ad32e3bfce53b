//! Where the members of an automaton are left in a chunk.

ghost use Rattle.std.specs.Prelude.{◌≡◌, ◌<◌, ◌≤◌, ℕ, ◌==◌, ◌&&◌, ◌||◌, Some, false, length, slice_get};
ghost use Rattle.hs_base.specs.Bits.{has_word_bit};
ghost use Rattle.hs_lazy.specs.Ends.{IsRowWhole, member_left_before, member_left_behind};
ghost use Rattle.hs_lazy.specs.declared.cache.ToldEnds.{ToldEnds};

use crate::cache::ToldEnds;
use crate::dfa::MAX_MEMBERS;
use crate::parts::{EndSet, MEMBER_WORDS};
use hs_bits::{contains_word_bit, next_bit_in, next_bit_in_either, unite_words, write_word_bit};

/// How many words have a bit for each byte of a chunk.
const ROW_WORDS: usize = 8;

/// Where the members of an automaton are left in a chunk.
#[derive(Clone, Copy, Debug)]
pub struct EndTable {
    /// For each member where it is left.
    pub rows: [ToldEnds; MAX_MEMBERS],
    /// The members that may be left somewhere.
    pub members: [u64; MEMBER_WORDS],
    ghost rows_len: { length rows ≡ 256 },
    ghost whole: { (m : ℕ) (row : ToldEnds) → slice_get rows m ≡ Some row → IsRowWhole row },
    ghost members_len: { length members ≡ 4 },
    ghost silent_before: { (m i : ℕ) → has_word_bit members m ≡ false → member_left_before rows m i ≡ false },
    ghost silent_behind: { (m i : ℕ) → has_word_bit members m ≡ false → member_left_behind rows m i ≡ false },
}

impl EndTable {
    /// No member is left.
    pub(crate) const NOWHERE: EndTable = EndTable {
        rows: [ToldEnds::NOWHERE; MAX_MEMBERS],
        members: [0; MEMBER_WORDS],
    };

    /// Forgets all.
    pub(crate) fn clear(&mut self)
        ensures before { (m i : ℕ) → member_left_before self.new.rows m i ≡ false }
        ensures behind { (m i : ℕ) → member_left_behind self.new.rows m i ≡ false }
    {
        let mut from = 0;
        while let Some(member) = next_bit_in(&self.members, from, MAX_MEMBERS) {
            self.rows[member] = ToldEnds::NOWHERE;
            from = member + 1;
        }
        self.members = [0; MEMBER_WORDS];
    }

    /// Takes in the members that a byte leaves, of which none is said to be left there so far.
    pub(crate) fn insert(&mut self, place: usize, set: &EndSet)
        requires place { place < 512 }
        requires before_len { length set.now.before ≡ 4 }
        requires behind_len { length set.now.behind ≡ 4 }
        requires before { (m : ℕ) → member_left_before self.old.rows m place ≡ false }
        requires behind { (m : ℕ) → member_left_behind self.old.rows m place ≡ false }
        ensures before { (m i : ℕ) → m < 256 → member_left_before self.new.rows m i
            ≡ (member_left_before self.old.rows m i || (i == place) && has_word_bit set.now.before m) }
        ensures behind { (m i : ℕ) → m < 256 → member_left_behind self.new.rows m i
            ≡ (member_left_behind self.old.rows m i || (i == place) && has_word_bit set.now.behind m) }
    {
        unite_words(&mut self.members, &set.before);
        unite_words(&mut self.members, &set.behind);
        let mut from = 0;
        while let Some(member) = next_bit_in_either(&set.before, &set.behind, from, MAX_MEMBERS) {
            let before = contains_word_bit(&set.before, member);
            let behind = contains_word_bit(&set.behind, member);
            write_row(&mut self.rows[member], place, before, behind);
            from = member + 1;
        }
    }

    /// The members that are left so many times or more, before a byte or behind it.
    pub(crate) fn often_left(&self, least: u32) -> [u64; MEMBER_WORDS]
        ensures { length result ≡ 4 }
    {
        let mut often = [0; MEMBER_WORDS];
        let mut from = 0;
        while let Some(member) = next_bit_in(&self.members, from, MAX_MEMBERS) {
            write_word_bit(&mut often, member, times_left(&self.rows[member]) >= least);
            from = member + 1;
        }
        often
    }

    /// Where a member is left.
    pub(crate) fn of(&self, member: usize) -> ToldEnds
        requires { member < 256 }
        ensures before { (i : ℕ) → has_word_bit result.before i ≡ member_left_before self.now.rows member i }
        ensures behind { (i : ℕ) → has_word_bit result.behind i ≡ member_left_behind self.now.rows member i }
    {
        self.rows[member]
    }
}

/// How often a member is left, before a byte or behind it.
fn times_left(row: &ToldEnds) -> u32 {
    let mut count = 0;
    for word in 0..ROW_WORDS {
        count += row.before[word].count_ones() + row.behind[word].count_ones();
    }
    count
}

/// Writes whether a member is left before the byte at that place, and behind it.
fn write_row(row: &mut ToldEnds, place: usize, before: bool, behind: bool)
    requires place { place < 512 }
    requires whole { IsRowWhole row.old }
    ensures whole { IsRowWhole row.new }
    ensures before { has_word_bit row.new.before place ≡ before }
    ensures behind { has_word_bit row.new.behind place ≡ behind }
    ensures befores { (i : ℕ) → (i ≡ place → ⊥) → has_word_bit row.new.before i ≡ has_word_bit row.old.before i }
    ensures behinds { (i : ℕ) → (i ≡ place → ⊥) → has_word_bit row.new.behind i ≡ has_word_bit row.old.behind i }
{
    write_word_bit(&mut row.before, place, before);
    write_word_bit(&mut row.behind, place, behind);
}

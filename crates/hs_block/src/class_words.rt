//! The places of a block whose bytes are in a set.

ghost use Rattle.std.specs.Prelude.{◌≡◌, ◌<◌, ◌≤◌, ℕ, List, length, slice_get, slice_index};
ghost use Rattle.hs_base.specs.ByteSets.{has};
ghost use Rattle.hs_base.specs.declared.byte_set.ByteSet.{ByteSet};
ghost use Rattle.hs_engine.specs.Automata.{in_set};
ghost use Rattle.hs_bits.specs.WordBits.{word_bit};

use hs_base::ByteSet;
use hs_bits::{WORD_BITS, contains_place, member_places, with_place};

/// How many sets of bytes there may be.
pub(crate) const MAX_SETS: usize = WORD_BITS;
/// Of how many of them the words are kept: room for more has to be cleared for each block, which costs more than to
/// make some words twice.
const KEPT_SETS: usize = 16;

/// The places of a whole block whose bytes are in the set.
#[inline(always)]
pub(crate) fn class_word(set: &ByteSet, bytes: &[u8]) -> u64
    requires { length bytes.now ≡ 64 }
    ensures { (i : ℕ) → i < 64 → word_bit result i ≡ has set.now (slice_index bytes.now i) }
{
    member_places(set, bytes)
}

/// The places of the bytes of each of up to 64 sets in a block, made when they are asked for. Those of the first sets
/// are kept.
#[derive(Clone, Copy, Debug)]
pub(crate) struct ClassWords {
    /// The words of the sets, by their numbers.
    words: [u64; KEPT_SETS],
    /// The sets whose words are made.
    known: u64,
    ghost len: { length words ≡ 16 },
}

impl ClassWords {
    ghost use Rattle.hs_block.specs.StreamTables.{AreClassWords};

    /// The words of a block, of which that of the first set is made.
    #[inline(always)]
    pub(crate) fn new(first: u64) -> ClassWords
        ensures { (sets : List ByteSet) (bytes : List ℕ) →
            ((i : ℕ) → i < 64 → word_bit first i ≡ in_set (slice_get sets 0) (slice_index bytes i)) →
            AreClassWords result sets bytes }
    {
        let mut words = [0u64; KEPT_SETS];
        words[0] = first;
        ClassWords { words, known: 1 }
    }

    /// The word of the set of that number.
    #[inline(always)]
    pub(crate) fn of(&mut self, sets: &[ByteSet], number: usize, whole: &[u8]) -> u64
        requires number { number < length sets.now }
        requires few { length sets.now ≤ 64 }
        requires whole { length whole.now ≡ 64 }
        requires known { AreClassWords self.old sets.now whole.now }
        ensures known { AreClassWords self.new sets.now whole.now }
        ensures word { (i : ℕ) → i < 64 →
            word_bit result i ≡ in_set (slice_get sets.now number) (slice_index whole.now i) }
    {
        if number >= KEPT_SETS {
            return class_word(&sets[number], whole);
        }
        if !contains_place(self.known, number) {
            self.words[number] = class_word(&sets[number], whole);
            self.known = with_place(self.known, number, true);
        }
        self.words[number]
    }
}

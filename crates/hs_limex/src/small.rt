//! The tables of at most 64 positions that say the same in every context, and the step by one word.

ghost use Rattle.std.specs.Prelude.{◌≡◌, ℕ, ◌+◌, ◌*◌, ◌<◌, ◌≤◌, true, false, ◌&&◌, IfOk, IfSome, IsTrue, nat_lt};
ghost use Rattle.std.specs.Prelude.{length, slice_get, slice_index, vec_len};
ghost use Rattle.hs_limex.specs.SingleWords.{follow_bit, is_set};

use crate::single::{first_bits, is_clear, load, moved_on, store_word};
use crate::small_filling::{REACH_WORDS, common_word, far_word, pitch_for, span_for, words_of};
use hs_base::{ByteSet, NextSet};
use hs_bits::{BYTE_BITS, WORD_BITS, lowest_bit, without_lowest_bit};
use hs_engine::{Automaton, first_bytes};
use std::alloc::{AllocError, Global};

/// The tables of an automaton of at most 64 positions in which no context matters, as words with a bit for each
/// position. To 96 bytes of its own come less than 64 bytes a position for the rows by bytes, 8 bytes for each distance
/// that is used, and 8 bytes a position for what follows it.
#[derive(Debug, Drop)]
pub(crate) struct Small {
    /// First for each byte a row of `pitch` bits: the positions whose set has it. Then for each distance the positions
    /// that are followed by the one so many places on. Then for each position those that follow it.
    words: Vec<u64>,
    /// The bytes that positions take which may be entered: any other byte leads nowhere from a region at rest.
    first: ByteSet,
    /// The positions that are entered.
    enters: u64,
    /// The positions that accept.
    accepts: u64,
    /// The positions that are followed by one that isn't near.
    far: u64,
    /// All positions.
    all: u64,
    /// How many positions there are.
    size: u8,
    /// How many bits the row of a byte has, a power of two.
    pitch: u8,
    /// How many distances are used, from 0 on.
    span: u8,
    ghost few: { size ≤ 64 },
    ghost some: { 0 < pitch },
    ghost narrow: { pitch ≤ 64 },
    ghost short: { span ≤ 8 },
    ghost whole: { vec_len words ≡ 4 * pitch + span + size },
    ghost all_are: { (k : ℕ) → is_set all k ≡ nat_lt k size },
    ghost near: { (d k : ℕ) → d < span →
        is_set (slice_index words.items (4 * pitch + d)) k ≡ follow_bit words.items (4 * pitch + span) size k (k + d) },
    ghost far_few: { (x : ℕ) → is_set far x ≡ true → x < size },
    ghost rest_least: { (x y : ℕ) → follow_bit words.items (4 * pitch + span) size x y ≡ true →
        is_set far x ≡ false → x ≤ y },
    ghost rest_most: { (x y : ℕ) → follow_bit words.items (4 * pitch + span) size x y ≡ true →
        is_set far x ≡ false → y < x + span },
}

impl Small {
    ghost use Rattle.hs_base.specs.Bits.{AreZero, has_bit};
    ghost use Rattle.hs_base.specs.ByteSets.{has};
    ghost use Rattle.hs_base.specs.Contexts.{Context};
    ghost use Rattle.hs_base.specs.ContextSets.{has_next};
    ghost use Rattle.hs_base.specs.declared.context.Next.{Next};
    ghost use Rattle.hs_base.specs.declared.context.Prev.{Prev};
    ghost use Rattle.hs_engine.specs.Automata.{in_mask};
    ghost use Rattle.hs_engine.specs.Between.{between};
    ghost use Rattle.hs_engine.specs.RowSizes.{row_len};
    ghost use Rattle.hs_limex.specs.Fitting.{AcceptsIn, Fits, IsLed};
    ghost use Rattle.hs_limex.specs.SingleWords.{IsLedBut, IsNearLed, reach_bit};
    ghost use Rattle.hs_limex.specs.SmallMoves.{moves_of_small, small_follows};

    /// The tables of an automaton; None where it has more positions, or a context matters.
    pub(crate) fn build(alloc: Global, automaton: &Automaton) -> Result<Option<Small>, AllocError>
        ensures { IfOk result (λ found. IfSome found (λ small. Fits (moves_of_small small) automaton.now)) }
    {
        if automaton.size() > WORD_BITS || automaton.follows().square_count() != 1 {
            return Ok(None);
        }
        let Some(enters) = common_word(automaton.enters()) else {
            return Ok(None);
        };
        let Some(accepts) = common_word(automaton.accepts()) else {
            return Ok(None);
        };
        Ok(Some(Small::make(alloc, automaton, enters, accepts)?))
    }

    /// The tables of an automaton whose positions are entered and accept in every context or in none.
    fn make(
        alloc: Global,
        automaton: &Automaton,
        enters: u64,
        accepts: u64,
    ) -> Result<Small, AllocError>
        requires few { vec_len automaton.now.sets ≤ 64 }
        requires one { automaton.now.follows.by_context ≡ false }
        requires enters { (c : Context) (k : ℕ) →
            is_set enters k ≡ in_mask (slice_get automaton.now.enters.items k) c }
        requires accepts { (c : Context) (k : ℕ) →
            is_set accepts k ≡ in_mask (slice_get automaton.now.accepts.items k) c }
        ensures { IfOk result (λ small. Fits (moves_of_small small) automaton.now) }
    {
        let size = automaton.size();
        let pitch = pitch_for(size);
        let span = span_for(automaton.follows());
        Ok(Small {
            words: words_of(alloc, automaton, pitch, span)?,
            first: first_bytes(automaton.sets(), automaton.enters()),
            enters,
            accepts,
            far: far_word(automaton.follows()),
            all: first_bits(size),
            size: size as u8,
            pitch: pitch as u8,
            span: span as u8,
        })
    }

    /// How many positions there are.
    pub(crate) fn size(&self) -> usize
        ensures { result ≡ self.now.size }
    {
        self.size as usize
    }

    /// The bytes with which a match may begin.
    pub(crate) fn first(&self) -> &ByteSet
        ensures { result.now ≡ self.now.first }
    {
        &self.first
    }

    /// Whether the region is at rest and stays so over the byte.
    #[inline(always)]
    pub(crate) fn stays_at_rest(&self, region: &[u8], entering: bool, byte: u8) -> bool
        requires { length region.now ≡ row_len self.now.size }
        ensures zero { IsTrue result → AreZero region.now }
        ensures outside { IsTrue result → (entering && has self.now.first byte) ≡ false }
        ensures unentered { AreZero region.now → entering ≡ false → IsTrue result }
    {
        is_clear(region) && !(entering && self.first.contains(byte))
    }

    /// Moves the region over the byte, before which the expression is entered or not.
    #[inline(always)]
    pub(crate) fn move_over(&self, region: &mut [u8], entering: bool, byte: u8)
        requires { length region.old ≡ row_len self.now.size }
        ensures len { length region.new ≡ length region.old }
        ensures sound { (c : Context) (k : ℕ) →
            has_bit region.new k ≡ true →
            (reach_bit self.now.words.items self.now.pitch self.now.size byte k ≡ true)
            × IsLed (moves_of_small self.now) (has_bit region.old) c entering k }
        ensures whole { (c : Context) (k : ℕ) →
            k < 8 * length region.old →
            reach_bit self.now.words.items self.now.pitch self.now.size byte k ≡ true →
            IsLed (moves_of_small self.now) (has_bit region.old) c entering k →
            has_bit region.new k ≡ true }
    {
        let led = self.lead(load(region), entering);
        store_word(led & self.row(byte), region);
    }

    /// The positions whose set has the byte.
    #[inline(always)]
    fn row(&self, byte: u8) -> u64
        ensures { (k : ℕ) →
            is_set result k ≡ reach_bit self.now.words.items self.now.pitch self.now.size byte k }
    {
        let start = byte as usize * self.pitch as usize;
        (self.words[start / WORD_BITS] >> (start % WORD_BITS)) & self.all
    }

    /// The positions that may follow those that are live, and those that are entered.
    #[inline(always)]
    fn lead(&self, live: u64, entering: bool) -> u64
        ensures sound { (c : Context) (k : ℕ) →
            k < 64 →
            is_set result k ≡ true →
            IsLed (moves_of_small self.now) (is_set live) c entering k }
        ensures whole { (c : Context) (k : ℕ) →
            k < 64 →
            IsLed (moves_of_small self.now) (is_set live) c entering k →
            is_set result k ≡ true }
    {
        let led = self.lead_on(live);
        if entering { led | self.enters } else { led }
    }

    /// The positions that may follow those that are live: those near by, and one by one what follows the others.
    #[inline(always)]
    fn lead_on(&self, live: u64) -> u64
        ensures { IsLedBut (small_follows self.now) live 0 result }
    {
        let start = REACH_WORDS * self.pitch as usize + self.span as usize;
        let mut led = self.lead_near(live);
        let mut left = live & self.far;
        while left != 0 {
            led |= self.words[start + lowest_bit(left)];
            left = without_lowest_bit(left);
        }
        led
    }

    /// The positions that follow near by those that are live.
    #[inline(always)]
    fn lead_near(&self, live: u64) -> u64
        ensures { IsNearLed (small_follows self.now) live self.now.span result }
    {
        let start = REACH_WORDS * self.pitch as usize;
        let mut led = 0;
        for distance in 0..self.span as usize {
            led |= moved_on(live, self.words[start + distance], distance);
        }
        led
    }

    /// What may come next where a position that is live accepts: anything, or nothing.
    #[inline(always)]
    pub(crate) fn accepted(&self, region: &[u8]) -> NextSet
        requires { length region.now ≡ row_len self.now.size }
        ensures sound { (prev : Prev) (next : Next) →
            has_next result next ≡ true →
            AcceptsIn (moves_of_small self.now) (has_bit region.now) (between prev next) }
        ensures whole { (prev : Prev) (next : Next) →
            AcceptsIn (moves_of_small self.now) (has_bit region.now) (between prev next) →
            has_next result next ≡ true }
    {
        if load(region) & self.accepts == 0 {
            NextSet::empty()
        } else {
            NextSet::all()
        }
    }
}

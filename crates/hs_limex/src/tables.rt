//! The tables by which a step goes, and the step by words.

ghost use Rattle.std.specs.Prelude.{◌≡◌, ℕ, ◌+◌, ◌*◌, ◌/◌, ◌%◌, ◌<◌, ◌≤◌, Bool, true, false, IfOk, IsTrue, ◌&&◌, ◌||◌};
ghost use Rattle.std.specs.Prelude.{length, vec_len};
ghost use Rattle.hs_base.specs.Contexts.{Context, context_number};
ghost use Rattle.hs_engine.specs.Rows.{in_row};
ghost use Rattle.hs_engine.specs.Between.{between};
ghost use Rattle.hs_limex.specs.WordTables.{RowsFit, in_table};
ghost use Rattle.hs_limex.specs.Near.{IsFew, IsNearFrom};

use crate::contexts::{NEXT_COUNT, next_of, number_of};
use crate::far_filling::{far_of, near_of};
use crate::filling::{any_of, masks_of, reach_of};
use crate::leading::{lead_far, lead_near, span_of};
use crate::region_words::{is_row_apart, load_row, store_row};
use crate::word_rows::{MAX_WIDTH, WordRows};
use hs_base::{ByteSet, Next, NextSet, Prev};
use hs_bits::{are_apart, is_zero, keep_words, unite_words, word_count_for};
use hs_engine::{Automaton, FollowRows, first_bytes};
use std::alloc::{AllocError, Global};

/// The tables of an automaton as rows of words, a bit for each position.
#[derive(Debug, Drop)]
pub(crate) struct Tables {
    /// For each byte the positions whose set has it.
    reach: WordRows,
    /// For each context the positions that are entered in it.
    enters: WordRows,
    /// The bytes that positions take which may be entered: any other byte leads nowhere from a region at rest.
    first: ByteSet,
    /// For each context the positions that accept in it.
    accepts: WordRows,
    /// The positions that accept in a context.
    accepting: WordRows,
    /// For each context and distance the positions that may be followed by the one so many places on.
    near: WordRows,
    /// How many distances are used, from 0 on.
    span: usize,
    /// The positions that may be followed by one that isn't near.
    far: WordRows,
    /// What follows each position: a step looks up those that aren't followed near by alone.
    pub(crate) follows: FollowRows,
    ghost few: { reach.width ≤ 8 },
    ghost wide: { follows.size ≤ 64 * reach.width },
    ghost reach_count: { reach.count ≡ 256 },
    ghost reach_few: { (b k : ℕ) → b < 256 → in_table reach b k ≡ true → k < follows.size },
    ghost enters_count: { enters.count ≡ 24 },
    ghost enters_width: { enters.width ≡ reach.width },
    ghost accepts_count: { accepts.count ≡ 24 },
    ghost accepts_width: { accepts.width ≡ reach.width },
    ghost accepting_count: { accepting.count ≡ 1 },
    ghost accepting_width: { accepting.width ≡ reach.width },
    ghost accepting_all: { (c : Context) (k : ℕ) → in_table accepts (context_number c) k ≡ true →
        in_table accepting 0 k ≡ true },
    ghost near_count: { near.count ≡ 192 },
    ghost near_width: { near.width ≡ reach.width },
    ghost near_bits: { (c : Context) (d k : ℕ) → d < 8 →
        in_table near (8 * context_number c + d) k ≡ in_row follows k (k + d) c },
    ghost short: { span ≤ 8 },
    ghost used: { (n k : ℕ) → n < 192 → in_table near n k ≡ true → n % 8 < span },
    ghost far_count: { far.count ≡ 1 },
    ghost far_width: { far.width ≡ reach.width },
    ghost far_few: { IsFew far follows.size },
    ghost rest: { (c : Context) (x y : ℕ) → in_row follows x y c ≡ true → in_table far 0 x ≡ false → IsNearFrom x y },
}

impl Tables {
    ghost use Rattle.hs_base.specs.Bits.{AreZero, has_bit};
    ghost use Rattle.hs_base.specs.ByteSets.{has};
    ghost use Rattle.hs_engine.specs.RowSizes.{row_len};
    ghost use Rattle.hs_base.specs.Bits.{has_word_bit};
    ghost use Rattle.hs_base.specs.ContextSets.{has_next};
    ghost use Rattle.hs_base.specs.declared.context.Next.{Next};
    ghost use Rattle.hs_limex.specs.Fitting.{AcceptsIn, Fits, IsLed};
    ghost use Rattle.hs_limex.specs.TableMoves.{moves_of_tables};

    /// The tables of an automaton.
    pub(crate) fn build(alloc: Global, automaton: &Automaton) -> Result<Tables, AllocError>
        ensures { IfOk result (λ tables. Fits (moves_of_tables tables) automaton.now) }
    {
        let size = automaton.size();
        let width = word_count_for(size);
        let follows = automaton.follows().copy(alloc)?;
        let near = near_of(alloc, &follows, size, width)?;
        let span = span_of(&near);
        let far = far_of(alloc, &follows, size, width)?;
        Ok(Tables {
            reach: reach_of(alloc, automaton.sets(), width)?,
            enters: masks_of(alloc, automaton.enters(), width)?,
            first: first_bytes(automaton.sets(), automaton.enters()),
            accepts: masks_of(alloc, automaton.accepts(), width)?,
            accepting: any_of(alloc, automaton.accepts(), width)?,
            near,
            span,
            far,
            follows,
        })
    }

    /// How many positions there are.
    pub(crate) fn size(&self) -> usize
        ensures size { result ≡ self.now.follows.size }
        ensures few { result ≤ 512 }
    {
        self.follows.size()
    }

    /// The bytes with which a match may begin.
    pub(crate) fn first(&self) -> &ByteSet
        ensures { result.now ≡ self.now.first }
    {
        &self.first
    }

    /// Whether the region is at rest and stays so over the byte.
    pub(crate) fn stays_at_rest(&self, region: &[u8], entering: bool, byte: u8) -> bool
        ensures zero { IsTrue result → AreZero region.now }
        ensures outside { IsTrue result → (entering && has self.now.first byte) ≡ false }
        ensures unentered { AreZero region.now → entering ≡ false → IsTrue result }
    {
        !(entering && self.first.contains(byte)) && is_zero(region)
    }

    /// Moves the region over the byte, before which the expression is entered or not.
    #[inline(always)]
    pub(crate) fn move_over(
        &self,
        region: &mut [u8],
        prev: Prev,
        next: Next,
        entering: bool,
        byte: u8,
    )
        requires { length region.old ≡ row_len self.now.follows.size }
        ensures len { length region.new ≡ length region.old }
        ensures sound { (k : ℕ) →
            has_bit region.new k ≡ true →
            (in_table self.now.reach byte k ≡ true)
            × IsLed (moves_of_tables self.now) (has_bit region.old) (between prev next) entering k }
        ensures whole { (k : ℕ) →
            k < 8 * length region.old →
            in_table self.now.reach byte k ≡ true →
            IsLed (moves_of_tables self.now) (has_bit region.old) (between prev next) entering k →
            has_bit region.new k ≡ true }
    {
        match self.reach.width() {
            1 => self.move_row::<1>(region, prev, next, entering, byte),
            2 => self.move_row::<2>(region, prev, next, entering, byte),
            3 => self.move_row::<3>(region, prev, next, entering, byte),
            4 => self.move_row::<4>(region, prev, next, entering, byte),
            _ => self.move_row::<MAX_WIDTH>(region, prev, next, entering, byte),
        }
    }

    /// The same, by rows of so many words.
    #[inline(never)]
    fn move_row<const W: usize>(
        &self,
        region: &mut [u8],
        prev: Prev,
        next: Next,
        entering: bool,
        byte: u8,
    )
        requires fits { RowsFit self.now.reach.width W }
        requires len { length region.old ≡ row_len self.now.follows.size }
        ensures len { length region.new ≡ length region.old }
        ensures sound { (k : ℕ) →
            has_bit region.new k ≡ true →
            (in_table self.now.reach byte k ≡ true)
            × IsLed (moves_of_tables self.now) (has_bit region.old) (between prev next) entering k }
        ensures whole { (k : ℕ) →
            k < 8 * length region.old →
            in_table self.now.reach byte k ≡ true →
            IsLed (moves_of_tables self.now) (has_bit region.old) (between prev next) entering k →
            has_bit region.new k ≡ true }
    {
        let live = load_row::<W>(region);
        let mut led = [0u64; W];
        self.lead::<W>(&live, prev, next, entering, &mut led);
        keep_words(&mut led, self.reach.row_in::<W>(byte as usize));
        store_row::<W>(&led, region);
    }

    /// Sets the bits of the positions that may follow those that are live, and of those that are entered.
    #[inline(always)]
    fn lead<const W: usize>(
        &self,
        live: &[u64],
        prev: Prev,
        next: Next,
        entering: bool,
        led: &mut [u64],
    )
        requires fits { RowsFit self.now.reach.width W }
        requires live { length live.now ≡ W }
        requires led { length led.old ≡ W }
        requires zero { (k : ℕ) → has_word_bit led.old k ≡ false }
        ensures len { length led.new ≡ length led.old }
        ensures sound { (k : ℕ) →
            has_word_bit led.new k ≡ true →
            IsLed (moves_of_tables self.now) (has_word_bit live.now) (between prev next) entering k }
        ensures whole { (k : ℕ) →
            k < 64 * self.now.reach.width →
            IsLed (moves_of_tables self.now) (has_word_bit live.now) (between prev next) entering k →
            has_word_bit led.new k ≡ true }
    {
        let number = number_of(prev, next);
        lead_near::<W>(&self.near, self.span, number, live, led);
        lead_far(
            &self.follows,
            live,
            self.far.row_in::<W>(0),
            prev,
            next,
            led,
        );
        self.enter::<W>(number, entering, led);
    }

    /// Sets the bits of the positions that are entered in the context of that number, if the expression is.
    #[inline(always)]
    fn enter<const W: usize>(&self, number: usize, entering: bool, led: &mut [u64])
        requires fits { RowsFit self.now.reach.width W }
        requires number { number < 24 }
        requires led { length led.old ≡ W }
        ensures len { length led.new ≡ length led.old }
        ensures bits { (k : ℕ) →
            has_word_bit led.new k ≡ ((entering && in_table self.now.enters number k) || has_word_bit led.old k) }
    {
        if entering {
            unite_words(led, self.enters.row_in::<W>(number));
        }
    }

    /// What may come next where a position that is live accepts.
    #[inline(always)]
    pub(crate) fn accepted(&self, region: &[u8], prev: Prev) -> NextSet
        requires { length region.now ≡ row_len self.now.follows.size }
        ensures sound { (next : Next) →
            has_next result next ≡ true →
            AcceptsIn (moves_of_tables self.now) (has_bit region.now) (between prev next) }
        ensures whole { (next : Next) →
            AcceptsIn (moves_of_tables self.now) (has_bit region.now) (between prev next) →
            has_next result next ≡ true }
    {
        match self.reach.width() {
            1 => self.accepted_row::<1>(region, prev),
            2 => self.accepted_row::<2>(region, prev),
            3 => self.accepted_row::<3>(region, prev),
            4 => self.accepted_row::<4>(region, prev),
            _ => self.accepted_row::<MAX_WIDTH>(region, prev),
        }
    }

    /// The same, by rows of so many words.
    #[inline(never)]
    fn accepted_row<const W: usize>(&self, region: &[u8], prev: Prev) -> NextSet
        requires fits { RowsFit self.now.reach.width W }
        requires len { length region.now ≡ row_len self.now.follows.size }
        ensures sound { (next : Next) →
            has_next result next ≡ true →
            AcceptsIn (moves_of_tables self.now) (has_bit region.now) (between prev next) }
        ensures whole { (next : Next) →
            AcceptsIn (moves_of_tables self.now) (has_bit region.now) (between prev next) →
            has_next result next ≡ true }
    {
        if is_row_apart::<W>(region, self.accepting.row_in::<W>(0)) {
            return NextSet::empty();
        }
        self.accepted_among::<W>(region, prev)
    }

    /// The same, with each that may come next looked at.
    #[inline(never)]
    fn accepted_among<const W: usize>(&self, region: &[u8], prev: Prev) -> NextSet
        requires fits { RowsFit self.now.reach.width W }
        requires len { length region.now ≡ row_len self.now.follows.size }
        ensures sound { (next : Next) →
            has_next result next ≡ true →
            AcceptsIn (moves_of_tables self.now) (has_bit region.now) (between prev next) }
        ensures whole { (next : Next) →
            AcceptsIn (moves_of_tables self.now) (has_bit region.now) (between prev next) →
            has_next result next ≡ true }
    {
        let live = load_row::<W>(region);
        let mut all = NextSet::empty();
        for number in 0..NEXT_COUNT {
            all = all.union(self.accepted_before::<W>(&live, prev, next_of(number)));
        }
        all
    }

    /// That, if it may come next where one of those positions accepts.
    #[inline(always)]
    fn accepted_before<const W: usize>(&self, live: &[u64], prev: Prev, next: Next) -> NextSet
        requires fits { RowsFit self.now.reach.width W }
        requires len { length live.now ≡ W }
        ensures sound { (other : Next) →
            has_next result other ≡ true →
            AcceptsIn (moves_of_tables self.now) (has_word_bit live.now) (between prev other) }
        ensures whole { AcceptsIn (moves_of_tables self.now) (has_word_bit live.now) (between prev next) →
            has_next result next ≡ true }
    {
        if are_apart(live, self.accepts.row_in::<W>(number_of(prev, next))) {
            NextSet::empty()
        } else {
            NextSet::of(next)
        }
    }
}

//! A block taken by a word of 64 places for each position: what the positions do at all places at once. A position's
//! word is made where something may lead to it, and again where the word of one that leads to it has changed.
//!
//! The words of `a[bc]*d` over ten bytes, entered before each; the last position accepts:
//!
//! ```text
//! bytes    x a b c d a d b d d
//! a        . 1 . . . 1 . . . .
//! [bc]     . . 1 1 . . . . . .    behind the word of `a`, and behind itself
//! d        . . . . 1 . 1 . . .    behind either of these
//! ```

ghost use Rattle.std.specs.Prelude.{◌≡◌, ◌≢◌, ℕ, ◌+◌, ◌*◌, ◌/◌, ◌<◌, ◌≤◌, ◌&&◌, ◌||◌, ◌==◌, Bool, true, false, not};
ghost use Rattle.std.specs.Prelude.{IfOk, IfSome, IsTrue, List, length, nat_lt, set, slice_get, slice_index, vec_len};
ghost use Rattle.hs_engine.specs.AnyBelow.{any_below};
ghost use Rattle.hs_base.specs.Bits.{AreZero, has_bit, has_word_bit, word_count};
ghost use Rattle.hs_base.specs.Contexts.{Context};
ghost use Rattle.hs_base.specs.ContextSets.{has_context};
ghost use Rattle.hs_engine.specs.Automata.{in_mask, in_set};
ghost use Rattle.hs_bits.specs.BlockContexts.{AreMade, context_before, context_behind};
ghost use Rattle.hs_block.specs.Rows.{is_next, live_at};
ghost use Rattle.hs_block.specs.Settling.{AreLive, IsSettled};
ghost use Rattle.hs_block.specs.StreamSets.{RowsFit, in_rows, is_from, takes_byte};
ghost use Rattle.hs_bits.specs.WordBits.{one_later, word_bit};

use crate::before_tables::{
    EXACT_WIDTH, MAX_WIDTH, OrderTables, SQUARES, places_by_square, row_in,
};
use crate::class_words::{ClassWords, MAX_SETS, class_word};
use crate::mask_places::{places_before, places_behind};
use crate::mask_words::{has_mixed, some_row};
use crate::position_words::{column, meet, united_rows, word_behind};
use crate::set_tables::SetTables;
use hs_base::{ByteSet, Mask, Prev};
use hs_bits::{
    Contexts, WORD_BITS, contains_place, contains_word_bit, contexts_of, is_zero, keep_words, load,
    low_places, lowest_bit, next_bit_in, one_later, only_if, place_count, place_in, store,
    unite_words, without_lowest_bit, write_word_bit,
};
use hs_engine::{Automaton, BlockEnds, Steps, first_bytes};
use std::alloc::{AllocError, Global};
use std::sync::ledger::Ledger;

/// How many positions there may be.
pub const MAX_STREAMS: usize = MAX_WIDTH * WORD_BITS;
/// How many words are made for each position until all are given up: so often a group may come round in a block.
const ROUNDS: usize = 8;

/// The tables of an automaton of at most 512 positions, for whole blocks: 32 bytes for each set, and for each position
/// 32 bytes and two rows of bits, with a bit for each position; where contexts matter between positions twelve more.
#[derive(Debug, Drop)]
pub struct Streams {
    /// How many positions there are.
    pub(crate) size: usize,
    /// How many words a row has.
    pub(crate) width: usize,
    /// The sets of bytes, each once. The first one has the bytes with which a match may begin.
    pub(crate) sets: Vec<ByteSet>,
    /// For each position the number of its set.
    pub(crate) numbers: Vec<usize>,
    /// For each position the row of those that may come before it in each context.
    pub(crate) froms: Vec<u64>,
    /// For each position and each context in which a byte comes next the row of those that may come before it there,
    /// but not in each; none at all where contexts don't matter.
    pub(crate) rests: Vec<u64>,
    /// For each position a bit for each of these contexts in which others may come before it than in each.
    pub(crate) asks: Vec<u64>,
    /// For each position the row of those that may come behind it, without itself.
    pub(crate) successors: Vec<u64>,
    /// For each position the contexts in which it is entered.
    pub(crate) enters: Vec<Mask>,
    /// For each position the contexts in which it accepts.
    pub(crate) accepts: Vec<Mask>,
    /// The positions that are entered in some context.
    pub(crate) entered: [u64; MAX_WIDTH],
    /// The positions that accept in some context.
    pub(crate) accepting: [u64; MAX_WIDTH],
    /// Whether a context matters anywhere.
    mixed: bool,
    /// Whether one matters between positions.
    pub(crate) asking: bool,
    ghost few: { size ≤ 512 },
    ghost wide: { width ≡ word_count size },
    ghost numbered: { vec_len numbers ≡ size },
    ghost froms_whole: { vec_len froms ≡ width * size },
    ghost succeeded: { vec_len successors ≡ width * size },
    ghost asks_count: { vec_len asks ≡ size },
    ghost still: { asking ≡ false → (x : ℕ) → slice_index asks.items x ≡ 0 },
    ghost entered_len: { length entered ≡ 8 },
    ghost accepting_len: { length accepting ≡ 8 },
    ghost entered_all: { vec_len enters ≡ size },
    ghost accepted_all: { vec_len accepts ≡ size },
    ghost few_sets: { vec_len sets ≤ 64 },
    ghost some_sets: { 0 < vec_len sets },
    ghost in_sets: { (x : ℕ) → slice_index numbers.items x < vec_len sets },
    ghost few_asked: { (x q : ℕ) → 12 ≤ q → word_bit (slice_index asks.items x) q ≡ false },
    ghost asked: { asking ≡ true → width * (12 * size) ≤ vec_len rests },
    ghost unasked: { (x q y : ℕ) → x < size → q < 12 → y < size → word_bit (slice_index asks.items x) q ≡ false →
        in_rows rests.items width (12 * x + q) y ≡ false },
    ghost successors_have: { (x y : ℕ) (c : Context) → x < size → y < size →
        is_from size width froms.items rests.items y x c ≡ true → y ≢ x →
        in_rows successors.items width x y ≡ true },
    ghost entered_some: { (x : ℕ) (c : Context) →
        in_mask (slice_get enters.items x) c ≡ true → has_word_bit entered x ≡ true },
    ghost accepting_some: { (x : ℕ) (c : Context) →
        in_mask (slice_get accepts.items x) c ≡ true → has_word_bit accepting x ≡ true },
    ghost firsts: { (x b : ℕ) (c : Context) → x < size → b < 256 →
        in_mask (slice_get enters.items x) c ≡ true →
        takes_byte sets.items numbers.items x b ≡ true → in_set (slice_get sets.items 0) b ≡ true },
}

/// What stands before a block, and where the expression is entered in it.
#[derive(Clone, Copy, Debug)]
struct Setting {
    /// What stands before its first byte.
    prev: Prev,
    /// The places before whose bytes the expression is entered.
    enters: u64,
    /// Whether no position is live before it.
    blank: bool,
}

/// The same with the positions that are live before the block. The rows of all that is done with it have `W` words: a
/// row of one word stays in a register.
#[derive(Clone, Copy, Debug)]
struct Entry<const W: usize> {
    /// What stands before its first byte.
    prev: Prev,
    /// The contexts of its places, if they are made.
    contexts: Option<Contexts>,
    /// The places before whose bytes the expression is entered.
    enters: u64,
    /// The positions that are live before it.
    state: [u64; W],
    ghost state_len: { length state ≡ W },
}

/// What is still to be done for the words of a block.
#[derive(Clone, Copy, Debug)]
struct Work<const W: usize> {
    /// The positions whose words are to be made.
    todo: [u64; W],
    /// The positions whose words aren't 0.
    live: [u64; W],
    ghost todo_len: { length todo ≡ W },
    ghost live_len: { length live ≡ W },
}

/// From where a position is reached.
#[derive(Clone, Copy, Debug)]
struct Arrivals {
    /// The places to which another position leads, or one that is live before the block.
    led: u64,
    /// The places at which the position may follow itself.
    again: u64,
}

impl Streams {
    ghost use Rattle.hs_engine.specs.Tables.{IsClearFrom};
    ghost use Rattle.hs_block.specs.Blocks.{is_blank};
    ghost use Rattle.hs_bits.specs.Packed.{packed};
    ghost use Rattle.hs_block.specs.StreamRuns.{IsTried};
    ghost use Rattle.hs_block.specs.StreamTables.{AreClassWords, TellsOf, comes_before, stream_rules};

    /// The tables of an automaton; None where it has too many sets.
    pub fn build(alloc: Global, automaton: &Automaton) -> Result<Option<Streams>, AllocError>
        ensures { IfOk result (λ found. IfSome found (λ streams. TellsOf streams automaton.now)) }
    {
        let first = first_bytes(automaton.sets(), automaton.enters());
        let tables = SetTables::build(alloc, &first, automaton.sets())?;
        if tables.sets.len() > MAX_SETS {
            return Ok(None);
        }
        Ok(Some(Streams::make(alloc, automaton, tables)?))
    }

    /// The tables of an automaton, with those of its sets.
    fn make(alloc: Global, automaton: &Automaton, tables: SetTables) -> Result<Streams, AllocError>
        requires few_sets { vec_len tables.sets ≤ 64 }
        requires some_sets { 0 < vec_len tables.sets }
        requires numbered { vec_len tables.numbers ≡ vec_len automaton.now.sets }
        requires in_sets { (x : ℕ) → slice_index tables.numbers.items x < vec_len tables.sets }
        requires takes { (x b : ℕ) → x < vec_len automaton.now.sets → b < 256 →
            takes_byte tables.sets.items tables.numbers.items x b
            ≡ in_set (slice_get automaton.now.sets.items x) b }
        requires firsts { (x b : ℕ) (c : Context) → b < 256 →
            in_mask (slice_get automaton.now.enters.items x) c ≡ true →
            in_set (slice_get automaton.now.sets.items x) b ≡ true →
            in_set (slice_get tables.sets.items 0) b ≡ true }
        ensures { IfOk result (λ streams. TellsOf streams automaton.now) }
    {
        let orders = OrderTables::build(alloc, automaton.follows())?;
        let enters = Vec::from_slice(alloc, automaton.enters())?;
        let accepts = Vec::from_slice(alloc, automaton.accepts())?;
        let asking = automaton.follows().square_count() != 1;
        let mixed = asking | has_mixed(automaton.enters()) | has_mixed(automaton.accepts());
        let entered = some_row(automaton.enters());
        let accepting = some_row(automaton.accepts());
        Ok(Streams {
            size: automaton.size(),
            width: orders.width,
            sets: tables.sets,
            numbers: tables.numbers,
            froms: orders.froms,
            rests: orders.rests,
            asks: orders.asks,
            successors: orders.successors,
            enters,
            accepts,
            entered,
            accepting,
            mixed,
            asking,
        })
    }

    /// Takes a block behind `prev`, before each byte of which the expression is entered whose bit is set. It counts a
    /// step for each byte before which a position is live or the expression is entered. None where the words didn't
    /// come to rest: all is then as before, and the block has to be taken byte by byte.
    pub fn run<L: Ledger>(
        &self,
        region: &mut [u8],
        prev: Prev,
        enters: u64,
        bytes: &[u8],
        steps: &mut Steps<L>,
    ) -> Option<BlockEnds>
        requires len { length region.old ≡ (self.now.size + 7) / 8 }
        requires clear { IsClearFrom region.old self.now.size }
        requires few { length bytes.now ≤ 64 }
        ensures { IsTried self.now prev region.old region.new enters bytes.now (length bytes.now) result
            steps.old steps.new }
    {
        if bytes.len() == WORD_BITS {
            return self.run_whole(region, prev, enters, bytes, WORD_BITS, steps);
        }
        let mut whole = [0u8; WORD_BITS];
        whole[..bytes.len()].copy_from_slice(bytes);
        self.run_whole(region, prev, enters, &whole, bytes.len(), steps)
    }

    /// Takes so many bytes of a whole block.
    fn run_whole<L: Ledger>(
        &self,
        region: &mut [u8],
        prev: Prev,
        enters: u64,
        whole: &[u8],
        count: usize,
        steps: &mut Steps<L>,
    ) -> Option<BlockEnds>
        requires len { length region.old ≡ (self.now.size + 7) / 8 }
        requires clear { IsClearFrom region.old self.now.size }
        requires whole { length whole.now ≡ 64 }
        requires few { count ≤ 64 }
        ensures { IsTried self.now prev region.old region.new enters whole.now count result steps.old steps.new }
    {
        let first = class_word(&self.sets[0], whole);
        let entered = enters & low_places(count);
        let blank = is_zero(region);
        if blank & (first & entered == 0) {
            steps.tick_by(place_count(entered));
            return Some(BlockEnds {
                before: 0,
                behind: 0,
            });
        }
        let setting = Setting {
            prev,
            enters,
            blank,
        };
        if self.width == 1 {
            return self.take::<L, 1, WORD_BITS>(region, &setting, whole, count, first, steps);
        }
        self.take_wide(region, &setting, whole, count, first, steps)
    }

    /// Takes them by rows of several words: by as many as there may be, or by those of a middle width, which are made
    /// sooner.
    #[inline(never)]
    fn take_wide<L: Ledger>(
        &self,
        region: &mut [u8],
        setting: &Setting,
        whole: &[u8],
        count: usize,
        first: u64,
        steps: &mut Steps<L>,
    ) -> Option<BlockEnds>
        requires len { length region.old ≡ (self.now.size + 7) / 8 }
        requires clear { IsClearFrom region.old self.now.size }
        requires whole { length whole.now ≡ 64 }
        requires blank { setting.now.blank ≡ is_blank region.old }
        requires few { count ≤ 64 }
        requires many { self.now.width ≢ 1 }
        requires first { (i : ℕ) → i < 64 →
            word_bit first i ≡ in_set (slice_get self.now.sets.items 0) (slice_index whole.now i) }
        ensures { IsTried self.now setting.now.prev region.old region.new setting.now.enters whole.now count result
            steps.old steps.new }
    {
        if self.width == 2 {
            return self.take::<L, 2, 128>(region, setting, whole, count, first, steps);
        }
        if self.width == EXACT_WIDTH {
            return self.take::<L, EXACT_WIDTH, 192>(region, setting, whole, count, first, steps);
        }
        self.take::<L, MAX_WIDTH, MAX_STREAMS>(region, setting, whole, count, first, steps)
    }

    /// Takes them by rows of just so many words, or of as many as there may be. The places of the first bytes are told.
    fn take<L: Ledger, const W: usize, const N: usize>(
        &self,
        region: &mut [u8],
        setting: &Setting,
        whole: &[u8],
        count: usize,
        first: u64,
        steps: &mut Steps<L>,
    ) -> Option<BlockEnds>
        requires fits { RowsFit self.now.width W }
        requires len { length region.old ≡ (self.now.size + 7) / 8 }
        requires clear { IsClearFrom region.old self.now.size }
        requires whole { length whole.now ≡ 64 }
        requires blank { setting.now.blank ≡ is_blank region.old }
        requires few { count ≤ 64 }
        requires first { (i : ℕ) → i < 64 →
            word_bit first i ≡ in_set (slice_get self.now.sets.items 0) (slice_index whole.now i) }
        requires room { N ≡ 64 * W }
        ensures { IsTried self.now setting.now.prev region.old region.new setting.now.enters whole.now count result
            steps.old steps.new }
    {
        let entry = Entry {
            prev: setting.prev,
            contexts: self.contexts(setting.prev, whole),
            enters: setting.enters,
            state: load::<W>(region),
        };
        let mut words = [0u64; N];
        let live = self.solve(&entry, whole, first, &mut words)?;
        let busy = self.busy_places(&entry, &words, &live, count, setting.blank);
        steps.tick_by(place_count(busy));
        let ends = self.ends(&entry, whole, &words, &live, count);
        self.keep::<W>(region, &words, &live, count);
        Some(ends)
    }

    /// The contexts of a block behind `prev`, where something asks for them.
    fn contexts(&self, prev: Prev, whole: &[u8]) -> Option<Contexts>
        requires { length whole.now ≡ 64 }
        ensures { AreMade result prev whole.now }
    {
        if self.mixed {
            Some(Contexts::new(prev, whole))
        } else {
            None
        }
    }

    /// Makes the words of the positions until they come to rest, and tells which aren't 0; None where they don't.
    fn solve<const W: usize>(
        &self,
        entry: &Entry<W>,
        whole: &[u8],
        first: u64,
        words: &mut [u64],
    ) -> Option<[u64; W]>
        requires fits { RowsFit self.now.width W }
        requires whole { length whole.now ≡ 64 }
        requires made { AreMade entry.now.contexts entry.now.prev whole.now }
        requires first { (i : ℕ) → i < 64 →
            word_bit first i ≡ in_set (slice_get self.now.sets.items 0) (slice_index whole.now i) }
        requires state { (y : ℕ) → self.now.size ≤ y → has_word_bit entry.now.state y ≡ false }
        requires room { 64 * self.now.width ≤ length words.old }
        requires zero { (x : ℕ) → slice_index words.old x ≡ 0 }
        ensures len { length words.new ≡ length words.old }
        ensures lit { IfSome result (λ live. AreLive self.now.size W words.new live) }
        ensures settled { IfSome result (λ live. (x : ℕ) → x < self.now.size → (i : ℕ) → i < 64 →
            word_bit (slice_index words.new x) i ≡ is_next (stream_rules self.now entry.now.prev entry.now.enters
            whole.now) i (live_at (has_word_bit entry.now.state) words.new i) x) }
    {
        let mut classes = ClassWords::new(first);
        let todo = self.first_todo(entry, first);
        let live = [0u64; W];
        let mut work = Work { todo, live };
        for _round in 0..ROUNDS * self.size {
            let Some(position) = next_bit_in(&work.todo, 0, self.size) else {
                return Some(work.live);
            };
            let position = place_in::<W>(position);
            if !self.settle(position, entry, whole, &mut classes, words, &mut work) {
                return None;
            }
        }
        None
    }

    /// The positions that are entered in some context, if a first byte stands where the expression is entered, those
    /// that are live, and those to which one of these leads.
    fn first_todo<const W: usize>(&self, entry: &Entry<W>, first: u64) -> [u64; W]
        requires fits { RowsFit self.now.width W }
        ensures len { length result ≡ W }
        ensures entered { (x : ℕ) → x < self.now.size → has_word_bit result x ≡ false →
            has_word_bit self.now.entered x ≡ true →
            (i : ℕ) → (word_bit first i && word_bit entry.now.enters i) ≡ false }
        ensures led { (x y : ℕ) (c : Context) → x < self.now.size → y < self.now.size →
            has_word_bit result x ≡ false →
            has_word_bit entry.now.state y ≡ true → comes_before self.now x y c ≡ false }
    {
        let mut todo = self.led_by(&entry.state);
        if first & entry.enters == 0 {
            return todo;
        }
        unite_words(&mut todo, &self.entered[..W]);
        todo
    }

    /// Those positions, and those to which they lead.
    fn led_by<const W: usize>(&self, state: &[u64]) -> [u64; W]
        requires fits { RowsFit self.now.width W }
        requires len { length state.now ≡ W }
        ensures len { length result ≡ W }
        ensures led { (x y : ℕ) (c : Context) → x < self.now.size → y < self.now.size →
            has_word_bit result x ≡ false →
            has_word_bit state.now y ≡ true → comes_before self.now x y c ≡ false }
    {
        let mut todo = [0u64; W];
        unite_words(&mut todo, state);
        let mut from = 0;
        while let Some(position) = next_bit_in(state, from, self.size) {
            let row = row_in::<W>(&self.successors, self.width, position);
            unite_words(&mut todo, row);
            from = position + 1;
        }
        todo
    }

    /// Makes the word of a position that is to be made; false where the look at it fails.
    #[inline(always)]
    fn settle<const W: usize>(
        &self,
        position: usize,
        entry: &Entry<W>,
        whole: &[u8],
        classes: &mut ClassWords,
        words: &mut [u64],
        work: &mut Work<W>,
    ) -> bool
        requires fits { RowsFit self.now.width W }
        requires position { position < self.now.size }
        requires whole { length whole.now ≡ 64 }
        requires made { AreMade entry.now.contexts entry.now.prev whole.now }
        requires state { (y : ℕ) → self.now.size ≤ y → has_word_bit entry.now.state y ≡ false }
        requires known { AreClassWords classes.old self.now.sets.items whole.now }
        requires room { 64 * self.now.width ≤ length words.old }
        requires settled { IsSettled (stream_rules self.now entry.now.prev entry.now.enters whole.now)
            (has_word_bit entry.now.state) words.old work.old.todo work.old.live }
        ensures known { AreClassWords classes.new self.now.sets.items whole.now }
        ensures len { length words.new ≡ length words.old }
        ensures settled { IsTrue result →
            IsSettled (stream_rules self.now entry.now.prev entry.now.enters whole.now)
            (has_word_bit entry.now.state) words.new work.new.todo work.new.live }
    {
        let old = words[position];
        words[position] = 0;
        let Some(word) = self.word_of(position, entry, whole, classes, words, &work.live) else {
            return false;
        };
        words[position] = word;
        write_word_bit(&mut work.todo, position, false);
        write_word_bit(&mut work.live, position, word != 0);
        if word == old {
            return true;
        }
        unite_words(
            &mut work.todo,
            row_in::<W>(&self.successors, self.width, position),
        );
        true
    }

    /// The word of a position whose word is 0 so far, by those of the positions that may come before it; None where the
    /// look at it fails.
    #[inline(always)]
    fn word_of<const W: usize>(
        &self,
        position: usize,
        entry: &Entry<W>,
        whole: &[u8],
        classes: &mut ClassWords,
        words: &[u64],
        live: &[u64],
    ) -> Option<u64>
        requires fits { RowsFit self.now.width W }
        requires position { position < self.now.size }
        requires whole { length whole.now ≡ 64 }
        requires made { AreMade entry.now.contexts entry.now.prev whole.now }
        requires known { AreClassWords classes.old self.now.sets.items whole.now }
        requires room { 64 * self.now.width ≤ length words.now }
        requires state { (y : ℕ) → self.now.size ≤ y → has_word_bit entry.now.state y ≡ false }
        requires lit { AreLive self.now.size W words.now live.now }
        requires none { slice_index words.now position ≡ 0 }
        ensures known { AreClassWords classes.new self.now.sets.items whole.now }
        ensures word { IfSome result (λ word. (i : ℕ) → i < 64 →
            word_bit word i
            ≡ is_next (stream_rules self.now entry.now.prev entry.now.enters whole.now) i
            (live_at (has_word_bit entry.now.state) (set words.now position word) i) position) }
    {
        let entered = entered_places(entry, whole, self.enters[position]);
        let arrivals = self.arrivals(position, entry, whole, words, live);
        let reached = entered | arrivals.led;
        if reached == 0 {
            return Some(0);
        }
        let class = classes.of(&self.sets, self.numbers.as_slice()[position], whole);
        word_behind(class, reached, arrivals.again)
    }

    /// Where positions that are live lead to a position, and where it may follow itself.
    #[inline(always)]
    fn arrivals<const W: usize>(
        &self,
        position: usize,
        entry: &Entry<W>,
        whole: &[u8],
        words: &[u64],
        live: &[u64],
    ) -> Arrivals
        requires fits { RowsFit self.now.width W }
        requires position { position < self.now.size }
        requires whole { length whole.now ≡ 64 }
        requires made { AreMade entry.now.contexts entry.now.prev whole.now }
        requires room { 64 * self.now.width ≤ length words.now }
        requires state { (y : ℕ) → self.now.size ≤ y → has_word_bit entry.now.state y ≡ false }
        requires lit { AreLive self.now.size W words.now live.now }
        ensures led { (i : ℕ) → i < 64 → word_bit result.led i ≡ any_below self.now.size
            (λ y. live_at (has_word_bit entry.now.state) words.now i y
            && comes_before self.now position y (context_before entry.now.prev whole.now i)) }
        ensures again { (i : ℕ) → i < 64 → word_bit result.again i
            ≡ comes_before self.now position position (context_before entry.now.prev whole.now i) }
    {
        let row = row_in::<W>(&self.froms, self.width, position);
        let always = arrive(row, position, entry, words, live);
        let asks = self.asks.as_slice()[position];
        if asks == 0 {
            return always;
        }
        self.by_context(always, asks, position, entry, whole, words, live)
    }

    /// The same, with the arrivals that every context allows told, and the contexts in which there may be others.
    #[inline(never)]
    fn by_context<const W: usize>(
        &self,
        always: Arrivals,
        asks: u64,
        position: usize,
        entry: &Entry<W>,
        whole: &[u8],
        words: &[u64],
        live: &[u64],
    ) -> Arrivals
        requires fits { RowsFit self.now.width W }
        requires position { position < self.now.size }
        requires whole { length whole.now ≡ 64 }
        requires made { AreMade entry.now.contexts entry.now.prev whole.now }
        requires room { 64 * self.now.width ≤ length words.now }
        requires asks { asks ≡ slice_index self.now.asks.items position }
        requires asking { self.now.asking ≡ true }
        requires state { (y : ℕ) → self.now.size ≤ y → has_word_bit entry.now.state y ≡ false }
        requires lit { AreLive self.now.size W words.now live.now }
        requires led { (i : ℕ) → i < 64 → word_bit always.led i ≡ any_below self.now.size
            (λ y. live_at (has_word_bit entry.now.state) words.now i y
            && in_rows self.now.froms.items self.now.width position y) }
        requires again { (i : ℕ) → i < 64 → word_bit always.again i
            ≡ in_rows self.now.froms.items self.now.width position position }
        ensures led { (i : ℕ) → i < 64 → word_bit result.led i ≡ any_below self.now.size
            (λ y. live_at (has_word_bit entry.now.state) words.now i y
            && comes_before self.now position y (context_before entry.now.prev whole.now i)) }
        ensures again { (i : ℕ) → i < 64 → word_bit result.again i
            ≡ comes_before self.now position position (context_before entry.now.prev whole.now i) }
    {
        let squares = places_by_square(&contexts_of(entry.contexts, entry.prev, whole));
        let mut all = always;
        let mut left = asks;
        while left != 0 {
            let square = lowest_bit(left);
            left = without_lowest_bit(left);
            let places = squares[square];
            if places == 0 {
                continue;
            }
            let row = row_in::<W>(&self.rests, self.width, SQUARES * position + square);
            let more = arrive(row, position, entry, words, live);
            all = Arrivals {
                led: all.led | (more.led & places),
                again: all.again | (more.again & places),
            };
        }
        all
    }

    /// Where a position accepts that is live.
    fn ends<const W: usize>(
        &self,
        entry: &Entry<W>,
        whole: &[u8],
        words: &[u64],
        live: &[u64],
        count: usize,
    ) -> BlockEnds
        requires fits { RowsFit self.now.width W }
        requires few { count ≤ 64 }
        requires whole { length whole.now ≡ 64 }
        requires made { AreMade entry.now.contexts entry.now.prev whole.now }
        requires room { self.now.size ≤ length words.now }
        requires lit { AreLive self.now.size W words.now live.now }
        ensures before { (i : ℕ) → word_bit result.before i ≡ (nat_lt i count
            && any_below self.now.size
            (λ x. live_at (has_word_bit entry.now.state) words.now i x
            && in_mask (slice_get self.now.accepts.items x) (context_before entry.now.prev whole.now i))) }
        ensures behind { (i : ℕ) → word_bit result.behind i ≡ (nat_lt i count
            && any_below self.now.size
            (λ x. word_bit (slice_index words.now x) i
            && in_mask (slice_get self.now.accepts.items x) (context_behind entry.now.prev whole.now i))) }
    {
        let ending = self.ending::<W>(&entry.state, live);
        let mut before = 0;
        let mut behind = 0;
        let mut from = 0;
        while let Some(position) = next_bit_in(&ending, from, self.size) {
            let more = self.ends_of(position, entry, whole, words);
            before |= more.before;
            behind |= more.behind;
            from = position + 1;
        }
        let low = low_places(count);
        BlockEnds {
            before: low & before,
            behind: low & behind,
        }
    }

    /// The positions that are live somewhere and accept in some context.
    fn ending<const W: usize>(&self, state: &[u64], live: &[u64]) -> [u64; W]
        requires fits { RowsFit self.now.width W }
        requires state { length state.now ≡ W }
        requires live { length live.now ≡ W }
        ensures len { length result ≡ W }
        ensures bits { (k : ℕ) → k < self.now.size → has_word_bit result k
            ≡ (has_word_bit self.now.accepting k && (has_word_bit live.now k || has_word_bit state.now k)) }
    {
        let mut ending = [0u64; W];
        unite_words(&mut ending, state);
        unite_words(&mut ending, live);
        keep_words(&mut ending, &self.accepting[..W]);
        ending
    }

    /// Where a position accepts, if it is live there.
    #[inline(always)]
    fn ends_of<const W: usize>(
        &self,
        position: usize,
        entry: &Entry<W>,
        whole: &[u8],
        words: &[u64],
    ) -> BlockEnds
        requires fits { RowsFit self.now.width W }
        requires position { position < self.now.size }
        requires whole { length whole.now ≡ 64 }
        requires made { AreMade entry.now.contexts entry.now.prev whole.now }
        requires room { self.now.size ≤ length words.now }
        ensures before { (i : ℕ) → i < 64 → word_bit result.before i ≡
            (live_at (has_word_bit entry.now.state) words.now i position
            && in_mask (slice_get self.now.accepts.items position) (context_before entry.now.prev whole.now i)) }
        ensures behind { (i : ℕ) → i < 64 → word_bit result.behind i ≡
            (word_bit (slice_index words.now position) i
            && in_mask (slice_get self.now.accepts.items position) (context_behind entry.now.prev whole.now i)) }
    {
        let accepts = self.accepts[position];
        let word = words[position];
        let before = one_later(word, contains_word_bit(&entry.state, position));
        BlockEnds {
            before: before & places_before(&entry.contexts, entry.prev, whole, accepts),
            behind: word & places_behind(&entry.contexts, entry.prev, whole, accepts),
        }
    }

    /// Keeps the positions that are live behind the last of so many bytes.
    fn keep<const W: usize>(&self, region: &mut [u8], words: &[u64], live: &[u64], count: usize)
        requires fits { RowsFit self.now.width W }
        requires few { count ≤ 64 }
        requires room { 64 * W ≤ length words.now }
        requires lit { AreLive self.now.size W words.now live.now }
        requires len { length region.old ≡ (self.now.size + 7) / 8 }
        ensures none { count ≡ 0 → region.new ≡ region.old }
        ensures some { (last : ℕ) → count ≡ last + 1 → region.new ≡
            packed (length region.old)
            (λ x. nat_lt x self.now.size && word_bit (slice_index words.now x) last) }
    {
        if count > 0 {
            store(&column::<W>(words, live, count - 1), region);
        }
    }

    /// The places before whose bytes a position is live or the expression is entered.
    fn busy_places<const W: usize>(
        &self,
        entry: &Entry<W>,
        words: &[u64],
        live: &[u64],
        count: usize,
        blank: bool,
    ) -> u64
        requires fits { RowsFit self.now.width W }
        requires few { count ≤ 64 }
        requires room { 64 * self.now.width ≤ length words.now }
        requires lit { AreLive self.now.size W words.now live.now }
        ensures { (i : ℕ) → word_bit result i ≡ (nat_lt i count && (word_bit entry.now.enters i
            || one_later (not blank)
            (λ j. any_below self.now.size (λ x. word_bit (slice_index words.now x) j)) i)) }
    {
        let word = united_rows(words, row_in::<W>(live, self.width, 0), live);
        low_places(count) & (entry.enters | one_later(word, !blank))
    }
}

/// The places of a block at which the expression is entered in a context of the mask.
#[inline(always)]
fn entered_places<const W: usize>(entry: &Entry<W>, whole: &[u8], mask: Mask) -> u64
    requires whole { length whole.now ≡ 64 }
    requires made { AreMade entry.now.contexts entry.now.prev whole.now }
    ensures { (i : ℕ) → i < 64 → word_bit result i
        ≡ (word_bit entry.now.enters i && has_context mask (context_before entry.now.prev whole.now i)) }
{
    if entry.enters == 0 {
        return 0;
    }
    entry.enters & places_before(&entry.contexts, entry.prev, whole, mask)
}

/// Where positions that are live lead to one by a row of those that may come before it, and where it may follow itself.
#[inline(always)]
fn arrive<const W: usize>(
    row: &[u64],
    position: usize,
    entry: &Entry<W>,
    words: &[u64],
    live: &[u64],
) -> Arrivals
    requires position { position < 64 * length row.now }
    requires room { 64 * length row.now ≤ length words.now }
    requires narrow { length row.now ≤ W }
    requires live { length live.now ≡ W }
    requires dark { (y : ℕ) → has_word_bit live.now y ≡ false → slice_index words.now y ≡ 0 }
    ensures led { (size : ℕ) → size ≤ 64 * length row.now →
        ((y : ℕ) → size ≤ y → has_word_bit entry.now.state y ≡ false) →
        ((y : ℕ) → size ≤ y → has_word_bit live.now y ≡ false) → (i : ℕ) → i < 64 →
        word_bit result.led i ≡ any_below size
        (λ y. live_at (has_word_bit entry.now.state) words.now i y && has_word_bit row.now y) }
    ensures again { (i : ℕ) → i < 64 → word_bit result.again i ≡ has_word_bit row.now position }
{
    let led = united_rows(words, row, live);
    Arrivals {
        led: one_later(led, meet(&entry.state, row)),
        again: only_if(u64::MAX, contains_word_bit(row, position)),
    }
}

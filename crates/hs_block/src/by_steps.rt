//! A block of bytes taken step by step, which every engine can do.

ghost use Rattle.std.specs.Prelude.{◌≡◌, ◌↔◌, ℕ, ◌+◌, ◌^◌, ◌<◌, ◌≤◌, true, false, IsTrue, List, length, slice_index};
ghost use Rattle.hs_base.specs.declared.context.Next.{Next};
ghost use Rattle.hs_base.specs.declared.context.Prev.{Prev};
ghost use Rattle.hs_base.specs.Bits.{AreZero};
ghost use Rattle.hs_base.specs.ByteSets.{has};
ghost use Rattle.hs_base.specs.Contexts.{class_of};
ghost use Rattle.hs_base.specs.ContextSets.{has_next};
ghost use Rattle.hs_engine.specs.Engines.{IsQuiet, IsStart, TellsLeaves};
ghost use Rattle.hs_bits.specs.WordBits.{count_set, word_bit};
ghost use Rattle.hs_block.specs.Blocks.{IsEnteredThroughout, TakesBlock};
ghost use Rattle.hs_block.specs.Rests.{IsAsleepOver, is_busy_at};

use hs_base::{ByteSet, Next, NextSet, Prev};
use hs_bits::{
    clear_bits, contains_place, count_places, is_zero, member_places, next_place, with_place,
};
use hs_engine::{BlockEnds, Engine, Steps};
use std::sync::ledger::Ledger;

/// How far a block has been taken.
#[derive(Drop)]
struct Progress {
    /// How many of its bytes have been taken.
    place: usize,
    /// What stands before the next one.
    behind: Prev,
    /// Whether the region is at rest.
    rests: bool,
    /// What may come next where the expression is left here.
    left: NextSet,
    /// Where it is left so far.
    ends: BlockEnds,
}

impl Progress {
    ghost use Rattle.hs_block.specs.Progress.{IsRunTo};

    /// Takes the next byte in one step.
    #[inline(always)]
    fn take_byte<E: Engine, L: Ledger>(
        &mut self,
        engine: &E,
        region: &mut [u8],
        at: u64,
        enters: u64,
        bytes: &[u8],
        steps: &mut Steps<L>,
    )
        requires len { length region.old ≡ (E.meaning engine.now).width }
        requires well { (E.meaning engine.now).well region.old (at + self.old.place) }
        requires within { self.old.place < length bytes.now }
        requires few { length bytes.now ≤ 64 }
        requires room { at + length bytes.now ≤ 2 ^ 63 }
        requires throughout { IsEnteredThroughout (E.meaning engine.now) enters (length bytes.now) }
        requires busy { is_busy_at region.old enters self.old.place ≡ true }
        ensures place { self.new.place ≡ self.old.place + 1 }
        ensures len { length region.new ≡ (E.meaning engine.now).width }
        ensures well { (E.meaning engine.now).well region.new (at + self.new.place) }
        ensures ticks { steps.new ≡ steps.old + 1 }
        ensures runs { (first : List ℕ) (prev : Prev) (ticks : ℕ) →
            IsRunTo (E.meaning engine.now) first region.old prev at enters bytes.now self.old ticks →
            IsRunTo (E.meaning engine.now) first region.new prev at enters bytes.now self.new (ticks + 1) }
    {
        let byte = bytes[self.place];
        let here = at + self.place as u64;
        let ending = is_left_before(self.left, byte);
        self.ends.before = with_place(self.ends.before, self.place, ending);
        let enter = entering(contains_place(enters, self.place));
        engine.step(region, self.behind, here, enter, byte, steps);
        self.behind = Prev::behind(byte);
        self.rests = engine.at_rest(region);
        self.left = left_behind(engine, region, self.rests, self.behind, here + 1);
        let ended = self.left.contains(Next::Unknown);
        self.ends.behind = with_place(self.ends.behind, self.place, ended);
        self.place += 1;
    }

    /// Passes over the bytes that change nothing, up to one before which the engine is busy or to the end. Each of them
    /// counts before which the expression is entered.
    #[inline(always)]
    fn pass_over<E: Engine, L: Ledger>(
        &mut self,
        engine: &E,
        region: &mut [u8],
        enters: u64,
        bytes: &[u8],
        steps: &mut Steps<L>,
    )
        requires len { length region.old ≡ (E.meaning engine.now).width }
        requires within { self.old.place ≤ length bytes.now }
        requires few { length bytes.now ≤ 64 }
        requires throughout { IsEnteredThroughout (E.meaning engine.now) enters (length bytes.now) }
        requires rests { (E.meaning engine.now).always ≡ false → IsTrue self.old.rests ↔ AreZero region.old }
        requires quiet { IsTrue self.old.rests → IsQuiet (E.meaning engine.now) region.old }
        ensures same { region.new ≡ region.old }
        ensures on { self.old.place ≤ self.new.place }
        ensures within { self.new.place ≤ length bytes.now }
        ensures busy { self.new.place < length bytes.now → is_busy_at region.old enters self.new.place ≡ true }
        ensures well { (at : ℕ) →
            (E.meaning engine.now).well region.old (at + self.old.place) →
            (E.meaning engine.now).well region.old (at + self.new.place) }
        ensures ticks { steps.new ≡ steps.old + count_set enters self.old.place self.new.place }
        ensures runs { (first : List ℕ) (prev : Prev) (at ticks : ℕ) →
            IsRunTo (E.meaning engine.now) first region.old prev at enters bytes.now self.old ticks →
            IsRunTo (E.meaning engine.now) first region.old prev at enters bytes.now self.new
            (ticks + count_set enters self.old.place self.new.place) }
    {
        let to = asleep_until(engine, region, self.rests, enters, self.place, bytes);
        if to == self.place {
            return;
        }
        steps.tick_by(count_places(enters, self.place, to));
        self.behind = Prev::behind(bytes[to - 1]);
        self.place = to;
    }
}

/// Whether that byte may come next. Nothing and everything are told without its class.
#[inline(always)]
fn is_left_before(left: NextSet, byte: u8) -> bool
    ensures { result ≡ has_next left (class_of byte) }
{
    if left == NextSet::empty() {
        false
    } else if left == NextSet::all() {
        true
    } else {
        left.contains(Next::class_of(byte))
    }
}

/// Everything or nothing.
#[inline(always)]
fn entering(enters: bool) -> NextSet
    ensures { (next : Next) → has_next result next ≡ enters }
{
    if enters {
        NextSet::all()
    } else {
        NextSet::empty()
    }
}

/// What may come next where the expression is left here: nothing where its region is at rest.
#[inline(always)]
fn left_behind<E: Engine>(engine: &E, region: &[u8], rests: bool, behind: Prev, at: u64) -> NextSet
    requires len { length region.now ≡ (E.meaning engine.now).width }
    requires well { (E.meaning engine.now).well region.now at }
    requires quiet { IsTrue rests → IsQuiet (E.meaning engine.now) region.now }
    ensures leaves { TellsLeaves (E.meaning engine.now) region.now behind at result }
    ensures silent { IsTrue rests → (next : Next) → has_next result next ≡ false }
{
    if rests {
        NextSet::empty()
    } else {
        engine.out(region, behind, at)
    }
}

/// Whether the region is that of the empty stream, and all 0: as such it may stand at any offset. It stays as it is.
fn is_start<E: Engine>(engine: &E, region: &mut [u8]) -> bool
    requires { length region.old ≡ (E.meaning engine.now).width }
    ensures same { region.new ≡ region.old }
    ensures zero { IsTrue result → AreZero region.old }
    ensures starts { IsTrue result → IsStart (E.meaning engine.now) region.old }
    ensures well { IsTrue result → (at : ℕ) → (E.meaning engine.now).well region.old at }
    ensures whole { (E.meaning engine.now).always ≡ false → AreZero region.old → IsTrue result }
{
    if !is_zero(region) {
        return false;
    }
    engine.clear(region);
    if is_zero(region) {
        return true;
    }
    clear_bits(region);
    false
}

/// The place of the next byte of the set before which the expression is entered, or the end.
fn next_waker(wakers: &ByteSet, enters: u64, bytes: &[u8], from: usize) -> usize
    requires from { from ≤ length bytes.now }
    requires few { length bytes.now ≤ 64 }
    ensures low { from ≤ result }
    ensures high { result ≤ length bytes.now }
    ensures entered { result < length bytes.now → word_bit enters result ≡ true }
    ensures none { (i : ℕ) → from ≤ i → i < result → word_bit enters i ≡ true →
        has wakers.now (slice_index bytes.now i) ≡ false }
{
    if from == bytes.len() || is_woken(wakers, enters, bytes, from) {
        return from;
    }
    let wakes = enters & member_places(wakers, bytes);
    next_place(wakes, from, bytes.len())
}

/// Whether the byte of that place is in the set, and the expression is entered before it. Where it is, the other bytes
/// need no look.
#[inline(always)]
fn is_woken(wakers: &ByteSet, enters: u64, bytes: &[u8], place: usize) -> bool
    requires within { place < length bytes.now }
    requires few { length bytes.now ≤ 64 }
    ensures { IsTrue result → word_bit enters place ≡ true }
{
    contains_place(enters, place) && wakers.contains(bytes[place])
}

/// The place up to which the engine is asleep. From there on it is busy, if bytes are left.
fn asleep_until<E: Engine>(
    engine: &E,
    region: &mut [u8],
    rests: bool,
    enters: u64,
    place: usize,
    bytes: &[u8],
) -> usize
    requires len { length region.old ≡ (E.meaning engine.now).width }
    requires within { place ≤ length bytes.now }
    requires few { length bytes.now ≤ 64 }
    requires throughout { IsEnteredThroughout (E.meaning engine.now) enters (length bytes.now) }
    requires rests { (E.meaning engine.now).always ≡ false → IsTrue rests ↔ AreZero region.old }
    requires quiet { IsTrue rests → IsQuiet (E.meaning engine.now) region.old }
    ensures same { region.new ≡ region.old }
    ensures low { place ≤ result }
    ensures high { result ≤ length bytes.now }
    ensures rests { place < result → IsTrue rests }
    ensures asleep { place < result →
        IsAsleepOver (E.meaning engine.now) region.old enters bytes.now place result }
    ensures busy { result < length bytes.now → is_busy_at region.old enters result ≡ true }
{
    if !rests {
        return place;
    }
    let to = next_waker(engine.wakers(), enters, bytes, place);
    if to == place {
        return place;
    }
    if is_start(engine, region) { to } else { place }
}

/// Takes a block step by step; bytes before which the engine isn't busy are passed over, and so are those that wake
/// nothing in an engine at rest.
pub fn run_by_steps<E: Engine, L: Ledger>(
    engine: &E,
    region: &mut [u8],
    prev: Prev,
    at: u64,
    enters: u64,
    bytes: &[u8],
    steps: &mut Steps<L>,
) -> BlockEnds
    requires len { length region.old ≡ (E.meaning engine.now).width }
    requires well { (E.meaning engine.now).well region.old at }
    requires few { length bytes.now ≤ 64 }
    requires room { at + length bytes.now ≤ 2 ^ 63 }
    requires throughout { IsEnteredThroughout (E.meaning engine.now) enters (length bytes.now) }
    ensures len { length region.new ≡ (E.meaning engine.now).width }
    ensures well { (E.meaning engine.now).well region.new (at + length bytes.now) }
    ensures takes { TakesBlock (E.meaning engine.now) region.old region.new prev at enters bytes.now result
        steps.old steps.new }
{
    let rests = engine.at_rest(region);
    let mut progress = Progress {
        place: 0,
        behind: prev,
        rests,
        left: left_behind(engine, region, rests, prev, at),
        ends: BlockEnds {
            before: 0,
            behind: 0,
        },
    };
    progress.pass_over(engine, region, enters, bytes, steps);
    while progress.place < bytes.len() {
        progress.take_byte(engine, region, at, enters, bytes, steps);
        progress.pass_over(engine, region, enters, bytes, steps);
    }
    progress.ends
}

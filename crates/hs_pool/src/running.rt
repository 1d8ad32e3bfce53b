//! An engine over a block, by the states of a pool.

ghost use Rattle.std.specs.Prelude.{◌≡◌, ◌<◌, ◌≤◌, IfSome, length, take};
ghost use Rattle.hs_base.specs.Bits.{AreZero};
ghost use Rattle.hs_pool.specs.Running.{IsUnwokenTo, prev_to};
ghost use Rattle.hs_engine.specs.Timeless.{TakesStep};

use crate::following::{Taken, take_known};
use crate::pool::StatePool;
use crate::state::{MAX_REGION, padded};
use hs_base::Prev;
use hs_bits::{contains_place, is_zero, member_places, next_place};
use hs_engine::{BlockEnds, ByteEnds, TimelessEngine};

/// How many bytes the region of an engine has at least: one of at most 64 positions takes a block sooner by itself.
const MIN_REGION: usize = 9;

impl StatePool {
    ghost use Rattle.std.specs.Prelude.{◌≡◌, ◌<◌, ◌≤◌, false, IfSome, MatchOption, Some, length, slice_get, take};
    ghost use Rattle.hs_pool.specs.Blocks.{AreZerosIdle, TakesBlock};
    ghost use Rattle.hs_pool.specs.Pools.{IsPoolAt, KeepsOthers};
    ghost use Rattle.hs_pool.specs.Running.{AreStatesKept, IsStateFor, IsPath};
    ghost use Rattle.hs_pool.specs.declared.state.State.{State};

    /// Takes a block behind `prev` by the engine of that number, wherever its stream stands; the expression is entered
    /// before each byte whose bit is set. None where the engine has to take it by itself, and then the region is as
    /// before. No step is counted.
    pub fn run<E: TimelessEngine>(
        &mut self,
        engine: &E,
        number: usize,
        region: &mut [u8],
        prev: Prev,
        enters: u64,
        bytes: &[u8],
    ) -> Option<BlockEnds>
        requires len { length region.old ≡ (E.meaning engine.now).width }
        requires few { length bytes.now ≤ 64 }
        requires listed { (E.meaning engine.now).always ≡ false }
        requires idle { AreZerosIdle (E.meaning engine.now) }
        requires pool { IsPoolAt (E.meaning engine.now) number self.old }
        ensures pool { IsPoolAt (E.meaning engine.now) number self.new }
        ensures others { KeepsOthers E.meaning number self.old self.new }
        ensures takes { MatchOption result (region.new ≡ region.old)
            (TakesBlock (E.meaning engine.now) region.old region.new prev enters bytes.now) }
    {
        if bytes.is_empty() || region.len() < MIN_REGION || region.len() > MAX_REGION {
            return None;
        }
        let from = first_busy(engine, region, enters, bytes);
        if from == bytes.len() {
            return Some(BlockEnds::NOWHERE);
        }
        if self.rests(number) {
            return None;
        }
        let here = prev_before(prev, bytes, from);
        let Some(taken) = self.take(engine, number, region, here, from, enters, bytes) else {
            self.begin_rest(number);
            return None;
        };
        self.read(taken.state, region);
        Some(taken.ends)
    }

    /// Takes the bytes of a block from that place on; None where the engine has to.
    fn take<E: TimelessEngine>(
        &mut self,
        engine: &E,
        number: usize,
        region: &[u8],
        prev: Prev,
        from: usize,
        enters: u64,
        bytes: &[u8],
    ) -> Option<Taken>
        requires len { length region.now ≡ (E.meaning engine.now).width }
        requires small { length region.now ≤ 64 }
        requires few { length bytes.now ≤ 64 }
        requires from { from ≤ length bytes.now }
        requires pool { IsPoolAt (E.meaning engine.now) number self.old }
        ensures pool { IsPoolAt (E.meaning engine.now) number self.new }
        ensures others { KeepsOthers E.meaning number self.old self.new }
        ensures path { IfSome result (IsPath self.new number region.now prev from enters bytes.now) }
    {
        let Some(first) = self.find(number, prev, &padded(region)) else {
            return None;
        };
        if let Some(taken) = take_known(&self.rows, first, from, enters, bytes) {
            self.earn(number, taken.state);
            return Some(taken);
        }
        if !self.learn(engine, number, first, from, enters, bytes) {
            return None;
        }
        take_known(&self.rows, first, from, enters, bytes)
    }

    /// Makes the steps that aren't known of those from a state on over the bytes of a block from that place on. Answers
    /// whether they are all known then.
    #[inline(never)]
    fn learn<E: TimelessEngine>(
        &mut self,
        engine: &E,
        number: usize,
        first: usize,
        from: usize,
        enters: u64,
        bytes: &[u8],
    ) -> bool
        requires small { (E.meaning engine.now).width ≤ 64 }
        requires few { length bytes.now ≤ 64 }
        requires first { IsStateFor self.old.states.items first number }
        requires pool { IsPoolAt (E.meaning engine.now) number self.old }
        ensures pool { IsPoolAt (E.meaning engine.now) number self.new }
        ensures others { KeepsOthers E.meaning number self.old self.new }
        ensures still { AreStatesKept self.old self.new }
    {
        let mut state = first;
        for place in from..bytes.len() {
            let enters = contains_place(enters, place);
            let Some(next) = self.step(engine, number, state, enters, bytes[place]) else {
                return false;
            };
            state = next;
        }
        true
    }

    /// The state that a byte leads to; its step is made, if it isn't known.
    fn step<E: TimelessEngine>(
        &mut self,
        engine: &E,
        number: usize,
        state: usize,
        enters: bool,
        byte: u8,
    ) -> Option<usize>
        requires small { (E.meaning engine.now).width ≤ 64 }
        requires state { IsStateFor self.old.states.items state number }
        requires pool { IsPoolAt (E.meaning engine.now) number self.old }
        ensures pool { IsPoolAt (E.meaning engine.now) number self.new }
        ensures others { KeepsOthers E.meaning number self.old self.new }
        ensures still { AreStatesKept self.old self.new }
        ensures next { IfSome result (λ next. IsStateFor self.new.states.items next number) }
    {
        let next = self.next(state, enters, byte);
        if next != 0 {
            return Some(next);
        }
        self.make(engine, number, state, enters, byte)
    }

    /// Makes the step of a state by a byte, and answers the state that it leads to. None where there is no room or no
    /// credit for it, or where the engine doesn't tell it.
    fn make<E: TimelessEngine>(
        &mut self,
        engine: &E,
        number: usize,
        state: usize,
        enters: bool,
        byte: u8,
    ) -> Option<usize>
        requires small { (E.meaning engine.now).width ≤ 64 }
        requires state { IsStateFor self.old.states.items state number }
        requires pool { IsPoolAt (E.meaning engine.now) number self.old }
        ensures pool { IsPoolAt (E.meaning engine.now) number self.new }
        ensures others { KeepsOthers E.meaning number self.old self.new }
        ensures still { AreStatesKept self.old self.new }
        ensures next { IfSome result (λ next. IsStateFor self.new.states.items next number) }
    {
        if !self.spend(number) {
            return None;
        }
        let old = self.states[state];
        let mut region = old.region;
        let Some(ends) = ask(engine, &mut region, old.prev, enters, byte) else {
            return None;
        };
        let Some(next) = self.find(number, Prev::behind(byte), &region) else {
            return None;
        };
        self.write(state, enters, byte, next, ends);
        Some(next)
    }

    /// Writes the region of a state.
    fn read(&self, state: usize, region: &mut [u8])
        requires state { state < length self.now.states.items }
        requires small { length region.old ≤ 64 }
        ensures { (own : State) → slice_get self.now.states.items state ≡ Some own →
            region.new ≡ take (length region.old) own.region }
    {
        let count = region.len();
        region.copy_from_slice(&self.states[state].region[..count]);
    }
}

/// Has the engine take a byte in the region that a state has, with zeros behind it. None where it doesn't tell what the
/// byte does.
fn ask<E: TimelessEngine>(
    engine: &E,
    region: &mut [u8; MAX_REGION],
    prev: Prev,
    enters: bool,
    byte: u8,
) -> Option<ByteEnds>
    requires small { (E.meaning engine.now).width ≤ 64 }
    ensures { IfSome result (TakesStep (E.meaning engine.now) (take (E.meaning engine.now).width region.old)
        (take (E.meaning engine.now).width region.new) prev enters byte) }
{
    let size = engine.size();
    engine.take_byte(&mut region[..size], prev, enters, byte)
}

/// The first place of a block before which an engine is busy: something is live in its region, or the expression is
/// entered before a byte that may wake it. Where there is none, it is the end of the block.
fn first_busy<E: TimelessEngine>(engine: &E, region: &[u8], enters: u64, bytes: &[u8]) -> usize
    requires few { length bytes.now ≤ 64 }
    ensures within { result ≤ length bytes.now }
    ensures idle { 0 < result → AreZero region.now }
    ensures asleep { IsUnwokenTo (E.meaning engine.now) enters bytes.now result }
{
    let wakers = engine.wakers();
    if !is_zero(region) {
        return 0;
    }
    next_place(enters & member_places(wakers, bytes), 0, bytes.len())
}

/// What stands before the byte at that place of a block behind `prev`.
fn prev_before(prev: Prev, bytes: &[u8], place: usize) -> Prev
    requires { place ≤ length bytes.now }
    ensures { result ≡ prev_to prev bytes.now place }
{
    if place == 0 {
        prev
    } else {
        Prev::behind(bytes[place - 1])
    }
}

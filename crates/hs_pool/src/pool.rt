//! The states of some engines, and the tables in which they are found.

ghost use Rattle.std.specs.Prelude.{◌≡◌, ◌<◌, ◌≤◌, IfOk, length, vec_capacity};
ghost use Rattle.hs_pool.specs.Rows.{AreLeading, AreUnknown, IsSink};

use crate::credit::Credit;
use crate::state::{MAX_REGION, MAX_STATES, ROW_LEN, State, next_of, step_place, step_to};
use hs_base::Prev;
use hs_bits::hash_of;
use hs_engine::{ByteEnds, TimelessEngine};
use std::alloc::{AllocError, Global};

/// How many slots there are by which states are found.
const SLOTS_FOR_STATES: usize = 4 * MAX_STATES;

/// How many slots are looked at for a state.
const SLOTS_TRIED: usize = 8;

/// How many answers there are to what stands before a byte.
const PREV_COUNT: u64 = 4;

/// How many blocks are run between two times at which all states are forgotten for want of room.
const BLOCKS_TO_FORGET: u32 = 1 << 20;

/// A state of no engine, whose steps are never known.
const SINK: State = State {
    engine: usize::MAX,
    prev: Prev::Start,
    region: [0; MAX_REGION],
};

/// The states in which engines were met, with the steps that bytes were met to make of them. It serves one list of
/// engines, by their numbers, and takes 1 KB a state, of which there are at most 8,192.
#[derive(Debug, Drop)]
pub struct StatePool {
    /// The states. The first one is that of no engine.
    pub(crate) states: Vec<State>,
    /// The steps of each state, by byte and by whether the expression is entered before it: four times the number of
    /// the next state, and two flags, or less than four where it isn't known.
    pub(crate) rows: Vec<[u16; ROW_LEN]>,
    /// By the hash of a state its number, or 0.
    pub(crate) slots: Vec<u16>,
    /// For each engine the state behind its last block, or another one.
    pub(crate) latest: Vec<u16>,
    /// For each engine what may be spent on it.
    pub(crate) credits: Vec<Credit>,
    /// How many blocks were run since all states were forgotten.
    pub(crate) blocks: u32,
    ghost rows_len: { length rows.items ≡ length states.items },
    ghost some: { 0 < length states.items },
    ghost few: { length states.items ≤ 8192 },
    ghost leading: { AreLeading rows.items (length states.items) },
    ghost sink: { IsSink rows.items },
    ghost slots_len: { length slots.items ≡ 32768 },
    ghost states_room: { 8192 ≤ vec_capacity states },
    ghost rows_room: { 8192 ≤ vec_capacity rows },
}

impl StatePool {
    ghost use Rattle.std.specs.Prelude.{◌≡◌, ◌<◌, ℕ, Bool, true, IfOk, IfSome, length, slice_index};
    ghost use Rattle.hs_pool.specs.Pools.{IsPoolOf};
    ghost use Rattle.hs_pool.specs.Rows.{IsStateAt, next_of, step_at};
    ghost use Rattle.hs_pool.specs.Growing.{Grows, IsAlike, IsAlikeOrBlank, IsStepPut};

    /// A pool for these engines, which knows no state. The only error is want of memory.
    pub fn new<E: TimelessEngine>(alloc: Global, engines: &[E]) -> Result<StatePool, AllocError>
        ensures { IfOk result (IsPoolOf E.meaning engines.now) }
    {
        let mut states = Vec::with_capacity(alloc, MAX_STATES)?;
        states.push(SINK)?;
        Ok(StatePool {
            states,
            rows: sink_rows(alloc)?,
            slots: vec![in alloc; 0u16; SLOTS_FOR_STATES]?,
            latest: vec![in alloc; 0u16; engines.len()]?,
            credits: vec![in alloc; Credit::FIRST; engines.len()]?,
            blocks: 0,
        })
    }

    /// The number of the state of an engine with that region, and zeros, where that stands before the next byte; it may
    /// be a new one. None where there is no room for it.
    pub(crate) fn find(
        &mut self,
        engine: usize,
        prev: Prev,
        region: &[u8; MAX_REGION],
    ) -> Option<usize>
        ensures grows { Grows self.old self.new }
        ensures found { IfSome result (λ s. IsStateAt self.new.states.items s engine prev region.now) }
    {
        let latest = self.latest_of(engine);
        if self.is_state(latest, engine, prev, region) {
            return Some(latest);
        }
        let Some(slot) = self.slot_of(engine, prev, region) else {
            return None;
        };
        match self.slots[slot] {
            0 => self.add(slot, engine, prev, region),
            state => Some(state as usize),
        }
    }

    /// The slot that has the number of that state, or a free one for it. None where there is neither.
    fn slot_of(&self, engine: usize, prev: Prev, region: &[u8; MAX_REGION]) -> Option<usize>
        ensures within { IfSome result (λ slot. slot < 32768) }
        ensures found { IfSome result (λ slot. (slice_index self.now.slots.items slot ≡ 0 → ⊥) →
            IsStateAt self.now.states.items (slice_index self.now.slots.items slot) engine prev region.now) }
    {
        let seed = (engine as u64)
            .wrapping_mul(PREV_COUNT)
            .wrapping_add(prev as u64);
        let hash = hash_of(seed, region);
        for probe in 0..SLOTS_TRIED {
            let slot = slot_at(hash, probe);
            let state = self.slots[slot] as usize;
            if state == 0 || self.is_state(state, engine, prev, region) {
                return Some(slot);
            }
        }
        None
    }

    /// The state behind the engine's last block, or another one.
    fn latest_of(&self, engine: usize) -> usize {
        match self.latest.get(engine) {
            Some(state) => *state as usize,
            None => 0,
        }
    }

    /// Whether the state of that number is there, and not the first one, and is the engine's with that region.
    fn is_state(&self, state: usize, engine: usize, prev: Prev, region: &[u8; MAX_REGION]) -> bool
        ensures { result ≡ true → IsStateAt self.now.states.items state engine prev region.now }
    {
        if state == 0 {
            return false;
        }
        match self.states.get(state) {
            Some(own) => own.is(engine, prev, region),
            None => false,
        }
    }

    /// Puts a state behind the others, which is found by that slot. None where there is no room for it.
    #[inline(never)]
    fn add(
        &mut self,
        slot: usize,
        engine: usize,
        prev: Prev,
        region: &[u8; MAX_REGION],
    ) -> Option<usize>
        requires { slot < 32768 }
        ensures grows { Grows self.old self.new }
        ensures found { IfSome result (λ s. IsStateAt self.new.states.items s engine prev region.now) }
    {
        let number = self.states.len();
        if number >= MAX_STATES {
            return None;
        }
        self.states
            .push(State {
                engine,
                prev,
                region: *region,
            })
            .unwrap();
        self.rows.push([0; ROW_LEN]).unwrap();
        self.slots[slot] = number as u16;
        Some(number)
    }

    /// Forgets all states.
    fn forget(&mut self)
        ensures { (s : ℕ) (enters : Bool) (byte : ℕ) → next_of (step_at self.new.rows.items s enters byte) ≡ 0 }
    {
        self.states.truncate(1);
        self.rows.truncate(1);
        self.slots.fill(0);
        self.credits.fill(Credit::FIRST);
        self.blocks = 0;
    }

    /// Whether the engine of that number rests for a block, or is none of those that the pool serves.
    pub(crate) fn rests(&mut self, number: usize) -> bool
        ensures { IsAlike self.old self.new }
    {
        self.blocks = self.blocks.saturating_add(1);
        if number >= self.credits.len() {
            return true;
        }
        self.credits[number].rests()
    }

    /// Has the engine rest for some blocks. Where there is no room for more states, and enough blocks were run since
    /// they were forgotten last, all are.
    pub(crate) fn begin_rest(&mut self, number: usize)
        ensures { IsAlikeOrBlank self.old self.new }
    {
        if self.states.len() >= MAX_STATES && self.blocks >= BLOCKS_TO_FORGET {
            self.forget();
        } else if number < self.credits.len() {
            self.credits[number].begin_rest();
        }
    }

    /// Spends a step on the engine, if there is one left.
    pub(crate) fn spend(&mut self, number: usize) -> bool
        ensures { IsAlike self.old self.new }
    {
        number < self.credits.len() && self.credits[number].spend()
    }

    /// Gives what a block of the engine earns that took no step that wasn't met. It led to that state.
    pub(crate) fn earn(&mut self, number: usize, state: usize)
        requires { state < 8192 }
        ensures { IsAlike self.old self.new }
    {
        if number < self.credits.len() {
            self.credits[number].earn();
        }
        if number < self.latest.len() {
            self.latest[number] = state as u16;
        }
    }

    /// The state that a byte leads to: 0 where that isn't known.
    pub(crate) fn next(&self, state: usize, enters: bool, byte: u8) -> usize
        requires { state < length self.now.states.items }
        ensures { result ≡ next_of (step_at self.now.rows.items state enters byte) }
    {
        next_of(self.rows[state][step_place(enters, byte)])
    }

    /// Writes the step of a state by a byte.
    pub(crate) fn write(
        &mut self,
        state: usize,
        enters: bool,
        byte: u8,
        next: usize,
        ends: ByteEnds,
    )
        requires state { state < length self.old.states.items }
        requires some { state ≡ 0 → ⊥ }
        requires next { next < length self.old.states.items }
        ensures { IsStepPut state enters byte next ends self.old self.new }
    {
        let step = step_to(next, ends);
        self.rows[state][step_place(enters, byte)] = step;
    }
}

/// The row of a state of which no step is known, and room for those of the others. The only error is want of memory.
fn sink_rows(alloc: Global) -> Result<Vec<[u16; ROW_LEN]>, AllocError>
    ensures len { IfOk result (λ rows. length rows.items ≡ 1) }
    ensures room { IfOk result (λ rows. 8192 ≤ vec_capacity rows) }
    ensures none { IfOk result (λ rows. AreUnknown rows.items) }
{
    let mut rows = Vec::with_capacity(alloc, MAX_STATES)?;
    rows.push([0; ROW_LEN])?;
    Ok(rows)
}

/// The slot that is looked at so many places behind that of a hash.
fn slot_at(hash: usize, probe: usize) -> usize
    requires hash { hash < 32768 }
    requires probe { probe < 8 }
    ensures { result < 32768 }
{
    (hash + probe) % SLOTS_FOR_STATES
}

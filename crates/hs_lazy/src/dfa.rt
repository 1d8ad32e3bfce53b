//! One automaton over the regions of some engines.

ghost use Rattle.std.specs.Prelude.{◌≡◌, ◌+◌, ◌<◌, ◌≤◌, ℕ, true, IfSome, MatchOption};
ghost use Rattle.std.specs.Prelude.{length, slice_index, vec_capacity};
ghost use Rattle.hs_lazy.specs.Parts.{AreFewer, AreMembersApart, AreLeading, AreLive, AreOwnersLive, AreUnknownFrom};
ghost use Rattle.hs_lazy.specs.Parts.{AreOwned, AreSetsWhole};
ghost use Rattle.hs_lazy.specs.Ends.{AreSilent, IsNextEnding};
ghost use Rattle.hs_lazy.specs.Walks.{state_before};

use crate::budget::Budget;
use crate::end_table::EndTable;
use crate::parts::{EndSet, IMAGE_BYTES, MEMBER_WORDS, Member, Run, State};
use hs_base::{ByteSet, Prev};
use hs_bits::{
    WORD_BYTES, clear_words, contains_word_bit, hash_of, is_unset, put_word_bit, unite_words,
    word_at, write_word_bit,
};
use std::alloc::{AllocError, Global};

/// How many engines an automaton has at most.
pub(crate) const MAX_MEMBERS: usize = 256;

/// How many states are kept at most.
const MAX_STATES: usize = 1024;

/// How many sets of ends are kept at most.
const MAX_END_SETS: usize = 4096;

/// How many steps a state has: one by each byte.
const ROW_LEN: usize = 256;

/// Where the number of the set of ends begins in a step; below is the number of the next state and one.
pub(crate) const ENDS_UNIT: u32 = 65536;

/// How many steps are passed over at once where none of them leaves a member.
const GROUP_STEPS: usize = 16;

/// How many slots there are by which states are found.
const SLOT_COUNT: usize = 4 * MAX_STATES;

/// How many idle states are kept: one for each of what may stand before a byte.
const IDLE_STATES: usize = 4;

/// How many slots are looked at for a state.
const MAX_PROBES: usize = 8;

/// An automaton over the regions of its members, one behind the other: an image. Its states are images with what stands
/// before the next byte.
#[derive(Debug, Drop)]
pub struct LazyDfa {
    /// Its engines.
    pub members: Vec<Member>,
    /// The states that were met.
    pub states: Vec<State>,
    /// The steps of each state by each byte: 0 where it isn't known, else the number of the next state and one, and
    /// above it the number of its set of ends and one, or 0 for none.
    pub rows: Vec<u32>,
    /// The sets of members that steps leave.
    pub ends: Vec<EndSet>,
    /// By the hash of a state its number and one, or 0.
    pub slots: Vec<u16>,
    /// What may be spent on steps that aren't known yet.
    pub budget: Budget,
    /// Whether there was no room for a state.
    pub is_full: bool,
    /// The members that too many of the last bytes left: they are given up before the next chunk.
    pub noisy: [u64; MEMBER_WORDS],
    /// Of each byte of an image the member in whose region it lies.
    pub owners: Vec<u8>,
    /// By what stands before the next byte the number of a state in which nothing was live: it may not be there any
    /// more.
    pub idle: [usize; IDLE_STATES],
    ghost apart: { AreMembersApart members.items },
    ghost few: { length members.items ≤ 256 },
    ghost states_few: { length states.items ≤ 1024 },
    ghost states_room: { 1024 ≤ vec_capacity states },
    ghost rows_len: { length rows.items ≡ 262144 },
    ghost leading: { AreLeading rows.items (length states.items) },
    ghost unknown: { AreUnknownFrom rows.items (length states.items) },
    ghost live: { AreLive members.items states.items },
    ghost slots_len: { length slots.items ≡ 4096 },
    ghost ends_few: { length ends.items ≤ 4096 },
    ghost ends_room: { 4096 ≤ vec_capacity ends },
    ghost ends_whole: { AreSetsWhole ends.items },
    ghost members_room: { 256 ≤ vec_capacity members },
    ghost noisy_len: { length noisy ≡ 4 },
    ghost owners_len: { length owners.items ≡ 512 },
    ghost idle_len: { length idle ≡ 4 },
    ghost owned: { AreOwned members.items owners.items },
}

impl LazyDfa {
    ghost use Rattle.std.specs.Prelude.{◌≡◌, ◌+◌, ◌*◌, ◌<◌, ◌≤◌, ℕ, [], true, false, length};
    ghost use Rattle.std.specs.Prelude.{IfOk, IfSome, MatchOption, Some, None, slice_get, slice_index, slice_set};
    ghost use Rattle.hs_base.specs.Bits.{AreZero, has_word_bit};
    ghost use Rattle.hs_lazy.specs.Parts.{AreStillThere, AreUnknownFrom, IsIdleState, IsState, IsStepTo};
    ghost use Rattle.hs_lazy.specs.Parts.{ends_of, entry, next_of, set_of};
    ghost use Rattle.hs_lazy.specs.Walks.{IsWalk, state_before};
    ghost use Rattle.hs_lazy.specs.declared.parts.Member.{Member};
    ghost use Rattle.hs_lazy.specs.declared.parts.State.{State};
    ghost use Rattle.hs_lazy.specs.Ends.{AreTraceEnds};
    ghost use Rattle.hs_lazy.specs.Members.{IsAsleepIn, IsTakenIn};
    ghost use Rattle.hs_lazy.specs.Images.{IsSameSets, part_at};

    /// An automaton without engines. The only error is want of memory.
    pub fn new(alloc: Global) -> Result<LazyDfa, AllocError>
        ensures members { IfOk result (λ dfa. dfa.members.items ≡ []) }
        ensures states { IfOk result (λ dfa. dfa.states.items ≡ []) }
    {
        Ok(LazyDfa {
            members: Vec::with_capacity(alloc, MAX_MEMBERS)?,
            states: Vec::with_capacity(alloc, MAX_STATES)?,
            rows: vec![in alloc; 0u32; MAX_STATES * ROW_LEN]?,
            ends: Vec::with_capacity(alloc, MAX_END_SETS)?,
            slots: vec![in alloc; 0u16; SLOT_COUNT]?,
            budget: Budget::FIRST,
            is_full: false,
            noisy: [0; MEMBER_WORDS],
            owners: vec![in alloc; 0u8; IMAGE_BYTES]?,
            idle: [0; IDLE_STATES],
        })
    }

    /// Forgets all states.
    pub fn forget(&mut self)
        ensures members { self.new.members ≡ self.old.members }
        ensures states { self.new.states.items ≡ [] }
    {
        if self.states.is_empty() {
            return;
        }
        self.states.clear();
        self.ends.clear();
        self.rows.fill(0);
        self.slots.fill(0);
    }

    /// Gives up the members whose regions change most often from state to state, and forgets all states.
    pub fn shed(&mut self)
        ensures members { AreFewer self.old.members.items self.new.members.items }
        ensures states { self.new.states.items ≡ [] }
    {
        let changes = self.changes();
        let most = greatest(&changes);
        let changing = members_from(&changes, (most - most / 4).max(1));
        self.is_full = false;
        self.give_up(&changing);
    }

    /// Gives up the members that too many of the last bytes left, and forgets all states. It may spend as much as at
    /// first.
    pub fn shed_noisy(&mut self)
        ensures members { AreFewer self.old.members.items self.new.members.items }
        ensures states { self.new.states.items ≡ [] }
    {
        let noisy = self.noisy;
        self.noisy = [0; MEMBER_WORDS];
        self.budget = Budget::FIRST;
        self.give_up(&noisy);
    }

    /// Gives up those members, and forgets all states.
    fn give_up(&mut self, members: &[u64; MEMBER_WORDS])
        ensures members { AreFewer self.old.members.items self.new.members.items }
        ensures states { self.new.states.items ≡ [] }
    {
        self.forget();
        drop_members(&mut self.members, members);
    }

    /// How often the region of each member changes from state to state.
    fn changes(&self) -> [u32; MAX_MEMBERS] {
        let mut changes = [0; MAX_MEMBERS];
        for member in 0..MAX_MEMBERS {
            changes[member] = self.changes_of(member);
        }
        changes
    }

    /// How often the region of that member does.
    fn changes_of(&self, member: usize) -> u32 {
        let mut changes = 0u32;
        for state in 1..self.states.len() {
            if self.part(state, member) != self.part(state - 1, member) {
                changes = changes.saturating_add(1);
            }
        }
        changes
    }

    /// The number of the state with that image and what stands before the next byte, which may be a new one. None where
    /// there is no room for it.
    pub fn find(&mut self, image: &[u8; IMAGE_BYTES], prev: Prev) -> Option<usize>
        ensures members { self.new.members ≡ self.old.members }
        ensures rows { self.new.rows ≡ self.old.rows }
        ensures ends { self.new.ends ≡ self.old.ends }
        ensures states { AreStillThere self.old.states.items self.new.states.items }
        ensures found { IfSome result (λ s. IsState self.new.states.items s image.now prev) }
    {
        let hash = hash_of(prev as u64, &image[..self.hashed_bytes()]);
        if let Some(number) = self.known(hash, image, prev) {
            return Some(number);
        }
        self.add_state(hash, image, prev)
    }

    /// How many bytes of an image its hash is of: whole words, behind which no member has its region.
    fn hashed_bytes(&self) -> usize
        ensures { result ≤ 512 }
    {
        let end = self.end() as usize;
        (end + (WORD_BYTES - 1)) / WORD_BYTES * WORD_BYTES
    }

    /// The number of a state in which nothing is live, with what stands before the next byte; it may be a new one. None
    /// where there is no room for it.
    pub fn find_idle(&mut self, prev: Prev) -> Option<usize>
        ensures members { self.new.members ≡ self.old.members }
        ensures rows { self.new.rows ≡ self.old.rows }
        ensures ends { self.new.ends ≡ self.old.ends }
        ensures states { AreStillThere self.old.states.items self.new.states.items }
        ensures found { IfSome result (λ s. IsIdleState self.new.members.items self.new.states.items s prev) }
    {
        let near = self.idle[prev as usize];
        if self.is_idle_behind(near, prev) {
            return Some(near);
        }
        let Some(number) = self.find(&[0; IMAGE_BYTES], prev) else {
            return None;
        };
        self.idle[prev as usize] = number;
        Some(number)
    }

    /// Whether the state of that number is there, nothing is live in it, and that stands before the next byte.
    fn is_idle_behind(&self, number: usize, prev: Prev) -> bool
        ensures { result ≡ true → IsIdleState self.now.members.items self.now.states.items number prev }
    {
        match self.states.get(number) {
            Some(state) => state.prev == prev && is_unset(&state.live),
            None => false,
        }
    }

    /// The number of the state with that image and what stands before the next byte, which may well be the number that
    /// is given, or a new one. None where there is no room for it.
    pub fn find_near(
        &mut self,
        number: usize,
        image: &[u8; IMAGE_BYTES],
        prev: Prev,
    ) -> Option<usize>
        ensures members { self.new.members ≡ self.old.members }
        ensures rows { self.new.rows ≡ self.old.rows }
        ensures ends { self.new.ends ≡ self.old.ends }
        ensures states { AreStillThere self.old.states.items self.new.states.items }
        ensures found { IfSome result (λ s. IsState self.new.states.items s image.now prev) }
    {
        if self.is_state(number, image, prev) {
            return Some(number);
        }
        self.find(image, prev)
    }

    /// The number of the state with that image and what stands before the next byte, if it is found by that hash.
    fn known(&self, hash: usize, image: &[u8; IMAGE_BYTES], prev: Prev) -> Option<usize>
        requires { hash < 32768 }
        ensures { IfSome result (λ s. IsState self.now.states.items s image.now prev) }
    {
        for probe in 0..MAX_PROBES {
            let slot = self.slots[(hash + probe) % SLOT_COUNT];
            if slot == 0 {
                return None;
            }
            let number = slot as usize - 1;
            if self.is_state(number, image, prev) {
                return Some(number);
            }
        }
        None
    }

    /// Whether the state of that number is there, with that image and what stands before the next byte.
    fn is_state(&self, number: usize, image: &[u8; IMAGE_BYTES], prev: Prev) -> bool
        ensures { result ≡ true → IsState self.now.states.items number image.now prev }
    {
        match self.states.get(number) {
            Some(state) => state.prev == prev && state.image == *image,
            None => false,
        }
    }

    /// Puts a state behind the others. None where there is no room for it.
    fn add_state(&mut self, hash: usize, image: &[u8; IMAGE_BYTES], prev: Prev) -> Option<usize>
        requires { hash < 32768 }
        ensures members { self.new.members ≡ self.old.members }
        ensures rows { self.new.rows ≡ self.old.rows }
        ensures ends { self.new.ends ≡ self.old.ends }
        ensures states { AreStillThere self.old.states.items self.new.states.items }
        ensures found { IfSome result (λ s. IsState self.new.states.items s image.now prev) }
    {
        let number = self.states.len();
        if number >= MAX_STATES {
            return None;
        }
        let Some(slot) = free_slot(&self.slots, hash) else {
            return None;
        };
        let live = live_members(&self.owners, image);
        self.slots[slot] = number as u16 + 1;
        self.states
            .push(State {
                image: *image,
                prev,
                live,
            })
            .unwrap();
        Some(number)
    }

    /// The number of a set of ends, which may be a new one. None where there is no room for it.
    pub fn number_of(&mut self, set: EndSet) -> Option<u32>
        ensures members { self.new.members ≡ self.old.members }
        ensures rows { self.new.rows ≡ self.old.rows }
        ensures states { self.new.states ≡ self.old.states }
        ensures ends { AreStillThere self.old.ends.items self.new.ends.items }
        ensures within { IfSome result (λ n. n ≤ length self.new.ends.items) }
        ensures few { IfSome result (λ n. n ≤ 4096) }
        ensures same { IfSome result (λ n. IsSameSets (set_of self.new.ends.items n) set) }
    {
        if is_unset(&set.before) && is_unset(&set.behind) {
            return Some(0);
        }
        if self.ends.len() >= MAX_END_SETS {
            return None;
        }
        self.ends.push(set).unwrap();
        Some(self.ends.len() as u32)
    }

    /// Writes the step of a state by a byte.
    pub fn write_step(&mut self, state: usize, byte: u8, next: usize, ends: u32) -> u32
        requires state { state < length self.old.states.items }
        requires next { next < length self.old.states.items }
        requires ends { ends ≤ 4096 }
        ensures members { self.new.members ≡ self.old.members }
        ensures states { self.new.states ≡ self.old.states }
        ensures ends { self.new.ends ≡ self.old.ends }
        ensures rows { self.new.rows.items ≡ slice_set self.old.rows.items (256 * state + byte) result }
        ensures step { IsStepTo result next ends }
    {
        let step = ENDS_UNIT * ends + next as u32 + 1;
        self.rows[ROW_LEN * state + byte as usize] = step;
        step
    }

    /// The step of a state by a byte: 0 where it isn't known.
    pub fn step(&self, state: usize, byte: u8) -> u32
        requires { state < length self.now.states.items }
        ensures { result ≡ entry self.now.rows.items state byte }
    {
        self.rows[ROW_LEN * state + byte as usize]
    }

    /// The regions behind a step, if it leads to a state.
    pub fn image_behind(&self, step: u32) -> [u8; IMAGE_BYTES]
        ensures { (next : State) → slice_get self.now.states.items (next_of step) ≡ Some next → result ≡ next.image }
    {
        match self
            .states
            .get((step % ENDS_UNIT).saturating_sub(1) as usize)
        {
            Some(next) => next.image,
            None => [0; IMAGE_BYTES],
        }
    }

    /// Whether there is room for a region of that size more.
    pub fn has_room(&self, size: usize) -> bool
        requires { size ≤ 64 }
        ensures { result ≡ true → length self.now.members.items < 256 }
    {
        self.members.len() < MAX_MEMBERS && self.end() as usize + size <= IMAGE_BYTES
    }

    /// Where the region of the last member ends.
    fn end(&self) -> u32
        ensures within { result ≤ 512 }
        ensures end { (k : ℕ) (m : Member) → slice_get self.now.members.items k ≡ Some m → m.end ≤ result }
    {
        match self.members.last() {
            Some(member) => member.end,
            None => 0,
        }
    }

    /// Takes in an engine with a region of that size, and forgets all states. Answers its number among the members;
    /// None where there is no room for it, and then all stays.
    pub fn put(&mut self, number: u32, engine: u32, size: u32, wakers: ByteSet) -> Option<u32>
        requires { size ≤ 64 }
        ensures { MatchOption result (self.new ≡ self.old) (IsTakenIn self.old self.new number engine size wakers) }
    {
        let start = self.end();
        let member = self.members.len();
        if member >= MAX_MEMBERS || (start + size) as usize > IMAGE_BYTES {
            return None;
        }
        self.forget();
        write_owner(
            &mut self.owners,
            member as u8,
            start as usize,
            size as usize,
        );
        self.members
            .push(Member {
                number,
                engine,
                start,
                end: start + size,
                wakers,
                is_dropped: false,
            })
            .unwrap();
        Some(member as u32)
    }

    /// The members in whose regions something is live behind a chunk, or which are left in it.
    pub fn woken(&self, run: &Run) -> [u64; MEMBER_WORDS]
        ensures { (state : State) (k : ℕ) → slice_get self.now.states.items run.now.state ≡ Some state →
            has_word_bit result k ≡ false → IsAsleepIn run.now state k }
    {
        let Some(state) = self.states.get(run.state) else {
            return [0; MEMBER_WORDS];
        };
        let mut woken = state.live;
        unite_words(&mut woken, &run.ends.members);
        woken
    }

    /// Whether nothing is live in a state, or there is none.
    pub fn is_idle(&self, state: usize) -> bool
        ensures { result ≡ false → state < length self.now.states.items }
    {
        match self.states.get(state) {
            Some(state) => is_unset(&state.live),
            None => true,
        }
    }

    /// Tells where the members are left that the first steps of a trace leave.
    pub fn tell_ends(&self, trace: &[u32], count: usize, ends: &mut EndTable)
        requires few { count ≤ 512 }
        requires within { count ≤ length trace.now }
        ensures { AreTraceEnds self.now.ends.items trace.now count ends.new.rows }
    {
        ends.clear();
        let mut from = 0;
        while let Some(place) = next_ending(trace, from, count) {
            ends.insert(place, self.set_of(trace[place]));
            from = place + 1;
        }
    }

    /// Follows known steps over the bytes from that place on, up to one that isn't known.
    pub fn walk(&self, first: usize, from: usize, bytes: &[u8], trace: &mut [u32]) -> usize
        requires few { length bytes.now ≤ length trace.old }
        requires from { from ≤ length bytes.now }
        requires first { first < length self.now.states.items }
        requires walk { IsWalk self.now.rows.items first bytes.now trace.old from }
        ensures len { length trace.new ≡ length trace.old }
        ensures from { from ≤ result }
        ensures within { result ≤ length bytes.now }
        ensures walk { IsWalk self.now.rows.items first bytes.now trace.new result }
        ensures stops { result < length bytes.now → entry self.now.rows.items (state_before first trace.new result)
            (slice_index bytes.now result) ≡ 0 }
    {
        let mut state = state_at(first, trace, from);
        for place in from..bytes.len() {
            let step = self.rows[ROW_LEN * state + bytes[place] as usize];
            if step == 0 {
                return place;
            }
            trace[place] = step;
            state = (step % ENDS_UNIT) as usize - 1;
        }
        bytes.len()
    }

    /// The region of a member in a state; where either isn't there, nothing.
    pub fn part(&self, state: usize, member: usize) -> &[u8]
        ensures { result.now ≡ part_at self.now.states.items self.now.members.items state member }
    {
        let Some(state) = self.states.get(state) else {
            return &[];
        };
        let Some(member) = self.members.get(member) else {
            return &[];
        };
        &state.image[member.start as usize..member.end as usize]
    }

    /// The set of ends of a step.
    pub fn set_of(&self, step: u32) -> &EndSet
        ensures same { IsSameSets (set_of self.now.ends.items (ends_of step)) result.now }
        ensures before_len { length result.now.before ≡ 4 }
        ensures behind_len { length result.now.behind ≡ 4 }
    {
        let number = (step / ENDS_UNIT) as usize;
        if number == 0 {
            return &EndSet::NOWHERE;
        }
        match self.ends.get(number - 1) {
            Some(set) => set,
            None => &EndSet::NOWHERE,
        }
    }
}

/// The first place from that one on whose step leaves a member, among so many steps of a trace.
fn next_ending(trace: &[u32], first: usize, count: usize) -> Option<usize>
    requires few { count ≤ 512 }
    requires within { count ≤ length trace.now }
    requires first { first ≤ count }
    ensures { MatchOption result (AreSilent trace.now first count) (IsNextEnding trace.now first count) }
{
    let mut from = first;
    while from < count {
        let past = (from - from % GROUP_STEPS + GROUP_STEPS).min(count);
        if let Some(place) = ending_within(trace, from, past) {
            return Some(place);
        }
        from = past;
    }
    None
}

/// The first place of a group, or of a part of one, whose step leaves a member.
fn ending_within(trace: &[u32], first: usize, past: usize) -> Option<usize>
    requires few { past ≤ 512 }
    requires within { past ≤ length trace.now }
    requires first { first ≤ past }
    ensures { MatchOption result (AreSilent trace.now first past) (IsNextEnding trace.now first past) }
{
    if first + GROUP_STEPS == past && are_silent(trace, first) {
        return None;
    }
    for place in first..past {
        if trace[place] >= ENDS_UNIT {
            return Some(place);
        }
    }
    None
}

/// Whether no step of a group leaves a member.
fn are_silent(trace: &[u32], from: usize) -> bool
    requires few { from ≤ 512 }
    requires within { from + 16 ≤ length trace.now }
    ensures { result ≡ true → AreSilent trace.now from (from + 16) }
{
    let mut all = 0;
    for place in from..from + GROUP_STEPS {
        all |= trace[place];
    }
    all < ENDS_UNIT
}

/// The number of the state before the byte at that place.
pub fn state_at(first: usize, trace: &[u32], place: usize) -> usize
    requires { place ≤ length trace.now }
    ensures { result ≡ state_before first trace.now place }
{
    if place == 0 {
        first
    } else {
        (trace[place - 1] % ENDS_UNIT).saturating_sub(1) as usize
    }
}

/// The members in whose regions something is live, where each byte's member is told.
fn live_members(owners: &[u8], image: &[u8; IMAGE_BYTES]) -> [u64; MEMBER_WORDS]
    requires owners_len { length owners.now ≡ 512 }
    ensures live { AreOwnersLive owners.now image.now result 512 }
    ensures len { length result ≡ 4 }
    ensures image_len { length image.now ≡ 512 }
{
    let mut live = [0; MEMBER_WORDS];
    for word in 0..IMAGE_BYTES / WORD_BYTES {
        insert_owners(owners, image, WORD_BYTES * word, &mut live);
    }
    live
}

/// Takes in the members of those of eight bytes that aren't 0.
#[inline(always)]
fn insert_owners(owners: &[u8], image: &[u8], at: usize, live: &mut [u64])
    requires within { at + 8 ≤ length image.now }
    requires owners_len { length owners.now ≡ length image.now }
    requires live_len { length live.old ≡ 4 }
    requires live { AreOwnersLive owners.now image.now live.old at }
    ensures len { length live.new ≡ 4 }
    ensures live { AreOwnersLive owners.now image.now live.new (at + 8) }
{
    if word_at(image, at) == 0 {
        return;
    }
    for place in at..at + WORD_BYTES {
        put_word_bit(live, owners[place] as usize, image[place] != 0);
    }
}

/// Has the bytes of a region be a member's.
fn write_owner(owners: &mut [u8], member: u8, start: usize, size: usize)
    requires { start + size ≤ length owners.old }
    ensures len { length owners.new ≡ length owners.old }
    ensures own { (i : ℕ) → start ≤ i → i < start + size → slice_index owners.new i ≡ member }
    ensures before { (i : ℕ) → i < start → slice_index owners.new i ≡ slice_index owners.old i }
{
    owners[start..start + size].fill(member);
}

/// The greatest of the numbers.
fn greatest(numbers: &[u32; MAX_MEMBERS]) -> u32 {
    let mut most = 0;
    for number in numbers {
        most = (*number).max(most);
    }
    most
}

/// The members whose numbers are at least that.
fn members_from(numbers: &[u32; MAX_MEMBERS], least: u32) -> [u64; MEMBER_WORDS]
    ensures { length result ≡ 4 }
{
    let mut members = [0; MEMBER_WORDS];
    for k in 0..MAX_MEMBERS {
        write_word_bit(&mut members, k, numbers[k] >= least);
    }
    members
}

/// Gives up those members.
fn drop_members(members: &mut [Member], dropped: &[u64; MEMBER_WORDS])
    requires few { length members.old ≤ 256 }
    requires dropped_len { length dropped.now ≡ 4 }
    ensures len { length members.new ≡ length members.old }
    ensures fewer { AreFewer members.old members.new }
{
    for k in 0..members.len() {
        if contains_word_bit(dropped, k) {
            members[k].is_dropped = true;
        }
    }
}

/// The first free slot of a few from that one on.
fn free_slot(slots: &[u16], hash: usize) -> Option<usize>
    requires len { length slots.now ≡ 4096 }
    requires hash { hash < 32768 }
    ensures { IfSome result (λ slot. slot < 4096) }
{
    for probe in 0..MAX_PROBES {
        let slot = (hash + probe) % SLOT_COUNT;
        if slots[slot] == 0 {
            return Some(slot);
        }
    }
    None
}

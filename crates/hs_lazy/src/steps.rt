//! The steps of an automaton, which are made when a byte is first met in a state.

ghost use Rattle.std.specs.Prelude.{◌≡◌, ◌+◌, ◌<◌, ◌≤◌, ◌||◌, ℕ, true, false, IfSome, Some, length, slice_get};
ghost use Rattle.hs_base.specs.Bits.{has_word_bit};
ghost use Rattle.hs_base.specs.ByteSets.{has};
ghost use Rattle.hs_lazy.specs.Parts.{AreMembersApart, AreStillThere, AreStepsKept, IsBeside, IsStepMade};
ghost use Rattle.hs_lazy.specs.Parts.{entry, part};
ghost use Rattle.hs_lazy.specs.declared.parts.Member.{Member};
ghost use Rattle.hs_lazy.specs.Runs.{AreZerosBlank, TakesEntered};
ghost use Rattle.hs_lazy.specs.Sound.{AreMembersOf, HaveTaken, IsDfaSound, IsIdleStep, TakeEntered};
ghost use Rattle.hs_lazy.specs.declared.parts.State.{State};
ghost use Rattle.hs_lazy.specs.Walks.{IsChunkTaken, IsWalk};

use crate::dfa::{ENDS_UNIT, LazyDfa, state_at};
use crate::parts::{EndSet, IMAGE_BYTES, MEMBER_WORDS, Member, Run, State};
use hs_base::Prev;
use hs_bits::{contains_word_bit, is_unset, next_bit_in, write_word_bit};
use hs_engine::{ByteEnds, TimelessEngine};

/// A member that an eighth of the bytes of a chunk leave is dearer in an automaton than by itself.
const NOISY_PART: u32 = 8;

/// Takes a chunk behind `prev` from the image that is loaded on, if the automaton doesn't rest and doesn't give up.
pub fn run_dfa<E: TimelessEngine>(
    dfa: &mut LazyDfa,
    engines: &[E],
    run: &mut Run,
    prev: Prev,
    bytes: &[u8],
)
    requires blank { AreZerosBlank E.meaning engines.now }
    requires sound { IsDfaSound E.meaning engines.now dfa.old.members.items dfa.old.states.items dfa.old.rows.items
        dfa.old.ends.items }
    requires few { length bytes.now ≤ 512 }
    ensures sound { IsDfaSound E.meaning engines.now dfa.new.members.items dfa.new.states.items dfa.new.rows.items
        dfa.new.ends.items }
    ensures members { dfa.new.members ≡ dfa.old.members }
    ensures image { run.new.image ≡ run.old.image }
    ensures taken { run.new.is_done ≡ true → IsChunkTaken dfa.new.states.items dfa.new.rows.items dfa.new.ends.items
        run.new prev bytes.now }
{
    run.is_done = false;
    if bytes.is_empty() || dfa.budget.rests() {
        return;
    }
    run.is_done = take_chunk(dfa, engines, run, prev, bytes);
    if run.is_done {
        let is_noisy = has_many_ends(&run.trace, bytes.len());
        let in_vain = is_noisy || dfa.is_idle(run.state);
        dfa.budget.earn(in_vain, dfa.members.len());
        if dfa.budget.hear(is_noisy) {
            dfa.noisy = run.ends.often_left(bytes.len() as u32 / NOISY_PART);
        }
        return;
    }
    if dfa.budget.is_spent() {
        dfa.budget.begin_rest();
    } else {
        dfa.is_full = true;
    }
}

/// Whether a quarter of the first steps of a trace leaves a member: the engines tell so many ends sooner, a word at a
/// time.
fn has_many_ends(trace: &[u32], count: usize) -> bool
    requires within { count ≤ length trace.now }
    requires few { count ≤ 512 }
{
    let mut ending = 0u32;
    for place in 0..count {
        ending += (trace[place] >= ENDS_UNIT) as u32;
    }
    4 * ending as usize > count
}

/// Takes a chunk behind `prev` from the image that is loaded on. Answers whether it did, and didn't give up.
fn take_chunk<E: TimelessEngine>(
    dfa: &mut LazyDfa,
    engines: &[E],
    run: &mut Run,
    prev: Prev,
    bytes: &[u8],
) -> bool
    requires blank { AreZerosBlank E.meaning engines.now }
    requires sound { IsDfaSound E.meaning engines.now dfa.old.members.items dfa.old.states.items dfa.old.rows.items
        dfa.old.ends.items }
    requires few { length bytes.now ≤ 512 }
    requires some { 0 < length bytes.now }
    ensures sound { IsDfaSound E.meaning engines.now dfa.new.members.items dfa.new.states.items dfa.new.rows.items
        dfa.new.ends.items }
    ensures members { dfa.new.members ≡ dfa.old.members }
    ensures image { run.new.image ≡ run.old.image }
    ensures taken { result ≡ true → IsChunkTaken dfa.new.states.items dfa.new.rows.items dfa.new.ends.items
        run.new prev bytes.now }
{
    let Some(first) = dfa.find_near(run.state, &run.image, prev) else {
        return false;
    };
    if !follow(dfa, engines, first, bytes, &mut run.trace) {
        return false;
    }
    run.count = bytes.len();
    dfa.tell_ends(&run.trace, bytes.len(), &mut run.ends);
    run.state = state_at(first, &run.trace, bytes.len());
    true
}

/// Follows the steps over all bytes, and makes those that aren't known. Answers whether it did, and didn't give up.
fn follow<E: TimelessEngine>(
    dfa: &mut LazyDfa,
    engines: &[E],
    first: usize,
    bytes: &[u8],
    trace: &mut [u32],
) -> bool
    requires blank { AreZerosBlank E.meaning engines.now }
    requires sound { IsDfaSound E.meaning engines.now dfa.old.members.items dfa.old.states.items dfa.old.rows.items
        dfa.old.ends.items }
    requires few { length bytes.now ≤ length trace.old }
    requires first { first < length dfa.old.states.items }
    ensures sound { IsDfaSound E.meaning engines.now dfa.new.members.items dfa.new.states.items dfa.new.rows.items
        dfa.new.ends.items }
    ensures members { dfa.new.members ≡ dfa.old.members }
    ensures states { AreStillThere dfa.old.states.items dfa.new.states.items }
    ensures len { length trace.new ≡ length trace.old }
    ensures walk { result ≡ true → IsWalk dfa.new.rows.items first bytes.now trace.new (length bytes.now) }
{
    let mut place = dfa.walk(first, 0, bytes, trace);
    while place < bytes.len() {
        let state = state_at(first, trace, place);
        let Some(step) = make_step(dfa, engines, state, bytes[place]) else {
            return false;
        };
        trace[place] = step;
        place = dfa.walk(first, place + 1, bytes, trace);
    }
    true
}

/// Makes the step of a state by a byte. None where there is no room or no credit for it, or an engine doesn't tell what
/// the byte does.
#[inline(never)]
fn make_step<E: TimelessEngine>(
    dfa: &mut LazyDfa,
    engines: &[E],
    state: usize,
    byte: u8,
) -> Option<u32>
    requires blank { AreZerosBlank E.meaning engines.now }
    requires sound { IsDfaSound E.meaning engines.now dfa.old.members.items dfa.old.states.items dfa.old.rows.items
        dfa.old.ends.items }
    requires state { state < length dfa.old.states.items }
    requires unknown { entry dfa.old.rows.items state byte ≡ 0 }
    ensures sound { IsDfaSound E.meaning engines.now dfa.new.members.items dfa.new.states.items dfa.new.rows.items
        dfa.new.ends.items }
    ensures members { dfa.new.members ≡ dfa.old.members }
    ensures states { AreStillThere dfa.old.states.items dfa.new.states.items }
    ensures rows { AreStepsKept dfa.old.rows.items dfa.new.rows.items }
    ensures step { IfSome result (IsStepMade dfa.new.rows.items state byte) }
{
    let old = dfa.states[state];
    if is_unset(&old.live) {
        return make_asked_step(dfa, engines, state, byte);
    }
    let Some(idle) = idle_step(dfa, engines, old.prev, byte) else {
        return None;
    };
    make_live_step(dfa, engines, state, byte, idle)
}

/// The step by a byte where nothing is live in any member and `prev` stands before it; it is made if it isn't known.
fn idle_step<E: TimelessEngine>(
    dfa: &mut LazyDfa,
    engines: &[E],
    prev: Prev,
    byte: u8,
) -> Option<u32>
    requires blank { AreZerosBlank E.meaning engines.now }
    requires sound { IsDfaSound E.meaning engines.now dfa.old.members.items dfa.old.states.items dfa.old.rows.items
        dfa.old.ends.items }
    ensures sound { IsDfaSound E.meaning engines.now dfa.new.members.items dfa.new.states.items dfa.new.rows.items
        dfa.new.ends.items }
    ensures members { dfa.new.members ≡ dfa.old.members }
    ensures states { AreStillThere dfa.old.states.items dfa.new.states.items }
    ensures rows { AreStepsKept dfa.old.rows.items dfa.new.rows.items }
    ensures step { IfSome result (IsIdleStep E.meaning engines.now dfa.new.members.items dfa.new.states.items
        dfa.new.ends.items prev byte) }
{
    let Some(idle) = dfa.find_idle(prev) else {
        return None;
    };
    let step = dfa.step(idle, byte);
    if step != 0 {
        return Some(step);
    }
    make_asked_step(dfa, engines, idle, byte)
}

/// Makes the step of a state by a byte by all members that are asked for it.
fn make_asked_step<E: TimelessEngine>(
    dfa: &mut LazyDfa,
    engines: &[E],
    state: usize,
    byte: u8,
) -> Option<u32>
    requires blank { AreZerosBlank E.meaning engines.now }
    requires sound { IsDfaSound E.meaning engines.now dfa.old.members.items dfa.old.states.items dfa.old.rows.items
        dfa.old.ends.items }
    requires state { state < length dfa.old.states.items }
    requires unknown { entry dfa.old.rows.items state byte ≡ 0 }
    ensures sound { IsDfaSound E.meaning engines.now dfa.new.members.items dfa.new.states.items dfa.new.rows.items
        dfa.new.ends.items }
    ensures members { dfa.new.members ≡ dfa.old.members }
    ensures states { AreStillThere dfa.old.states.items dfa.new.states.items }
    ensures rows { AreStepsKept dfa.old.rows.items dfa.new.rows.items }
    ensures step { IfSome result (IsStepMade dfa.new.rows.items state byte) }
{
    let old = dfa.states[state];
    let asked = asked_members(&dfa.members, &old.live, byte);
    if !dfa.budget.spend(cost_of(&asked)) {
        return None;
    }
    let mut image = old.image;
    let mut ends = EndSet::NOWHERE;
    if !take_members(
        &dfa.members,
        engines,
        &old,
        &asked,
        &mut image,
        &mut ends,
        byte,
    ) {
        return None;
    }
    put_step(dfa, engines, state, byte, &image, ends)
}

/// Makes the step of a state by a byte by those members alone in which something is live: all others do what they do in
/// `idle`, the step by that byte where nothing is live.
fn make_live_step<E: TimelessEngine>(
    dfa: &mut LazyDfa,
    engines: &[E],
    state: usize,
    byte: u8,
    idle: u32,
) -> Option<u32>
    requires sound { IsDfaSound E.meaning engines.now dfa.old.members.items dfa.old.states.items dfa.old.rows.items
        dfa.old.ends.items }
    requires state { state < length dfa.old.states.items }
    requires idle { (old : State) → slice_get dfa.old.states.items state ≡ Some old → IsIdleStep E.meaning engines.now
        dfa.old.members.items dfa.old.states.items dfa.old.ends.items old.prev byte idle }
    ensures sound { IsDfaSound E.meaning engines.now dfa.new.members.items dfa.new.states.items dfa.new.rows.items
        dfa.new.ends.items }
    ensures members { dfa.new.members ≡ dfa.old.members }
    ensures states { AreStillThere dfa.old.states.items dfa.new.states.items }
    ensures rows { AreStepsKept dfa.old.rows.items dfa.new.rows.items }
    ensures step { IfSome result (IsStepMade dfa.new.rows.items state byte) }
{
    let step = dfa.step(state, byte);
    if step != 0 {
        return Some(step);
    }
    let old = dfa.states[state];
    if !dfa.budget.spend(cost_of(&old.live)) {
        return None;
    }
    let mut image = dfa.image_behind(idle);
    let mut ends = *dfa.set_of(idle);
    if !take_members(
        &dfa.members,
        engines,
        &old,
        &old.live,
        &mut image,
        &mut ends,
        byte,
    ) {
        return None;
    }
    put_step(dfa, engines, state, byte, &image, ends)
}

/// Writes the step of a state by a byte, behind which the regions are these and by which these members are left. None
/// where there is no room for it.
fn put_step<E: TimelessEngine>(
    dfa: &mut LazyDfa,
    engines: &[E],
    state: usize,
    byte: u8,
    image: &[u8; IMAGE_BYTES],
    ends: EndSet,
) -> Option<u32>
    requires sound { IsDfaSound E.meaning engines.now dfa.old.members.items dfa.old.states.items dfa.old.rows.items
        dfa.old.ends.items }
    requires state { state < length dfa.old.states.items }
    requires unknown { entry dfa.old.rows.items state byte ≡ 0 }
    requires takes { (old : State) → slice_get dfa.old.states.items state ≡ Some old → TakeEntered E.meaning engines.now
        dfa.old.members.items old image.now byte (has_word_bit ends.before) (has_word_bit ends.behind) }
    ensures sound { IsDfaSound E.meaning engines.now dfa.new.members.items dfa.new.states.items dfa.new.rows.items
        dfa.new.ends.items }
    ensures members { dfa.new.members ≡ dfa.old.members }
    ensures states { AreStillThere dfa.old.states.items dfa.new.states.items }
    ensures rows { AreStepsKept dfa.old.rows.items dfa.new.rows.items }
    ensures step { IfSome result (IsStepMade dfa.new.rows.items state byte) }
{
    let _ = engines.len();
    let Some(next) = dfa.find(image, Prev::behind(byte)) else {
        return None;
    };
    let Some(number) = dfa.number_of(ends) else {
        return None;
    };
    Some(dfa.write_step(state, byte, next, number))
}

/// The members that are asked for a byte: those in which something is live, and those that it may wake.
fn asked_members(members: &[Member], live: &[u64; MEMBER_WORDS], byte: u8) -> [u64; MEMBER_WORDS]
    requires few { length members.now ≤ 256 }
    requires live_len { length live.now ≡ 4 }
    ensures len { length result ≡ 4 }
    ensures bits { (k : ℕ) (m : Member) → slice_get members.now k ≡ Some m → m.is_dropped ≡ false →
        has_word_bit result k ≡ (has_word_bit live.now k || has m.wakers byte) }
{
    let mut asked = *live;
    for k in 0..members.len() {
        let is_waking = members[k].wakers.contains(byte) & !members[k].is_dropped;
        let is_asked = contains_word_bit(live, k) | is_waking;
        write_word_bit(&mut asked, k, is_asked);
    }
    asked
}

/// What a step costs: one, and as many as engines are asked for the byte.
fn cost_of(asked: &[u64; MEMBER_WORDS]) -> u32
    requires len { length asked.now ≡ 4 }
    ensures { (0 < result) × (result ≤ 257) }
{
    let mut cost = 1;
    for word in 0..MEMBER_WORDS {
        cost += asked[word].count_ones();
    }
    cost
}

/// Takes a byte in the regions of those members that are asked for it, from those of a state on; the others have taken
/// it. Answers whether each engine told what the byte does.
fn take_members<E: TimelessEngine>(
    members: &[Member],
    engines: &[E],
    old: &State,
    asked: &[u64; MEMBER_WORDS],
    image: &mut [u8],
    ends: &mut EndSet,
    byte: u8,
) -> bool
    requires of { AreMembersOf E.meaning engines.now members.now }
    requires apart { AreMembersApart members.now }
    requires few { length members.now ≤ 256 }
    requires asked_len { length asked.now ≡ 4 }
    requires before_len { length ends.old.before ≡ 4 }
    requires behind_len { length ends.old.behind ≡ 4 }
    requires old_len { length old.now.image ≡ 512 }
    requires len { length image.old ≡ 512 }
    requires others { HaveTaken E.meaning engines.now members.now old.now image.old byte asked.now ends.old }
    ensures len { length image.new ≡ length image.old }
    ensures takes { result ≡ true → TakeEntered E.meaning engines.now members.now old.now image.new byte
        (has_word_bit ends.new.before) (has_word_bit ends.new.behind) }
{
    let mut from = 0;
    while let Some(k) = next_bit_in(asked, from, members.len()) {
        let member = members[k];
        let engine = &engines[member.engine as usize];
        let Some(own) = take_member(engine, member, old, image, byte) else {
            return false;
        };
        write_word_bit(&mut ends.before, k, own.before);
        write_word_bit(&mut ends.behind, k, own.behind);
        from = k + 1;
    }
    true
}

/// Takes a byte in the region of a member, from what it is in a state on.
fn take_member<E: TimelessEngine>(
    engine: &E,
    member: Member,
    old: &State,
    image: &mut [u8],
    byte: u8,
) -> Option<ByteEnds>
    requires within { member.end ≤ length image.old }
    requires old_within { member.end ≤ length old.now.image }
    requires sized { member.start + (E.meaning engine.now).width ≡ member.end }
    ensures len { length image.new ≡ length image.old }
    ensures others { (other : Member) → IsBeside member other → part image.new other ≡ part image.old other }
    ensures takes { IfSome result (λ own. TakesEntered (E.meaning engine.now) (part old.now.image member)
        (part image.new member) old.now.prev byte own) }
{
    let region = &mut image[member.start as usize..member.end as usize];
    region.copy_from_slice(&old.image[member.start as usize..member.end as usize]);
    engine.take_byte(region, old.prev, true, byte)
}

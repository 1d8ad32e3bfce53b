//! The states of an expression as sets of positions, in the form of the fields of an engine.

ghost use Rattle.std.specs.Prelude.{◌≡◌, ◌↔◌, ℕ, ◌*◌, ◌/◌, ◌+◌, ◌<◌, ◌≤◌, None, IfOk, IfSome, IsTrue, length, vec_len};

use crate::byte_classes::ByteClasses;
use crate::footing::{Footing, WIDTH, kept_prev};
use crate::subsets::Subsets;
use hs_base::Prev;
use hs_bits::{BYTE_BITS, WORD_BITS, store};
use hs_engine::Automaton;
use std::alloc::{AllocError, Global};

/// The bytes of a set of as many positions as there may be.
const MAX_SET_LEN: usize = WIDTH * WORD_BITS / BYTE_BITS;

/// The states of an expression that is entered before every byte, at most 255, by their numbers: of each the set of its
/// live positions, in the form of a region's field (position `k` is bit `k % 8` of byte `k / 8`), and what stands
/// before. It takes for each state a bit for each position, and a byte.
#[derive(Debug, Drop)]
pub struct StateSets {
    /// How many bytes a set has.
    width: usize,
    /// The sets of the states, one behind the other.
    sets: Vec<u8>,
    /// What stands before in each state.
    prevs: Vec<Prev>,
    /// Whether states keep what stands before.
    has_assertion: bool,
    ghost some: { 0 < vec_len prevs },
    ghost few: { vec_len prevs ≤ 255 },
    ghost narrow: { width ≤ 64 },
    ghost whole: { vec_len sets ≡ width * vec_len prevs },
}

impl StateSets {
    ghost use Rattle.hs_base.specs.Trees.{Tree};
    ghost use Rattle.hs_base.specs.AssertionTests.{has_assertion};
    ghost use Rattle.hs_engine.specs.Tables.{Runs};
    ghost use Rattle.hs_states.specs.StateCounts.{HasMoreStates};
    ghost use Rattle.hs_states.specs.PackedSets.{ArePrevsTo, AreSetsTo};
    ghost use Rattle.hs_states.specs.StateSets.{AreSetsOf, IsNumberOfSet};
    ghost use Rattle.hs_states.specs.StateSets.{prev_of, set_bytes, set_width, state_count};

    /// The states of an automaton; None exactly where there are more than 255.
    pub fn build(alloc: Global, automaton: &Automaton) -> Result<Option<StateSets>, AllocError>
        ensures some { IfOk result (λ found. IfSome found (λ sets. (tree : Tree) →
            Runs automaton.now tree →
            automaton.now.has_assertion ≡ has_assertion tree →
            AreSetsOf sets tree)) }
        ensures none { IfOk result (λ found. found ≡ None → (tree : Tree) →
            Runs automaton.now tree → automaton.now.has_assertion ≡ has_assertion tree → HasMoreStates tree) }
    {
        let classes = ByteClasses::build(alloc, automaton)?;
        let Some(subsets) = Subsets::build(alloc, automaton, &classes)? else {
            return Ok(None);
        };
        Ok(Some(StateSets::of_states(alloc, automaton, &subsets.known)?))
    }

    /// The sets of states of an automaton.
    fn of_states(
        alloc: Global,
        automaton: &Automaton,
        states: &[Footing],
    ) -> Result<StateSets, AllocError>
        requires some { 0 < length states.now }
        requires few { length states.now ≤ 255 }
        ensures assertion { IfOk result (λ made. made.has_assertion ≡ automaton.now.has_assertion) }
        ensures width { IfOk result (λ made. made.width ≡ (vec_len automaton.now.sets + 7) / 8) }
        ensures sets { IfOk result (λ made. AreSetsTo made.width states.now (length states.now) made.sets.items) }
        ensures prevs { IfOk result (λ made. ArePrevsTo states.now (length states.now) made.prevs.items) }
    {
        let width = automaton.size().div_ceil(BYTE_BITS);
        Ok(StateSets {
            width,
            sets: sets_of(alloc, states, width)?,
            prevs: prevs_of(alloc, states)?,
            has_assertion: automaton.has_assertion(),
        })
    }

    /// How many states there are.
    pub fn count(&self) -> usize
        ensures count { result ≡ state_count self.now }
        ensures some { 0 < result }
        ensures few { result ≤ 255 }
    {
        self.prevs.len()
    }

    /// How many bytes a set has.
    pub fn width(&self) -> usize
        ensures width { result ≡ set_width self.now }
        ensures narrow { result ≤ 64 }
    {
        self.width
    }

    /// The set of the state of that number.
    #[inline]
    pub fn set(&self, number: u8) -> &[u8]
        requires { number < state_count self.now }
        ensures set { result.now ≡ set_bytes self.now number }
        ensures len { length result.now ≡ set_width self.now }
    {
        let start = self.width * number as usize;
        &self.sets[start..start + self.width]
    }

    /// The number of the state with that set, where this stands before; None exactly where there is none. It looks
    /// through the states one by one.
    pub fn number_of(&self, set: &[u8], prev: Prev) -> Option<u8>
        requires { length set.now ≡ set_width self.now }
        ensures { IsNumberOfSet self.now set.now prev result }
    {
        let kept = kept_prev(self.has_assertion, prev);
        for number in 0..self.prevs.len() {
            if self.is_at(number as u8, set, kept) {
                return Some(number as u8);
            }
        }
        None
    }

    /// The same, where the state of one number is asked first: if that is the one, the others aren't looked at.
    pub fn number_near(&self, guess: u8, set: &[u8], prev: Prev) -> Option<u8>
        requires { length set.now ≡ set_width self.now }
        ensures { IsNumberOfSet self.now set.now prev result }
    {
        let is_known = (guess as usize) < self.prevs.len();
        if is_known && self.is_at(guess, set, kept_prev(self.has_assertion, prev)) {
            return Some(guess);
        }
        self.number_of(set, prev)
    }

    /// Whether the state of that number has that set, and this stands before.
    fn is_at(&self, number: u8, set: &[u8], kept: Prev) -> bool
        requires { number < state_count self.now }
        ensures { IsTrue result ↔ ((set_bytes self.now number ≡ set.now) × (prev_of self.now number ≡ kept)) }
    {
        self.prevs[number as usize] == kept && *self.set(number) == *set
    }
}

ghost use Rattle.hs_states.specs.PackedSets.{ArePrevsTo, AreSetsTo, IsSetPushed};

/// The sets of states, one behind the other.
fn sets_of(alloc: Global, states: &[Footing], width: usize) -> Result<Vec<u8>, AllocError>
    requires narrow { width ≤ 64 }
    requires few { length states.now ≤ 255 }
    ensures { IfOk result (λ sets. AreSetsTo width states.now (length states.now) sets.items) }
{
    let mut sets = Vec::new(alloc);
    for number in 0..states.len() {
        push_set(&mut sets, &states[number].positions, width)?;
    }
    Ok(sets)
}

/// Puts a set behind the others.
fn push_set(sets: &mut Vec<u8>, positions: &[u64; WIDTH], width: usize) -> Result<(), AllocError>
    requires { width ≤ 64 }
    ensures { IfOk result (λ _. IsSetPushed width positions.now sets.old.items sets.new.items) }
{
    let mut bytes = [0; MAX_SET_LEN];
    store(positions, &mut bytes);
    sets.extend_from_slice(&bytes[..width])?;
    Ok(())
}

/// What stands before in each of the states.
fn prevs_of(alloc: Global, states: &[Footing]) -> Result<Vec<Prev>, AllocError>
    ensures { IfOk result (λ prevs. ArePrevsTo states.now (length states.now) prevs.items) }
{
    let mut prevs = Vec::new(alloc);
    for number in 0..states.len() {
        prevs.push(states[number].prev)?;
    }
    Ok(prevs)
}

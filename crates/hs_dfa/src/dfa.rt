//! The engine whose region is the number of a state.

ghost use Rattle.std.specs.Prelude.{◌≡◌, ◌↔◌, ℕ, ◌+◌, ◌*◌, ◌<◌, ◌≤◌, false, None, IfOk, IfSome, IsTrue, length};
ghost use Rattle.std.specs.Prelude.{EachIndex, Some, slice_get, slice_index, vec_len};
ghost use Rattle.hs_base.specs.ByteSets.{has};
ghost use Rattle.hs_base.specs.Contexts.{class_of};
ghost use Rattle.hs_base.specs.ContextSets.{has_next};
ghost use Rattle.hs_base.specs.declared.context.Next.{Next};
ghost use Rattle.hs_engine.specs.Automata.{in_set};

use crate::state_ends::{StateEnd, ends_of};
use hs_base::{ByteSet, Next, NextSet, Prev};
use hs_bits::{member_places, next_place, with_place};
use hs_block::{BlockEngine, run_by_steps};
use hs_engine::{Automaton, BlockEnds, Engine, Steps};
use hs_states::{ByteClasses, CLASSED_BYTES, Subsets};
use std::alloc::{AllocError, Global};
use std::sync::ledger::Ledger;

/// How many bytes in a row keep a state before the next one that doesn't is looked for by lanes.
const LONG_STAY: usize = 8;

/// Runs an expression that is entered before every byte, by its states: a step is two reads of tables, and over a block
/// two more tell for each byte where the expression is left. It takes 256 bytes for the classes of bytes, a byte for
/// each state and class, and 34 bytes for each state.
#[derive(Debug, Drop)]
pub struct Dfa {
    /// The class of each byte.
    classes: [u8; CLASSED_BYTES],
    /// How many classes there are.
    class_count: usize,
    /// For each state a row of the numbers of the states to which the bytes lead, one for each class.
    rows: Vec<u8>,
    /// What each state says of the end of a match.
    ends: Vec<StateEnd>,
    /// The bytes that lead from the first state to another.
    wakers: ByteSet,
    /// For each state the bytes that lead from it to another.
    leaving: Vec<ByteSet>,
    /// Whether states keep what stands before.
    has_assertion: bool,
    ghost some: { 0 < vec_len ends },
    ghost few: { vec_len ends ≤ 255 },
    ghost few_classes: { class_count ≤ 256 },
    ghost whole: { vec_len rows ≡ vec_len ends * class_count },
    ghost class_within: { (b : ℕ) → b < 256 → slice_index classes b < class_count },
    ghost row_within: { EachIndex rows.items (λ k. slice_index rows.items k < vec_len ends) },
    ghost leaving_all: { vec_len leaving ≡ vec_len ends },
    ghost leaving_are: { (n b : ℕ) → n < vec_len ends → b < 256 → in_set (slice_get leaving.items n) b ≡ false →
        slice_index rows.items (n * class_count + slice_index classes b) ≡ n },
    ghost wakers_are: { (b : ℕ) → b < 256 → has wakers b ≡ false → slice_index rows.items (slice_index classes b) ≡ 0 },
}

impl Dfa {
    ghost use Rattle.hs_base.specs.Trees.{Tree};
    ghost use Rattle.hs_engine.specs.Tables.{Runs};
    ghost use Rattle.hs_base.specs.AssertionTests.{has_assertion};
    ghost use Rattle.hs_states.specs.AutomatonStates.{AreClassesTo};
    ghost use Rattle.hs_states.specs.StateCounts.{HasMoreStates};
    ghost use Rattle.hs_dfa.specs.DfaClauses.{IsEmptyAt};
    ghost use Rattle.hs_dfa.specs.DfaEngines.{IsNumberIn, meaning_of_dfa, next_number};
    ghost use Rattle.hs_states.specs.Subsets.{AllBuilt};

    /// The engine of an automaton; None exactly where it has more than 255 states.
    pub fn build(alloc: Global, automaton: &Automaton) -> Result<Option<Dfa>, AllocError>
        ensures some { IfOk result (λ found. IfSome found (λ dfa. (tree : Tree) →
            Runs automaton.now tree →
            automaton.now.has_assertion ≡ has_assertion tree →
            (meaning_of_dfa dfa).is_for tree)) }
        ensures few { IfOk result (λ found. IfSome found (λ dfa. vec_len dfa.ends ≤ 255)) }
        ensures none { IfOk result (λ found. found ≡ None → (tree : Tree) →
            Runs automaton.now tree → automaton.now.has_assertion ≡ has_assertion tree → HasMoreStates tree) }
    {
        let classes = ByteClasses::build(alloc, automaton)?;
        let Some(subsets) = Subsets::build(alloc, automaton, &classes)? else {
            return Ok(None);
        };
        Ok(Some(Dfa::of_tables(alloc, automaton, classes, subsets)?))
    }

    /// The engine of states that are built.
    fn of_tables(
        alloc: Global,
        automaton: &Automaton,
        classes: ByteClasses,
        subsets: Subsets,
    ) -> Result<Dfa, AllocError>
        requires classes { AreClassesTo automaton.now classes.classes classes.firsts.items classes.footings.items 256 }
        requires built { AllBuilt automaton.now classes subsets.known.items subsets.rows.items }
        ensures { IfOk result (λ dfa. (tree : Tree) →
            Runs automaton.now tree →
            automaton.now.has_assertion ≡ has_assertion tree →
            (meaning_of_dfa dfa).is_for tree) }
    {
        let ends = ends_of(alloc, automaton, &subsets.known)?;
        let wakers = wakers_of(&classes.classes, &subsets.rows);
        let count = classes.footings.len();
        let leaving = leaving_of(alloc, &classes.classes, count, &subsets.rows, ends.len())?;
        Ok(Dfa {
            classes: classes.classes,
            class_count: count,
            rows: subsets.rows,
            ends,
            wakers,
            leaving,
            has_assertion: automaton.has_assertion(),
        })
    }

    /// How many states there are.
    pub fn state_count(&self) -> usize
        ensures { result ≡ vec_len self.now.ends }
    {
        self.ends.len()
    }

    /// The number of the state to which the byte leads.
    #[inline(always)]
    fn next(&self, number: u8, byte: u8) -> u8
        requires { number < vec_len self.now.ends }
        ensures next { result ≡ next_number self.now number byte }
        ensures few { result < vec_len self.now.ends }
    {
        let class = self.classes[byte as usize] as usize;
        self.rows[number as usize * self.class_count + class]
    }

    /// Whether a live position of the state accepts before the byte. Where none accepts, the byte's class isn't asked.
    #[inline(always)]
    fn is_left_before(&self, number: u8, byte: u8) -> bool
        requires { number < vec_len self.now.ends }
        ensures { (end : StateEnd) →
            slice_get self.now.ends.items number ≡ Some end →
            result ≡ has_next end.accepts (class_of byte) }
    {
        let accepts = self.ends[number as usize].accepts;
        accepts != NextSet::empty() && accepts.contains(Next::class_of(byte))
    }

    /// The place of the next byte from that one on that leads to another state, or the end, where so many bytes in a
    /// row have kept the state and it tells no end. Elsewhere that place itself.
    #[inline(always)]
    fn next_in(&self, number: u8, kept: usize, bytes: &[u8], place: usize) -> usize
        requires number { number < vec_len self.now.ends }
        requires place { place ≤ length bytes.now }
        requires few { length bytes.now ≤ 64 }
        ensures low { place ≤ result }
        ensures high { result ≤ length bytes.now }
        ensures silent { (end : StateEnd) → slice_get self.now.ends.items number ≡ Some end → place < result →
            (next : Next) → has_next end.accepts next ≡ false }
        ensures stays { (i : ℕ) → place ≤ i → i < result →
            next_number self.now number (slice_index bytes.now i) ≡ number }
    {
        if kept < LONG_STAY || self.ends[number as usize].accepts != NextSet::empty() {
            return place;
        }
        self.stay(number, bytes, place)
    }

    /// The place of the next byte from that one on that leads to another state, or the end.
    #[inline(never)]
    fn stay(&self, number: u8, bytes: &[u8], place: usize) -> usize
        requires number { number < vec_len self.now.ends }
        requires place { place ≤ length bytes.now }
        requires few { length bytes.now ≤ 64 }
        ensures low { place ≤ result }
        ensures high { result ≤ length bytes.now }
        ensures stays { (i : ℕ) → place ≤ i → i < result →
            next_number self.now number (slice_index bytes.now i) ≡ number }
    {
        let leaving = member_places(&self.leaving[number as usize], bytes);
        next_place(leaving, place, bytes.len())
    }

    /// Whether no position is live in the state of the region.
    pub fn is_empty_at(&self, region: &[u8]) -> bool
        requires len { length region.now ≡ 1 }
        requires well { IsNumberIn self.now region.now }
        ensures { IsEmptyAt self.now region.now result }
    {
        self.ends[region[0] as usize].is_empty
    }
}

/// The bytes whose class doesn't lead back to the first state.
fn wakers_of(classes: &[u8; CLASSED_BYTES], rows: &[u8]) -> ByteSet
    requires { (b : ℕ) → b < 256 → slice_index classes.now b < length rows.now }
    ensures { (b : ℕ) → b < 256 → has result b ≡ false → slice_index rows.now (slice_index classes.now b) ≡ 0 }
{
    let mut wakers = ByteSet::EMPTY;
    for byte in 0..CLASSED_BYTES {
        if rows[classes[byte] as usize] != 0 {
            wakers.insert(byte as u8);
        }
    }
    wakers
}

/// For each of so many states the bytes whose class leads from it to another.
fn leaving_of(
    alloc: Global,
    classes: &[u8; CLASSED_BYTES],
    class_count: usize,
    rows: &[u8],
    states: usize,
) -> Result<Vec<ByteSet>, AllocError>
    requires few { states ≤ 255 }
    requires few_classes { class_count ≤ 256 }
    requires rows { (n b : ℕ) → n < states → b < 256 →
        n * class_count + slice_index classes.now b < length rows.now }
    ensures count { IfOk result (λ all. vec_len all ≡ states) }
    ensures each { IfOk result (λ all. (n b : ℕ) → n < states → b < 256 →
        in_set (slice_get all.items n) b ≡ false →
        slice_index rows.now (n * class_count + slice_index classes.now b) ≡ n) }
{
    let mut all = Vec::new(alloc);
    for number in 0..states {
        all.push(leaving_from(classes, class_count, rows, number))?;
    }
    Ok(all)
}

/// The bytes whose class leads from the state of that number to another.
fn leaving_from(
    classes: &[u8; CLASSED_BYTES],
    class_count: usize,
    rows: &[u8],
    number: usize,
) -> ByteSet
    requires few { number < 255 }
    requires few_classes { class_count ≤ 256 }
    requires row { (b : ℕ) → b < 256 → number * class_count + slice_index classes.now b < length rows.now }
    ensures { (b : ℕ) → b < 256 → has result b ≡ false →
        slice_index rows.now (number * class_count + slice_index classes.now b) ≡ number }
{
    let mut leaving = ByteSet::EMPTY;
    for byte in 0..CLASSED_BYTES {
        let class = classes[byte] as usize;
        if rows[number * class_count + class] as usize != number {
            leaving.insert(byte as u8);
        }
    }
    leaving
}

/// How many bytes in a row have kept the state, as far as that counts.
#[inline(always)]
fn count_kept(kept: usize, keeps: bool) -> usize
    requires { kept ≤ 8 }
    ensures { result ≤ 8 }
{
    if keeps { (kept + 1).min(LONG_STAY) } else { 0 }
}

impl Engine for Dfa {
    ghost use Rattle.hs_dfa.specs.DfaEngines.{meaning_of_dfa};

    ghost meaning = { λ e. meaning_of_dfa e };

    fn size(&self) -> usize {
        1
    }

    fn clear(&self, region: &mut [u8]) {
        region[0] = 0;
    }

    #[inline(always)]
    fn step<L: Ledger>(
        &self,
        region: &mut [u8],
        _prev: Prev,
        _at: u64,
        _enter: NextSet,
        byte: u8,
        steps: &mut Steps<L>,
    ) {
        steps.tick();
        region[0] = self.next(region[0], byte);
    }

    fn out(&self, region: &[u8], _prev: Prev, _at: u64) -> NextSet {
        self.ends[region[0] as usize].accepts
    }

    fn at_rest(&self, region: &[u8]) -> bool {
        let number = region[0] as usize;
        number < self.ends.len() && self.is_empty_at(region)
    }

    fn wakers(&self) -> &ByteSet {
        &self.wakers
    }

    fn well_formed(&self, region: &[u8], _at: u64) -> bool {
        (region[0] as usize) < self.ends.len()
    }
}

impl BlockEngine for Dfa {
    fn run<L: Ledger>(
        &self,
        region: &mut [u8],
        prev: Prev,
        at: u64,
        enters: u64,
        bytes: &[u8],
        steps: &mut Steps<L>,
    ) -> BlockEnds {
        // By steps the bytes are passed over that lead from the first state to itself.
        if region[0] == 0 {
            return run_by_steps(self, region, prev, at, enters, bytes, steps);
        }
        let mut number = region[0];
        let mut ends = BlockEnds {
            before: 0,
            behind: 0,
        };
        let mut place = 0;
        let mut kept = 0;
        while place < bytes.len() {
            let byte = bytes[place];
            let ending = self.is_left_before(number, byte);
            ends.before = with_place(ends.before, place, ending);
            let next = self.next(number, byte);
            let ended = self.ends[next as usize].accepts.contains(Next::Unknown);
            ends.behind = with_place(ends.behind, place, ended);
            kept = count_kept(kept, next == number);
            number = next;
            place = self.next_in(number, kept, bytes, place + 1);
        }
        region[0] = number;
        steps.tick_by(bytes.len() as u64);
        ends
    }
}

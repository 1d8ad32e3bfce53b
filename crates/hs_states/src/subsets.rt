//! The subset construction: the states of an automaton in the order in which they are discovered.

ghost use Rattle.std.specs.Prelude.{◌≡◌, ◌+◌, ◌*◌, ◌<◌, ◌≤◌, true, false, IfOk, IfSome, length, vec_len, slice_index};
ghost use Rattle.std.specs.Prelude.{Some, slice_get};

use crate::byte_classes::ByteClasses;
use crate::footing::{Footing, WIDTH, kept_prev, number_among};
use crate::leads::Leads;
use hs_base::Prev;
use hs_engine::Automaton;
use std::alloc::{AllocError, Global};

/// How many states there may be, so that a byte holds the number of one.
pub(crate) const MAX_STATES: usize = 255;

/// How many numbers of states are kept to be tried first: about two for each state that there may be.
const HINT_COUNT: usize = 512;
/// How far the highest bits of a word lie that number these.
const HINT_SHIFT: u32 = 55;
/// An odd number that spreads the bits of a word to its highest ones.
const SPREAD: u64 = 0x9e37_79b9_7f4a_7c15;

/// The states so far, and where bytes lead from them.
#[derive(Debug, Drop)]
pub struct Subsets {
    /// The states, in the order in which they are discovered.
    pub known: Vec<Footing>,
    /// For each state that was taken a row of the numbers of states, one for each class of bytes.
    pub rows: Vec<u8>,
    /// For the places of bits the number of a state that may have them: a guess, which is tried before it is used.
    hints: [u8; HINT_COUNT],
}

impl Subsets {
    ghost use Rattle.hs_states.specs.AutomatonStates.{AreBuilt, AreClassesTo, HasTooManyStates};
    ghost use Rattle.hs_states.specs.Leading.{AreLeads};
    ghost use Rattle.hs_states.specs.Subsets.{AllBuilt, BuildsOn, IsEntered};

    /// The states of an automaton; None exactly where there are more than 255.
    pub fn build(
        alloc: Global,
        automaton: &Automaton,
        classes: &ByteClasses,
    ) -> Result<Option<Subsets>, AllocError>
        requires { AreClassesTo automaton.now classes.now.classes classes.now.firsts.items
            classes.now.footings.items 256 }
        ensures some { IfOk result (λ found. IfSome found (λ built.
            AllBuilt automaton.now classes.now built.known.items built.rows.items)) }
        ensures none { IfOk result (λ found. found ≡ None → HasTooManyStates automaton.now) }
    {
        let mut built = Subsets::first(alloc, automaton)?;
        let mut state = 0;
        while state < built.known.len() {
            if !built.take_state(automaton, classes, state)? {
                return Ok(None);
            }
            state += 1;
        }
        Ok(Some(built))
    }

    /// The first state alone.
    fn first(alloc: Global, automaton: &Automaton) -> Result<Subsets, AllocError>
        ensures { IfOk result (λ built. (classes : ByteClasses) →
            AreBuilt automaton.now (slice_index classes.classes) (vec_len classes.footings) built.known.items
            built.rows.items 0 0) }
    {
        let mut known = Vec::new(alloc);
        known.push(Footing::empty(kept_prev(automaton.has_assertion(), Prev::Start)))?;
        Ok(Subsets {
            known,
            rows: Vec::new(alloc),
            hints: [0; HINT_COUNT],
        })
    }

    /// Makes the row of a state; false where there are too many states.
    fn take_state(
        &mut self,
        automaton: &Automaton,
        classes: &ByteClasses,
        state: usize,
    ) -> Result<bool, AllocError>
        requires classes { AreClassesTo automaton.now classes.now.classes classes.now.firsts.items
            classes.now.footings.items 256 }
        requires state { state < vec_len self.old.known }
        requires built { AreBuilt automaton.now (slice_index classes.now.classes) (vec_len classes.now.footings)
            self.old.known.items self.old.rows.items state 0 }
        ensures few { IfOk result (λ _. vec_len self.old.known ≤ vec_len self.new.known) }
        ensures built { IfOk result (λ fits.
            BuildsOn automaton.now classes.now self.new.known.items self.new.rows.items (state + 1) 0 fits) }
    {
        let leads = Leads::of(automaton, self.known[state]);
        for class in 0..classes.footings.len() {
            if !self.take_class(automaton, classes, &leads, state, class)? {
                return Ok(false);
            }
        }
        Ok(true)
    }

    /// Adds to the row of a state the number of the one to which the bytes of a class lead; false where there are too
    /// many states.
    fn take_class(
        &mut self,
        automaton: &Automaton,
        classes: &ByteClasses,
        leads: &Leads,
        state: usize,
        class: usize,
    ) -> Result<bool, AllocError>
        requires classes { AreClassesTo automaton.now classes.now.classes classes.now.firsts.items
            classes.now.footings.items 256 }
        requires state { slice_get self.old.known.items state ≡ Some leads.now.from }
        requires leads { AreLeads automaton.now leads.now }
        requires class { class < vec_len classes.now.footings }
        requires built { AreBuilt automaton.now (slice_index classes.now.classes) (vec_len classes.now.footings)
            self.old.known.items self.old.rows.items state class }
        ensures kept { IfOk result (λ _. slice_get self.new.known.items state ≡ Some leads.now.from) }
        ensures few { IfOk result (λ _. vec_len self.old.known ≤ vec_len self.new.known) }
        ensures built { IfOk result (λ fits.
            BuildsOn automaton.now classes.now self.new.known.items self.new.rows.items state (class + 1) fits) }
    {
        let moved = leads.moved(automaton, &classes.footings[class]);
        let Some(number) = self.enter(moved)? else {
            return Ok(false);
        };
        self.rows.push(number as u8)?;
        Ok(true)
    }

    /// The number of a state, which is put behind the others if it is new; None where there are too many. What was
    /// found before for such bits is tried first.
    fn enter(&mut self, one: Footing) -> Result<Option<usize>, AllocError>
        ensures rows { IfOk result (λ _. self.new.rows ≡ self.old.rows) }
        ensures entered { IfOk result (λ number. IsEntered self.old.known.items self.new.known.items one number) }
    {
        let place = hint_place(&one);
        let hint = self.hints[place] as usize;
        if hint < self.known.len() && self.known[hint].is_alike(&one) {
            return Ok(Some(hint));
        }
        let number = self.look_up(one)?;
        self.keep_hint(place, number);
        Ok(number)
    }

    /// Keeps the number that was found for bits that have this place.
    fn keep_hint(&mut self, place: usize, number: Option<usize>)
        requires { place < 512 }
        ensures known { self.new.known ≡ self.old.known }
        ensures rows { self.new.rows ≡ self.old.rows }
    {
        if let Some(found) = number {
            if found < MAX_STATES {
                self.hints[place] = found as u8;
            }
        }
    }

    /// The number of a state, which is looked for among all, and put behind them if it is new; None where there are too
    /// many.
    fn look_up(&mut self, one: Footing) -> Result<Option<usize>, AllocError>
        ensures rows { IfOk result (λ _. self.new.rows ≡ self.old.rows) }
        ensures entered { IfOk result (λ number. IsEntered self.old.known.items self.new.known.items one number) }
    {
        if let Some(number) = number_among(&self.known, &one) {
            return Ok(Some(number));
        }
        if self.known.len() >= MAX_STATES {
            return Ok(None);
        }
        self.known.push(one)?;
        Ok(Some(self.known.len() - 1))
    }
}

/// The place by the bits of a state at which the number of one is kept that had such bits.
fn hint_place(one: &Footing) -> usize
    ensures { result < 512 }
{
    let mut mixed = one.prev.number() as u64;
    for place in 0..WIDTH {
        mixed = mixed.rotate_left(11) ^ one.positions[place];
    }
    (mixed.wrapping_mul(SPREAD) >> HINT_SHIFT) as usize
}

//! The engine over states whose regions are sets of positions.

ghost use Rattle.std.specs.Prelude.{◌≡◌, ◌↔◌, ◌+◌, ◌*◌, ◌^◌, ◌<◌, ◌≤◌, None, IfOk, IfSome, IsTrue, length, vec_len};
ghost use Rattle.hs_states.specs.StateSets.{set_bytes, set_width, state_count};
ghost use Rattle.hs_engine.specs.Tables.{IsClearFrom};
ghost use Rattle.hs_dfa.specs.ClearSets.{AreClear};

use crate::dfa::Dfa;
use hs_base::Prev;
use hs_bits::{BYTE_BITS, has_bit_in};
use hs_block::BlockEngine;
use hs_engine::{Automaton, BlockEnds, Steps};
use hs_states::StateSets;
use std::alloc::{AllocError, Global};
use std::sync::ledger::Ledger;

/// Runs an expression by its states where regions are the sets of its live positions: a block is begun by the number of
/// the state with that set, and ended by the set of the state that is reached.
#[derive(Debug, Drop)]
pub struct SetDfa {
    /// The engine over the numbers of states.
    dfa: Dfa,
    /// The sets of the same states.
    sets: StateSets,
    /// How many positions there are.
    size: usize,
    ghost same: { state_count sets ≡ vec_len dfa.ends },
    ghost clear: { AreClear sets size },
}

impl SetDfa {
    ghost use Rattle.hs_base.specs.Trees.{Tree};
    ghost use Rattle.hs_base.specs.AssertionTests.{has_assertion};
    ghost use Rattle.hs_engine.specs.Tables.{Runs};
    ghost use Rattle.hs_states.specs.StateCounts.{HasMoreStates};
    ghost use Rattle.hs_dfa.specs.SetRuns.{IsSetDfaOf, IsSetTried};

    /// The engine of an automaton; None exactly where it has more than 255 states.
    pub fn build(alloc: Global, automaton: &Automaton) -> Result<Option<SetDfa>, AllocError>
        ensures some { IfOk result (λ found. IfSome found (λ own. (tree : Tree) →
            Runs automaton.now tree → automaton.now.has_assertion ≡ has_assertion tree → IsSetDfaOf own tree)) }
        ensures none { IfOk result (λ found. found ≡ None → (tree : Tree) →
            Runs automaton.now tree → automaton.now.has_assertion ≡ has_assertion tree → HasMoreStates tree) }
    {
        let Some(dfa) = Dfa::build(alloc, automaton)? else {
            return Ok(None);
        };
        let Some(sets) = StateSets::build(alloc, automaton)? else {
            return Ok(None);
        };
        let size = automaton.size();
        // Both are always so.
        if sets.count() != dfa.state_count() || !are_clear(&sets, size) {
            return Ok(None);
        }
        Ok(Some(SetDfa { dfa, sets, size }))
    }

    /// How many bytes a region has.
    pub fn width(&self) -> usize
        ensures { result ≡ set_width self.now.sets }
    {
        self.sets.width()
    }

    /// Takes a block behind `prev`, before each byte of which the expression is entered. None exactly where the region
    /// is the set of no state that has this before it: all is then as before.
    pub fn run<L: Ledger>(
        &self,
        region: &mut [u8],
        prev: Prev,
        at: u64,
        bytes: &[u8],
        steps: &mut Steps<L>,
    ) -> Option<BlockEnds>
        requires len { length region.old ≡ set_width self.now.sets }
        requires few { length bytes.now ≤ 64 }
        requires room { at + length bytes.now ≤ 2 ^ 63 }
        ensures len { length region.new ≡ length region.old }
        ensures tries { IsSetTried self.now region.old region.new prev at bytes.now result steps.old steps.new }
    {
        let Some(number) = self.sets.number_of(region, prev) else {
            return None;
        };
        let mut state = [number];
        let ends = self.dfa.run(&mut state, prev, at, u64::MAX, bytes, steps);
        region.copy_from_slice(self.sets.set(state[0]));
        Some(ends)
    }
}

/// Whether no set has a bit behind those of so many positions.
fn are_clear(sets: &StateSets, size: usize) -> bool
    ensures { IsTrue result ↔ AreClear sets.now size }
{
    if size > BYTE_BITS * sets.width() {
        return false;
    }
    for number in 0..sets.count() {
        if !is_clear_from(sets.set(number as u8), size) {
            return false;
        }
    }
    true
}

/// Whether no bit from that one on is set.
fn is_clear_from(set: &[u8], first: usize) -> bool
    requires room { first ≤ 8 * length set.now }
    requires small { 8 * length set.now < 2 ^ 64 }
    ensures { IsTrue result ↔ IsClearFrom set.now first }
{
    !has_bit_in(set, first, BYTE_BITS * set.len())
}

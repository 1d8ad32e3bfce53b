//! The engine of bytes of a set from one number to another.

ghost use Rattle.std.specs.Prelude.{◌≡◌, ◌↔◌, ℕ, ◌+◌, ◌*◌, ◌/◌, ◌<◌, ◌≤◌, Bool, true, false, List, [], ◌∷◌, ◌++◌};
ghost use Rattle.std.specs.Prelude.{length, Some, IsTrue};
ghost use Rattle.hs_base.specs.ByteSets.{has, members};
ghost use Rattle.hs_base.specs.Trees.{greatest_bound};
ghost use Rattle.hs_base.specs.Bits.{AreZero};
ghost use Rattle.hs_base.specs.RepeatRows.{IsAway};
ghost use Rattle.hs_base.specs.RepeatRows.{IsRingAt, IsRingRow};

use hs_base::{ByteSet, Next, NextSet, Prev};
use hs_bits::{BYTE_BITS, clear_bits, clear_live, has_bit_in, has_bit_round, is_zero, write_bit};
use hs_engine::{Engine, Steps};
use std::sync::ledger::Ledger;

/// Runs bytes of a set, from one number to another, as `a{50,100}`. It keeps a bit for each of the last offsets, as
/// many as the greater number: whether an entry stands there whose bytes are all in the set. A step touches one bit, or
/// clears all.
#[derive(Debug, Drop)]
pub struct Ring {
    set: ByteSet,
    /// The least number of bytes.
    least: u32,
    /// The greatest number of bytes.
    greatest: u32,
    ghost some: { 0 < greatest },
    ghost order: { least ≤ greatest },
    ghost bounded: { greatest ≤ greatest_bound },
}

impl Ring {
    ghost use Rattle.hs_repeat.specs.RepeatEngines.{meaning_of_ring};
    ghost use Rattle.hs_repeat.specs.Repeats.{repeat_of};

    /// The engine of bytes of the set, from `least` to `greatest`.
    pub fn new(set: ByteSet, least: u32, greatest: u32) -> Ring
        requires some { 0 < greatest }
        requires order { least ≤ greatest }
        requires bounded { greatest ≤ greatest_bound }
        ensures { (meaning_of_ring result).is_for (repeat_of set least (Some greatest)) }
    {
        Ring {
            set,
            least,
            greatest,
        }
    }

    /// Whether an entry stands from the least to the greatest distance from `at`.
    fn has_entry_away(&self, region: &[u8], at: u64) -> bool
        requires len { length region.now ≡ (self.now.greatest + 7) / 8 }
        ensures away { (u : List ℕ) (entered : List Bool) → at ≡ length u → length entered ≡ length u →
            IsRingRow self.now.greatest (members self.now.set) region.now u entered →
            IsTrue result ↔ ((d : ℕ) × IsAway (members self.now.set) u entered d × (self.now.least ≤ d) ×
            (d ≤ self.now.greatest)) }
        ensures rests { AreZero region.now → result ≡ false }
    {
        let farthest = u64::from(self.greatest).min(at);
        let nearest = u64::from(self.least).max(1);
        if farthest < nearest {
            return false;
        }
        let first = (at - farthest) % u64::from(self.greatest);
        let count = farthest - nearest + 1;
        has_bit_round(
            region,
            self.greatest as usize,
            first as usize,
            count as usize,
        )
    }
}

impl Engine for Ring {
    ghost use Rattle.hs_repeat.specs.RepeatMeanings.{ring_meaning};

    ghost meaning = { λ e. ring_meaning e.set e.least e.greatest };

    fn size(&self) -> usize {
        (self.greatest as usize + (BYTE_BITS - 1)) / BYTE_BITS
    }

    fn clear(&self, region: &mut [u8]) {
        clear_bits(region);
    }

    fn step<L: Ledger>(
        &self,
        region: &mut [u8],
        _prev: Prev,
        at: u64,
        enter: NextSet,
        byte: u8,
        steps: &mut Steps<L>,
    ) {
        steps.tick();
        if !self.set.contains(byte) {
            clear_live(region);
            return;
        }
        let place = at % u64::from(self.greatest);
        write_bit(region, place as usize, enter.contains(Next::class_of(byte)));
    }

    fn out(&self, region: &[u8], _prev: Prev, at: u64) -> NextSet {
        if self.has_entry_away(region, at) {
            NextSet::all()
        } else {
            NextSet::empty()
        }
    }

    fn at_rest(&self, region: &[u8]) -> bool {
        is_zero(region)
    }

    fn wakers(&self) -> &ByteSet {
        &self.set
    }

    fn well_formed(&self, region: &[u8], at: u64) -> bool {
        let places = u64::from(self.greatest).min(at);
        !has_bit_in(region, places as usize, BYTE_BITS * region.len())
    }
}

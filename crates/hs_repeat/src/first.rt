//! The engine of at least so many bytes of a set.

ghost use Rattle.std.specs.Prelude.{◌≡◌, ℕ, ◌+◌, ◌<◌, ◌≤◌, Bool, true, false, List, [], ◌∷◌, ◌++◌, length, None};
ghost use Rattle.hs_base.specs.ByteSets.{has, members};
ghost use Rattle.hs_base.specs.Trees.{greatest_bound};
ghost use Rattle.hs_base.specs.RepeatRows.{IsAway};
ghost use Rattle.hs_base.specs.RepeatRows.{IsDistanceAt, IsFirstDistance, IsFirstRow, distance_of};

use crate::distance::{DISTANCE_LEN, Distance};
use hs_base::{ByteSet, Next, NextSet, Prev};
use hs_engine::{Engine, Steps};
use std::sync::ledger::Ledger;

/// Runs at least so many bytes of a set, as `a{100,}`. It keeps how far the farthest entry is away whose bytes are all
/// in the set, up to the bound: nearer entries tell nothing more.
#[derive(Debug, Drop)]
pub struct First {
    /// The distance of the farthest entry, up to the least number of bytes.
    farthest: Distance,
}

impl First {
    ghost use Rattle.hs_repeat.specs.RepeatEngines.{meaning_of_first};
    ghost use Rattle.hs_repeat.specs.Repeats.{repeat_of};

    /// The engine of at least `least` bytes of the set.
    pub fn new(set: ByteSet, least: u32) -> First
        requires some { 0 < least }
        requires bounded { least ≤ greatest_bound }
        ensures { (meaning_of_first result).is_for (repeat_of set least None) }
    {
        First {
            farthest: Distance::new(set, least),
        }
    }

    /// The distance behind the byte, before which the repeat is entered or not.
    #[inline]
    fn next_distance(&self, distance: u32, entering: bool, byte: u8) -> u32
        requires { distance ≤ self.now.farthest.bound }
        ensures bounded { result ≤ self.now.farthest.bound }
        ensures within { result ≤ distance + 1 }
        ensures moves { (u : List ℕ) (entered : List Bool) → length entered ≡ length u →
            IsFirstDistance self.now.farthest.bound (IsAway (members self.now.farthest.set) u entered) distance →
            IsFirstDistance self.now.farthest.bound
            (IsAway (members self.now.farthest.set) (u ++ byte ∷ []) (entered ++ entering ∷ [])) result }
        ensures rests { distance ≡ 0 → entering ≡ false → result ≡ 0 }
    {
        if !self.farthest.set.contains(byte) {
            0
        } else if distance == 0 {
            if entering { 1 } else { 0 }
        } else if distance < self.farthest.bound {
            distance + 1
        } else {
            distance
        }
    }
}

impl Engine for First {
    ghost use Rattle.hs_repeat.specs.RepeatMeanings.{first_meaning};

    ghost meaning = { λ e. first_meaning e.farthest.set e.farthest.bound };

    fn size(&self) -> usize {
        DISTANCE_LEN
    }

    fn clear(&self, region: &mut [u8]) {
        self.farthest.clear(region);
    }

    #[inline]
    fn step<L: Ledger>(
        &self,
        region: &mut [u8],
        _prev: Prev,
        _at: u64,
        enter: NextSet,
        byte: u8,
        steps: &mut Steps<L>,
    ) {
        steps.tick();
        let entering = enter.contains(Next::class_of(byte));
        let distance = self.next_distance(self.farthest.read(region), entering, byte);
        self.farthest.write(region, distance);
    }

    #[inline]
    fn out(&self, region: &[u8], _prev: Prev, _at: u64) -> NextSet {
        if self.farthest.read(region) == self.farthest.bound {
            NextSet::all()
        } else {
            NextSet::empty()
        }
    }

    #[inline]
    fn at_rest(&self, region: &[u8]) -> bool {
        self.farthest.is_at_rest(region)
    }

    #[inline]
    fn wakers(&self) -> &ByteSet {
        &self.farthest.set
    }

    fn well_formed(&self, region: &[u8], at: u64) -> bool {
        self.farthest.is_well_formed(region, at)
    }
}

//! The engine of at most so many bytes of a set.

ghost use Rattle.std.specs.Prelude.{◌≡◌, ◌+◌, ◌<◌, ◌≤◌, false, Some};
ghost use Rattle.hs_base.specs.ByteSets.{has};
ghost use Rattle.hs_base.specs.Trees.{greatest_bound};
ghost use Rattle.hs_repeat.specs.RepeatBlocks.{distance_behind};

use crate::distance::{DISTANCE_LEN, Distance};
use hs_base::{ByteSet, Next, NextSet, Prev};
use hs_engine::{Engine, Steps};
use std::sync::ledger::Ledger;

/// Runs at most so many bytes of a set, and none or one at least, as `a{0,100}`. It keeps how far the nearest entry is
/// away whose bytes are all in the set: it lives longest.
#[derive(Debug, Drop)]
pub struct Last {
    /// The distance of the nearest entry, up to the greatest number of bytes.
    pub(crate) nearest: Distance,
}

impl Last {
    ghost use Rattle.hs_repeat.specs.RepeatEngines.{meaning_of_last};
    ghost use Rattle.hs_repeat.specs.Repeats.{repeat_of};

    /// The engine of at most `greatest` bytes of the set.
    pub fn new(set: ByteSet, greatest: u32) -> Last
        requires some { 0 < greatest }
        requires bounded { greatest ≤ greatest_bound }
        ensures from_none { (meaning_of_last result).is_for (repeat_of set 0 (Some greatest)) }
        ensures from_one { (meaning_of_last result).is_for (repeat_of set 1 (Some greatest)) }
    {
        Last {
            nearest: Distance::new(set, greatest),
        }
    }

    /// The distance behind the byte, before which the repeat is entered or not.
    fn next_distance(&self, distance: u32, entering: bool, byte: u8) -> u32
        requires { distance ≤ self.now.nearest.bound }
        ensures bounded { result ≤ self.now.nearest.bound }
        ensures within { result ≤ distance + 1 }
        ensures moves { result ≡ distance_behind self.now.nearest.bound distance entering
            (has self.now.nearest.set byte) }
        ensures rests { distance ≡ 0 → entering ≡ false → result ≡ 0 }
    {
        if !self.nearest.set.contains(byte) {
            0
        } else if entering {
            1
        } else if distance == 0 {
            0
        } else if distance < self.nearest.bound {
            distance + 1
        } else {
            0
        }
    }
}

impl Engine for Last {
    ghost use Rattle.hs_repeat.specs.RepeatMeanings.{last_meaning};

    ghost meaning = { λ e. last_meaning e.nearest.set e.nearest.bound };

    fn size(&self) -> usize {
        DISTANCE_LEN
    }

    fn clear(&self, region: &mut [u8]) {
        self.nearest.clear(region);
    }

    #[inline]
    fn step<L: Ledger>(
        &self,
        region: &mut [u8],
        _prev: Prev,
        _at: u64,
        enter: NextSet,
        byte: u8,
        steps: &mut Steps<L>,
    ) {
        steps.tick();
        let entering = enter.contains(Next::class_of(byte));
        let distance = self.next_distance(self.nearest.read(region), entering, byte);
        self.nearest.write(region, distance);
    }

    #[inline]
    fn out(&self, region: &[u8], _prev: Prev, _at: u64) -> NextSet {
        if self.nearest.is_at_rest(region) {
            NextSet::empty()
        } else {
            NextSet::all()
        }
    }

    #[inline]
    fn at_rest(&self, region: &[u8]) -> bool {
        self.nearest.is_at_rest(region)
    }

    #[inline]
    fn wakers(&self) -> &ByteSet {
        &self.nearest.set
    }

    fn well_formed(&self, region: &[u8], at: u64) -> bool {
        self.nearest.is_well_formed(region, at)
    }
}

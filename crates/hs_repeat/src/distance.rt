//! A distance in a row of two bytes, the low one first.

ghost use Rattle.std.specs.Prelude.{◌≡◌, ◌↔◌, ◌<◌, ◌≤◌, length, IsTrue};
ghost use Rattle.hs_base.specs.Bits.{AreZero};
ghost use Rattle.hs_base.specs.Trees.{greatest_bound};
ghost use Rattle.hs_base.specs.RepeatRows.{IsDistanceAt, distance_of};

use hs_base::ByteSet;

/// The bytes of such a row.
pub(crate) const DISTANCE_LEN: usize = 2;
/// How many values a byte has.
const BYTE_VALUES: u32 = 256;

/// Keeps in a row how far one entry is away whose bytes are all in a set: 0 where there is none, and a bound at most.
#[derive(Debug, Drop)]
pub(crate) struct Distance {
    pub(crate) set: ByteSet,
    /// The greatest distance that is told apart.
    pub(crate) bound: u32,
    ghost some: { 0 < bound },
    ghost bounded: { bound ≤ greatest_bound },
}

impl Distance {
    /// Distances up to a bound, over bytes of the set.
    pub(crate) fn new(set: ByteSet, bound: u32) -> Distance
        requires some { 0 < bound }
        requires bounded { bound ≤ greatest_bound }
        ensures set { result.set ≡ set }
        ensures bound { result.bound ≡ bound }
    {
        Distance { set, bound }
    }

    /// The distance in the row.
    pub(crate) fn read(&self, row: &[u8]) -> u32
        requires { length row.now ≡ 2 }
        ensures { result ≡ distance_of row.now }
    {
        u32::from(row[0]) + BYTE_VALUES * u32::from(row[1])
    }

    /// Puts the distance into the row; one that is there already is left alone.
    pub(crate) fn write(&self, row: &mut [u8], distance: u32)
        requires len { length row.old ≡ 2 }
        requires fits { distance ≤ self.now.bound }
        ensures len { length row.new ≡ 2 }
        ensures value { distance_of row.new ≡ distance }
        ensures same { distance_of row.old ≡ distance → row.new ≡ row.old }
    {
        if self.read(row) != distance {
            row[0] = (distance % BYTE_VALUES) as u8;
            row[1] = (distance / BYTE_VALUES) as u8;
        }
    }

    /// Makes the row that of no entry.
    pub(crate) fn clear(&self, row: &mut [u8])
        requires { length row.old ≡ 2 }
        ensures len { length row.new ≡ 2 }
        ensures none { distance_of row.new ≡ 0 }
        ensures zero { AreZero row.new }
    {
        self.write(row, 0);
    }

    /// Whether no entry lives: both bytes are 0.
    pub(crate) fn is_at_rest(&self, row: &[u8]) -> bool
        requires { length row.now ≡ 2 }
        ensures none { IsTrue result ↔ distance_of row.now ≡ 0 }
        ensures zero { IsTrue result ↔ AreZero row.now }
    {
        self.read(row) == 0
    }

    /// Whether the distance may be in a row at that offset.
    pub(crate) fn is_well_formed(&self, row: &[u8], at: u64) -> bool
        requires { length row.now ≡ 2 }
        ensures { IsTrue result ↔ IsDistanceAt self.now.bound (distance_of row.now) at }
    {
        let distance = self.read(row);
        distance <= self.bound && u64::from(distance) <= at
    }
}

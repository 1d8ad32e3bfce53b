//! The row of an engine by the numbers of its sets.

ghost use Rattle.std.specs.Prelude.{◌≤◌};

use crate::prev_set::PrevSet;
use crate::rows::MAX_ROW;

/// What wakes an engine: the sets of the first bytes of each entry that isn't dead by then, by their numbers.
#[derive(Clone, Copy, Debug, PartialEq, Eq)]
pub struct WakeRow {
    /// What may stand before the first byte.
    pub behind: PrevSet,
    /// The number of the set of the bytes behind which the first one may stand, where that isn't all.
    pub behind_number: u16,
    /// How many bytes the row tells of.
    pub count: u8,
    /// The number of the set of each of them.
    pub numbers: [u16; MAX_ROW],
    ghost few: { count ≤ 8 },
}

impl WakeRow {
    ghost use Rattle.std.specs.Prelude.{◌≡◌};
    ghost use Rattle.hs_waking.specs.Fits.{row_numbers};

    /// The numbers of its sets.
    pub fn numbers(&self) -> &[u16]
        ensures { result.now ≡ row_numbers self.now }
    {
        &self.numbers[..self.count as usize]
    }
}

//! How matches begin.

ghost use Rattle.std.specs.Prelude.{◌≡◌, ◌≤◌, true, [], ◌∷◌, MatchOption, Some, length, map, slice_get};
ghost use Rattle.hs_base.specs.declared.context.Prev.{Prev};
ghost use Rattle.hs_waking.specs.PrevSets.{has_prev};
ghost use Rattle.hs_waking.specs.Rows.{row_sets};

use crate::prev_set::PrevSet;
use hs_base::ByteSet;
use std::slice::from_ref;

/// How some matches of an engine begin: behind one of these, with bytes of these sets.
#[derive(Clone, Copy, Debug)]
pub struct Beginning<'b> {
    /// What may stand before the first byte.
    pub behind: PrevSet,
    /// The sets of the first byte, of the second and so on.
    pub row: &'b [ByteSet],
}

/// How each match of an engine begins that isn't dead by then: behind one of these, by one of the rows.
#[derive(Clone, Copy, Debug)]
pub struct Beginnings<'b> {
    /// What may stand before its first byte.
    pub behind: PrevSet,
    /// The rows.
    pub rows: BeginningRows<'b>,
}

/// Rows of the sets of the first byte of a match, of the second and so on.
#[derive(Clone, Copy, Debug)]
pub enum BeginningRows<'b> {
    /// One row, of one set.
    Set(&'b ByteSet),
    /// These rows.
    Each(&'b [Vec<ByteSet>]),
}

impl<'b> Beginnings<'b> {
    ghost use Rattle.hs_waking.specs.BeginningRows.{rows_of_beginnings};

    /// By no row: there is no match.
    pub fn none() -> Beginnings<'b>
        ensures { rows_of_beginnings result.rows ≡ [] }
    {
        Beginnings {
            behind: PrevSet::all(),
            rows: BeginningRows::Each(&[]),
        }
    }

    /// With a byte of the set, behind anything.
    pub fn with(set: &'b ByteSet) -> Beginnings<'b>
        ensures behind { (prev : Prev) → has_prev result.behind prev ≡ true }
        ensures rows { rows_of_beginnings result.rows ≡ (set.now ∷ []) ∷ [] }
    {
        Beginnings {
            behind: PrevSet::all(),
            rows: BeginningRows::Set(set),
        }
    }

    /// By the row of that number; None exactly from the count of rows on.
    pub fn get(&self, number: usize) -> Option<Beginning<'b>>
        ensures { MatchOption result
            (length (rows_of_beginnings self.now.rows) ≤ number)
            (λ beginning. (beginning.behind ≡ self.now.behind) ×
            (slice_get (rows_of_beginnings self.now.rows) number ≡ Some beginning.row.now)) }
    {
        let row = self.rows.get(number)?;
        Some(Beginning {
            behind: self.behind,
            row,
        })
    }
}

impl<'b> BeginningRows<'b> {
    ghost use Rattle.hs_waking.specs.BeginningRows.{rows_of_beginnings};

    /// The row of that number; None exactly from the count of rows on.
    fn get(&self, number: usize) -> Option<&'b [ByteSet]>
        ensures { MatchOption result
            (length (rows_of_beginnings self.now) ≤ number)
            (λ row. slice_get (rows_of_beginnings self.now) number ≡ Some row.now) }
    {
        match self {
            BeginningRows::Set(set) if number == 0 => Some(from_ref(set)),
            BeginningRows::Set(_) => None,
            BeginningRows::Each(rows) => {
                if number < rows.len() {
                    Some(&rows[number])
                } else {
                    None
                }
            }
        }
    }
}

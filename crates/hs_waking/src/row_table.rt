//! The rows of engines by the numbers of their sets, each of which is kept once.

ghost use Rattle.std.specs.Prelude.{◌≡◌, ◌<◌, ◌≤◌, true, IfOk, IfSome, Some, length, slice_get};
ghost use Rattle.hs_base.specs.declared.context.Prev.{Prev};
ghost use Rattle.hs_waking.specs.Fits.{IsBehindBy};
ghost use Rattle.hs_waking.specs.PrevSets.{has_prev};
ghost use Rattle.hs_waking.specs.RowTables.{Extends, IsCutRow, PutsRow};

use crate::beginning::Beginning;
use crate::prev_set::PrevSet;
use crate::rows::MAX_ROW;
use crate::wake_row::WakeRow;
use hs_base::ByteSet;
use std::alloc::{AllocError, Global};

/// The most sets of a table.
const MAX_SETS: usize = 4_096;

/// The rows of engines, and the sets that they name.
#[derive(Debug, Drop)]
pub struct RowTable {
    /// The rows.
    pub rows: Vec<WakeRow>,
    /// The sets of all rows, each once.
    pub sets: Vec<ByteSet>,
}

impl RowTable {
    /// No row.
    pub fn new(alloc: Global) -> RowTable
        ensures rows { length result.rows.items ≡ 0 }
        ensures sets { length result.sets.items ≡ 0 }
    {
        RowTable {
            rows: Vec::new(alloc),
            sets: Vec::new(alloc),
        }
    }

    /// Puts the row of a beginning behind the others. It ends behind 8 sets, and before one for which there is no room:
    /// a shorter row tells less. The only error is want of memory.
    pub fn push(&mut self, beginning: &Beginning<'_>) -> Result<(), AllocError>
        ensures { IfOk result (λ done. PutsRow self.old self.new beginning.now.behind beginning.now.row.now) }
    {
        let begun = self.begin(beginning.behind)?;
        let own = self.cut(begun, beginning.row)?;
        self.rows.push(own)?;
        Ok(())
    }

    /// The row of no set that begins behind these; behind anything, where there is no room for the set of their bytes.
    fn begin(&mut self, behind: PrevSet) -> Result<WakeRow, AllocError>
        ensures rows { self.new.rows ≡ self.old.rows }
        ensures kept { Extends self.old.sets.items self.new.sets.items }
        ensures more { IfOk result (λ row. (prev : Prev) →
            has_prev behind prev ≡ true → has_prev row.behind prev ≡ true) }
        ensures behind { IfOk result (λ row. IsBehindBy row self.new.sets.items) }
    {
        if !behind.is_all() {
            if let Some(number) = self.number(&behind.bytes())? {
                return Ok(row_behind(behind, number));
            }
        }
        Ok(row_behind(PrevSet::all(), 0))
    }

    /// The row that is begun so, by the numbers of its sets, as far as there is room.
    fn cut(&mut self, begun: WakeRow, row: &[ByteSet]) -> Result<WakeRow, AllocError>
        ensures rows { self.new.rows ≡ self.old.rows }
        ensures kept { Extends self.old.sets.items self.new.sets.items }
        ensures row { IfOk result (λ own. IsCutRow self.new.sets.items row.now own.count own.numbers) }
        ensures behind { IfOk result (λ own. own.behind ≡ begun.behind) }
        ensures number { IfOk result (λ own. own.behind_number ≡ begun.behind_number) }
    {
        let mut numbers = [0; MAX_ROW];
        let end = row.len().min(MAX_ROW);
        for depth in 0..end {
            let Some(number) = self.number(&row[depth])? else {
                return Ok(row_to(begun, depth, numbers));
            };
            numbers[depth] = number;
        }
        Ok(row_to(begun, end, numbers))
    }

    /// The number of the set, which is put behind the others if it isn't among them; None where there is no room.
    fn number(&mut self, set: &ByteSet) -> Result<Option<u16>, AllocError>
        ensures rows { self.new.rows ≡ self.old.rows }
        ensures kept { Extends self.old.sets.items self.new.sets.items }
        ensures number { IfOk result (λ found. IfSome found (λ number.
            slice_get self.new.sets.items number ≡ Some set.now)) }
    {
        if let Some(number) = find(&self.sets, set) {
            return Ok(Some(number as u16));
        }
        let number = self.sets.len();
        if number >= MAX_SETS {
            return Ok(None);
        }
        self.sets.push(*set)?;
        Ok(Some(number as u16))
    }
}

/// The row of no set that begins behind these, with the number of the set of their bytes.
fn row_behind(behind: PrevSet, number: u16) -> WakeRow
    ensures behind { result.behind ≡ behind }
    ensures number { result.behind_number ≡ number }
{
    WakeRow {
        behind,
        behind_number: number,
        count: 0,
        numbers: [0; MAX_ROW],
    }
}

/// The row of the first so many of these numbers, begun so.
fn row_to(begun: WakeRow, count: usize, numbers: [u16; MAX_ROW]) -> WakeRow
    requires { count ≤ 8 }
    ensures behind { result.behind ≡ begun.behind }
    ensures number { result.behind_number ≡ begun.behind_number }
    ensures count { result.count ≡ count }
    ensures numbers { result.numbers ≡ numbers }
{
    WakeRow {
        behind: begun.behind,
        behind_number: begun.behind_number,
        count: count as u8,
        numbers,
    }
}

/// The number of an equal set among the first 4,096 that are kept.
fn find(kept: &[ByteSet], set: &ByteSet) -> Option<usize>
    ensures there { IfSome result (λ number. slice_get kept.now number ≡ Some set.now) }
    ensures few { IfSome result (λ number. number < 4096) }
{
    for number in 0..kept.len().min(MAX_SETS) {
        if kept[number] == *set {
            return Some(number);
        }
    }
    None
}

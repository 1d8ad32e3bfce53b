//! The row of the first bytes of an automaton, and its rows from one position each.
//!
//! The one row of `(ab|c)[xy]+z`:
//!
//! ```text
//! level   0      1        2        3 ..
//! bytes   a c    b x y    x y z    (a position of the level before accepts: the row ends)
//! ```
//!
//! Its rows, one for each position with which a match may begin:
//!
//! ```text
//! level    0    1      2        3        4 ..
//! from a   a    b      x y      x y z    (the row ends)
//! from c   c    x y    x y z    (the row ends)
//! ```

ghost use Rattle.std.specs.Prelude.{◌≡◌, ℕ, ◌<◌, ◌≤◌, true, IfOk, Some, map, slice_get, vec_len};
ghost use Rattle.hs_waking.specs.Rows.{AddsRow, AreRowsOf, AreShort, IsRowFromEach, IsRowOf, row_sets};

use crate::levels::{Level, bytes_of, first_level, has_accepting, is_used, level_of, next_level};
use hs_base::ByteSet;
use hs_engine::Automaton;
use std::alloc::{AllocError, Global};

/// How many sets a row has at most.
pub const MAX_ROW: usize = 8;

/// How many rows there are at most.
pub const MAX_ROWS: usize = 16;

/// How many times as seldom as the one row of all matches the rows have to fit, to be asked in its place.
const TIMES_AS_SELDOM: u64 = 2;

/// So many places are told of.
const ALWAYS: u64 = 1 << 48;

/// How many bytes are common in a text.
const COMMON_BYTES: u64 = 64;

/// The bytes of the first levels of an automaton, up to one of which a position accepts.
pub(crate) fn row_of(alloc: Global, automaton: &Automaton) -> Result<Vec<ByteSet>, AllocError>
    ensures row { IfOk result (λ row. IsRowOf automaton.now row.items) }
    ensures few { IfOk result (λ row. vec_len row ≤ 8) }
{
    row_from(alloc, automaton, &first_level(automaton.enters()))
}

/// The rows from the positions with which a match may begin, one for each; rows that are equal stand there once. Where
/// they would be more than `MAX_ROWS`, or fit hardly less often than the one row of `row_of`, there is that one alone.
///
/// # Errors
///
/// There may be no memory.
pub fn rows_of(alloc: Global, automaton: &Automaton) -> Result<Vec<Vec<ByteSet>>, AllocError>
    ensures rows { IfOk result (λ rows. AreRowsOf automaton.now (map row_sets rows.items)) }
    ensures few { IfOk result (λ rows. vec_len rows ≤ 16) }
    ensures short { IfOk result (λ rows. AreShort (map row_sets rows.items)) }
{
    let mut rows = Vec::new(alloc);
    for position in 0..automaton.size() {
        add_row(alloc, automaton, position, &mut rows)?;
        if rows.len() > MAX_ROWS {
            return one_row(alloc, automaton);
        }
    }
    let one = one_row(alloc, automaton)?;
    if fit_seldom(&rows, &one) {
        Ok(rows)
    } else {
        Ok(one)
    }
}

/// The one row of `row_of`.
fn one_row(alloc: Global, automaton: &Automaton) -> Result<Vec<Vec<ByteSet>>, AllocError>
    ensures rows { IfOk result (λ rows. AreRowsOf automaton.now (map row_sets rows.items)) }
    ensures few { IfOk result (λ rows. vec_len rows ≤ 16) }
    ensures short { IfOk result (λ rows. AreShort (map row_sets rows.items)) }
{
    let mut rows = Vec::new(alloc);
    rows.push(row_of(alloc, automaton)?)?;
    Ok(rows)
}

/// Puts the row from a position behind the others, if a match may begin with it and the row isn't among them.
fn add_row(
    alloc: Global,
    automaton: &Automaton,
    position: usize,
    rows: &mut Vec<Vec<ByteSet>>,
) -> Result<(), AllocError>
    requires { position < vec_len automaton.now.sets }
    ensures { IfOk result (λ done.
        AddsRow automaton.now position (map row_sets rows.old.items) (map row_sets rows.new.items)) }
{
    if !is_used(automaton.enters(), position) {
        return Ok(());
    }
    let row = row_from(alloc, automaton, &level_of(position))?;
    if !has_row(rows, &row) {
        rows.push(row)?;
    }
    Ok(())
}

/// Whether the row is among these.
fn has_row(rows: &[Vec<ByteSet>], row: &[ByteSet]) -> bool
    ensures { result ≡ true → (k : ℕ) × (slice_get (map row_sets rows.now) k ≡ Some row.now) }
{
    for kept in rows {
        if are_same(kept, row) {
            return true;
        }
    }
    false
}

/// Whether two rows have the same sets.
fn are_same(row: &[ByteSet], other: &[ByteSet]) -> bool
    ensures { result ≡ true → row.now ≡ other.now }
{
    row == other
}

/// The row of the matches that begin with a position of the level.
fn row_from(alloc: Global, automaton: &Automaton, first: &Level) -> Result<Vec<ByteSet>, AllocError>
    ensures row { IfOk result (λ row. IsRowFromEach automaton.now first.now row.items) }
    ensures few { IfOk result (λ row. vec_len row ≤ 8) }
{
    let mut level = *first;
    let mut row = Vec::new(alloc);
    row.push(bytes_of(automaton.sets(), &level))?;
    while row.len() < MAX_ROW && !has_accepting(automaton.accepts(), &level) {
        level = next_level(automaton.follows(), &level);
        row.push(bytes_of(automaton.sets(), &level))?;
    }
    Ok(row)
}

/// Whether these rows fit by far less often than those.
fn fit_seldom(rows: &[Vec<ByteSet>], others: &[Vec<ByteSet>]) -> bool {
    TIMES_AS_SELDOM.saturating_mul(how_often(rows)) <= how_often(others)
}

/// How often one of the rows fits at a place, roughly, of `ALWAYS` places.
fn how_often(rows: &[Vec<ByteSet>]) -> u64 {
    let mut all: u64 = 0;
    for row in rows {
        all = all.saturating_add(how_often_fits(row));
    }
    all
}

/// How often the row fits at a place, roughly, of `ALWAYS` places: as if each byte were one of `COMMON_BYTES`, each as
/// often as the others.
fn how_often_fits(row: &[ByteSet]) -> u64 {
    let mut often = ALWAYS;
    for set in row {
        often = (often / COMMON_BYTES).saturating_mul(size_of(set).min(COMMON_BYTES));
    }
    often
}

/// How many bytes the set has.
fn size_of(set: &ByteSet) -> u64 {
    let words = set.words();
    let mut size: u64 = 0;
    for i in 0..words.len() {
        size = size.saturating_add(u64::from(words[i].count_ones()));
    }
    size
}

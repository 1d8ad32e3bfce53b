//! The tables of an automaton, made once: rows of positions by bytes and by contexts.

ghost use Rattle.std.specs.Prelude.{◌≡◌, ℕ, ◌*◌, ◌<◌, ◌≤◌, true, IfOk, ◌&&◌, ◌||◌, ◌==◌, length, slice_get};
ghost use Rattle.hs_base.specs.Contexts.{Context, context_number};
ghost use Rattle.hs_engine.specs.Automata.{in_mask, in_set};
ghost use Rattle.hs_engine.specs.Between.{between};
ghost use Rattle.hs_limex.specs.WordTables.{in_table};

use crate::contexts::{CONTEXT_COUNT, context_of};
use crate::word_rows::WordRows;
use hs_base::{ByteSet, Mask, Next, Prev};
use std::alloc::{AllocError, Global};

/// How many bytes there are.
const BYTE_COUNT: usize = 256;

/// For each byte the positions whose set has it.
pub(crate) fn reach_of(
    alloc: Global,
    sets: &[ByteSet],
    width: usize,
) -> Result<WordRows, AllocError>
    requires narrow { width ≤ 8 }
    requires room { length sets.now ≤ 64 * width }
    ensures count { IfOk result (λ rows. rows.count ≡ 256) }
    ensures width { IfOk result (λ rows. rows.width ≡ width) }
    ensures bits { IfOk result (λ rows. (b k : ℕ) → b < 256 → in_table rows b k ≡ in_set (slice_get sets.now k) b) }
{
    let mut rows = WordRows::new(alloc, BYTE_COUNT, width)?;
    for position in 0..sets.len() {
        fill_position(sets, position, &mut rows);
    }
    Ok(rows)
}

/// Sets the bit of the position in the rows of the bytes of its set.
fn fill_position(sets: &[ByteSet], position: usize, rows: &mut WordRows)
    requires sets { position < length sets.now }
    requires count { rows.old.count ≡ 256 }
    requires position { position < 64 * rows.old.width }
    ensures count { rows.new.count ≡ rows.old.count }
    ensures width { rows.new.width ≡ rows.old.width }
    ensures bits { (b k : ℕ) →
        b < 256 →
        in_table rows.new b k ≡ (((k == position) && in_set (slice_get sets.now position) b) || in_table rows.old b k) }
{
    for byte in 0..BYTE_COUNT {
        rows.insert_if(byte, position, set_contains(sets, position, byte as u8));
    }
}

/// Whether the set of that number has the byte.
fn set_contains(sets: &[ByteSet], number: usize, byte: u8) -> bool
    requires { number < length sets.now }
    ensures { result ≡ in_set (slice_get sets.now number) byte }
{
    sets[number].contains(byte)
}

/// For each context the positions whose mask has it.
pub(crate) fn masks_of(alloc: Global, masks: &[Mask], width: usize) -> Result<WordRows, AllocError>
    requires narrow { width ≤ 8 }
    requires room { length masks.now ≤ 64 * width }
    ensures count { IfOk result (λ rows. rows.count ≡ 24) }
    ensures width { IfOk result (λ rows. rows.width ≡ width) }
    ensures bits { IfOk result (λ rows.
        (c : Context) (k : ℕ) →
        in_table rows (context_number c) k ≡ in_mask (slice_get masks.now k) c) }
{
    let mut rows = WordRows::new(alloc, CONTEXT_COUNT, width)?;
    for number in 0..CONTEXT_COUNT {
        let (prev, next) = context_of(number);
        fill_context(masks, prev, next, number, &mut rows);
    }
    Ok(rows)
}

/// Sets the bits of the positions whose mask has the context, in the row of that number.
fn fill_context(masks: &[Mask], prev: Prev, next: Next, number: usize, rows: &mut WordRows)
    requires number { number < rows.old.count }
    requires room { length masks.now ≤ 64 * rows.old.width }
    ensures count { rows.new.count ≡ rows.old.count }
    ensures width { rows.new.width ≡ rows.old.width }
    ensures bits { (n k : ℕ) →
        in_table rows.new n k ≡
        (((n == number) && in_mask (slice_get masks.now k) (between prev next))
        || in_table rows.old n k) }
{
    for position in 0..masks.len() {
        rows.insert_if(number, position, masks[position].contains(prev, next));
    }
}

/// The positions whose mask has a context, in one row.
pub(crate) fn any_of(alloc: Global, masks: &[Mask], width: usize) -> Result<WordRows, AllocError>
    requires narrow { width ≤ 8 }
    requires room { length masks.now ≤ 64 * width }
    ensures count { IfOk result (λ rows. rows.count ≡ 1) }
    ensures width { IfOk result (λ rows. rows.width ≡ width) }
    ensures bits { IfOk result (λ rows.
        (k : ℕ) (c : Context) →
        in_mask (slice_get masks.now k) c ≡ true →
        in_table rows 0 k ≡ true) }
{
    let mut rows = WordRows::new(alloc, 1, width)?;
    for position in 0..masks.len() {
        rows.insert_if(0, position, has_context_in(masks, position));
    }
    Ok(rows)
}

/// Whether the mask of that number has a context.
fn has_context_in(masks: &[Mask], number: usize) -> bool
    requires { number < length masks.now }
    ensures { (c : Context) → in_mask (slice_get masks.now number) c ≡ true → result ≡ true }
{
    masks[number] != Mask::empty()
}

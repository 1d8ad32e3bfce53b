//! The tables of an automaton, made once: which positions follow each other.

ghost use Rattle.std.specs.Prelude.{◌≡◌, ℕ, ◌+◌, ◌*◌, ◌/◌, ◌%◌, ◌<◌, ◌≤◌, true, false, IfOk, IsTrue, ◌&&◌, ◌||◌, ◌==◌};
ghost use Rattle.std.specs.Prelude.{length};
ghost use Rattle.hs_base.specs.Contexts.{Context, context_number};
ghost use Rattle.hs_base.specs.Bits.{has_bit};
ghost use Rattle.hs_engine.specs.Rows.{in_row};
ghost use Rattle.hs_engine.specs.Between.{between};
ghost use Rattle.hs_limex.specs.WordTables.{in_table};
ghost use Rattle.hs_limex.specs.Near.{IsFew, IsNearFrom, LeavesFar};

use crate::contexts::{CONTEXT_COUNT, context_of};
use crate::word_rows::WordRows;
use hs_base::{Next, Prev};
use hs_bits::{BYTE_BITS, contains_bit, is_zero};
use hs_engine::FollowRows;
use std::alloc::{AllocError, Global};

/// How many distances have rows of their own: a position follows another at one of these, or it is far from it.
pub(crate) const DISTANCE_COUNT: usize = 8;

/// For each context and distance the positions that may be followed by the one so many places on.
pub(crate) fn near_of(
    alloc: Global,
    follows: &FollowRows,
    size: usize,
    width: usize,
) -> Result<WordRows, AllocError>
    requires size { follows.now.size ≡ size }
    requires narrow { width ≤ 8 }
    requires room { size ≤ 64 * width }
    ensures count { IfOk result (λ rows. rows.count ≡ 192) }
    ensures width { IfOk result (λ rows. rows.width ≡ width) }
    ensures bits { IfOk result (λ rows.
        (c : Context) (d k : ℕ) →
        d < 8 →
        in_table rows (8 * context_number c + d) k ≡ in_row follows.now k (k + d) c) }
{
    let mut rows = WordRows::new(alloc, CONTEXT_COUNT * DISTANCE_COUNT, width)?;
    for number in 0..CONTEXT_COUNT * DISTANCE_COUNT {
        let (prev, next) = context_of(number / DISTANCE_COUNT);
        fill_near(
            follows,
            size,
            prev,
            next,
            number,
            number % DISTANCE_COUNT,
            &mut rows,
        );
    }
    Ok(rows)
}

/// Sets the bits of the positions that may be followed so many places on in the context, in the row of that number.
fn fill_near(
    follows: &FollowRows,
    size: usize,
    prev: Prev,
    next: Next,
    number: usize,
    distance: usize,
    rows: &mut WordRows,
)
    requires size { follows.now.size ≡ size }
    requires number { number < rows.old.count }
    requires distance { distance < 8 }
    requires room { size ≤ 64 * rows.old.width }
    ensures count { rows.new.count ≡ rows.old.count }
    ensures width { rows.new.width ≡ rows.old.width }
    ensures bits { (n k : ℕ) →
        in_table rows.new n k ≡
        (((n == number) && in_row follows.now k (k + distance) (between prev next))
        || in_table rows.old n k) }
{
    for position in 0..size {
        let wanted = may_follow(follows, prev, next, position, position + distance);
        rows.insert_if(number, position, wanted);
    }
}

/// Whether the one position may follow the other in the context.
pub(crate) fn may_follow(
    follows: &FollowRows,
    prev: Prev,
    next: Next,
    from: usize,
    to: usize,
) -> bool
    requires { from < follows.now.size }
    ensures { result ≡ in_row follows.now from to (between prev next) }
{
    let row = follows.row(prev, next, from);
    to < BYTE_BITS * row.len() && contains_bit(row, to)
}

/// The positions that may be followed by one that isn't near, in one row.
pub(crate) fn far_of(
    alloc: Global,
    follows: &FollowRows,
    size: usize,
    width: usize,
) -> Result<WordRows, AllocError>
    requires size { follows.now.size ≡ size }
    requires narrow { width ≤ 8 }
    requires room { size ≤ 64 * width }
    ensures count { IfOk result (λ rows. rows.count ≡ 1) }
    ensures width { IfOk result (λ rows. rows.width ≡ width) }
    ensures few { IfOk result (λ rows. IsFew rows size) }
    ensures rest { IfOk result (λ rows. (c : Context) → LeavesFar rows follows.now c) }
{
    let mut rows = WordRows::new(alloc, 1, width)?;
    for number in 0..CONTEXT_COUNT {
        let (prev, next) = context_of(number);
        fill_far(follows, size, prev, next, &mut rows);
    }
    Ok(rows)
}

/// Sets the bits of the positions that may be followed by one that isn't near, in the context.
fn fill_far(follows: &FollowRows, size: usize, prev: Prev, next: Next, rows: &mut WordRows)
    requires size { follows.now.size ≡ size }
    requires count { rows.old.count ≡ 1 }
    requires room { size ≤ 64 * rows.old.width }
    ensures count { rows.new.count ≡ rows.old.count }
    ensures width { rows.new.width ≡ rows.old.width }
    ensures few { IsFew rows.old size → IsFew rows.new size }
    ensures kept { (c : Context) → LeavesFar rows.old follows.now c → LeavesFar rows.new follows.now c }
    ensures rest { LeavesFar rows.new follows.now (between prev next) }
{
    for position in 0..size {
        let wanted = !is_near(follows.row(prev, next, position), position);
        rows.insert_if(0, position, wanted);
    }
}

/// Whether the bits of the row lie near the position, so many places on at most.
pub(crate) fn is_near(row: &[u8], position: usize) -> bool
    requires { length row.now ≤ 64 }
    ensures { IsTrue result → (k : ℕ) → has_bit row.now k ≡ true → IsNearFrom position k }
{
    for bit in 0..BYTE_BITS * row.len() {
        if contains_bit(row, bit) && (bit < position || bit - position >= DISTANCE_COUNT) {
            return false;
        }
    }
    true
}

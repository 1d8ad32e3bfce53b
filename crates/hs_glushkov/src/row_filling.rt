//! The rows of a table of masks.

ghost use Rattle.std.specs.Prelude.{◌≡◌, ℕ, ◌<◌, ◌&&◌, ◌||◌, ◌==◌, IfOk, IsTrue};
ghost use Rattle.hs_base.specs.declared.context.Prev.{Prev};
ghost use Rattle.hs_base.specs.Contexts.{Context, class_of};
ghost use Rattle.hs_base.specs.ContextSets.{has_context};
ghost use Rattle.hs_engine.specs.RowSizes.{square_count};
ghost use Rattle.hs_engine.specs.Rows.{in_row, in_square};
ghost use Rattle.hs_engine.specs.Between.{between};
ghost use Rattle.hs_glushkov.specs.FollowTables.{is_followed};
ghost use Rattle.hs_glushkov.specs.Squares.{class_numbered, prev_numbered};

use crate::follow_masks::FollowMasks;
use hs_base::{Mask, Next, Prev};
use hs_engine::{CLASS_COUNT, FollowRows};
use std::alloc::{AllocError, Global};

/// The rows of the table: a square for each context in which a byte comes next, or one for all where no mask tells two
/// contexts apart.
pub fn rows_of(alloc: Global, follows: &FollowMasks) -> Result<FollowRows, AllocError>
    ensures size { IfOk result (λ rows. rows.size ≡ follows.now.size) }
    ensures follows { IfOk result (λ rows.
        (x y : ℕ) (prev : Prev) (b : ℕ) →
        in_row rows x y (between prev (class_of b)) ≡
        is_followed follows.now x y (between prev (class_of b))) }
{
    let mut rows = FollowRows::new(alloc, follows.size, !is_alike(follows))?;
    for square in 0..rows.square_count() {
        let prev = prev_numbered(square / CLASS_COUNT);
        let class = class_numbered(square % CLASS_COUNT);
        fill_square(follows, prev, class, square, &mut rows);
    }
    Ok(rows)
}

/// Fills the square with what follows in that context.
fn fill_square(follows: &FollowMasks, prev: Prev, class: Next, square: usize, rows: &mut FollowRows)
    requires size { rows.old.size ≡ follows.now.size }
    requires square { square < square_count rows.old.by_context }
    ensures size { rows.new.size ≡ rows.old.size }
    ensures by_context { rows.new.by_context ≡ rows.old.by_context }
    ensures filled { (k x y : ℕ) →
        in_square rows.new k x y ≡
        (((k == square) && is_followed follows.now x y (between prev class))
        || in_square rows.old k x y) }
{
    for from in 0..follows.size {
        fill_row(follows, prev, class, square, from, rows);
    }
}

/// Fills the row of one position.
fn fill_row(
    follows: &FollowMasks,
    prev: Prev,
    class: Next,
    square: usize,
    from: usize,
    rows: &mut FollowRows,
)
    requires size { rows.old.size ≡ follows.now.size }
    requires square { square < square_count rows.old.by_context }
    requires from { from < follows.now.size }
    ensures size { rows.new.size ≡ rows.old.size }
    ensures by_context { rows.new.by_context ≡ rows.old.by_context }
    ensures filled { (k x y : ℕ) →
        in_square rows.new k x y ≡
        (((x == from) && ((k == square) && is_followed follows.now x y (between prev class)))
        || in_square rows.old k x y) }
{
    for to in 0..follows.size {
        fill_bit(follows, prev, class, square, from, to, rows);
    }
}

/// Sets the bit of the one position in the row of the other, if it follows in that context.
fn fill_bit(
    follows: &FollowMasks,
    prev: Prev,
    class: Next,
    square: usize,
    from: usize,
    to: usize,
    rows: &mut FollowRows,
)
    requires size { rows.old.size ≡ follows.now.size }
    requires square { square < square_count rows.old.by_context }
    requires from { from < follows.now.size }
    requires to { to < follows.now.size }
    ensures size { rows.new.size ≡ rows.old.size }
    ensures by_context { rows.new.by_context ≡ rows.old.by_context }
    ensures filled { (k x y : ℕ) →
        in_square rows.new k x y ≡
        (((y == to) && ((x == from)
        && ((k == square) && is_followed follows.now x y (between prev class))))
        || in_square rows.old k x y) }
{
    if follows.mask(from, to).contains(prev, class) {
        rows.insert(square, from, to);
    }
}

/// Whether no mask of the table tells two contexts apart.
fn is_alike(follows: &FollowMasks) -> bool
    ensures { IsTrue result → (x y : ℕ) (c d : Context) →
        is_followed follows.now x y c ≡ is_followed follows.now x y d }
{
    for mask in &follows.masks {
        if !is_one_for_all(*mask) {
            return false;
        }
    }
    true
}

/// Whether the mask has every context or none.
fn is_one_for_all(mask: Mask) -> bool
    ensures { IsTrue result → (c d : Context) → has_context mask c ≡ has_context mask d }
{
    mask == Mask::all() || mask == Mask::empty()
}

/// What stands before, by its number.
fn prev_numbered(number: usize) -> Prev
    ensures { result ≡ prev_numbered number }
{
    match number {
        0 => Prev::Start,
        1 => Prev::Word,
        2 => Prev::Newline,
        _ => Prev::Other,
    }
}

/// The class of a byte, by its number.
fn class_numbered(number: usize) -> Next
    ensures { result ≡ class_numbered number }
{
    match number {
        0 => Next::Word,
        1 => Next::Newline,
        _ => Next::Other,
    }
}

//! Whether two pieces are equal.

ghost use Rattle.std.specs.Prelude.{◌≡◌, ◌↔◌, ◌==◌, ◌<◌, ℕ, IsTrue, map};
ghost use Rattle.std.specs.Int.{bit_at};
ghost use Rattle.hs_base.specs.ByteSets.{members};
ghost use Rattle.hs_base.specs.LiteralView.{literal_byte};
ghost use Rattle.hs_expr.specs.Meaning.{tree_of};
ghost use Rattle.hs_pieces.specs.Meaning.{plain_piece};

use crate::piece::Piece;
use hs_base::{ByteSet, LitByte};
use hs_expr::Expr;

/// Whether the two pieces are equal.
pub fn same_piece(a: &Piece, b: &Piece) -> bool
    ensures { IsTrue result ↔ (plain_piece a.now ≡ plain_piece b.now) }
{
    match (a, b) {
        (Piece::Lit(xs), Piece::Lit(ys)) => same_literal(xs, ys),
        (Piece::Nfa(x), Piece::Nfa(y)) => same_tree(x, y),
        (Piece::Rep(x, n, m), Piece::Rep(y, k, l)) => *n == *k && *m == *l && same_set(x, y),
        _ => false,
    }
}

/// Whether the two literals are equal.
fn same_literal(xs: &[LitByte], ys: &[LitByte]) -> bool
    ensures { IsTrue result ↔ (map literal_byte xs.now ≡ map literal_byte ys.now) }
{
    if xs.len() != ys.len() {
        return false;
    }
    for (k, x) in xs.iter().enumerate() {
        if !same_byte(*x, ys[k]) {
            return false;
        }
    }
    true
}

/// Whether the two bytes of literals are equal.
fn same_byte(x: LitByte, y: LitByte) -> bool
    ensures { IsTrue result ↔ (literal_byte x ≡ literal_byte y) }
{
    x.byte == y.byte && x.both_cases == y.both_cases
}

/// Whether the two sets are equal.
fn same_set(x: &ByteSet, y: &ByteSet) -> bool
    ensures { IsTrue result ↔ (members x.now ≡ members y.now) }
{
    let xs = x.words();
    let ys = y.words();
    for k in 0..4 {
        if !same_word(xs[k], ys[k]) {
            return false;
        }
    }
    true
}

/// Whether the two words have the same bits.
fn same_word(x: u64, y: u64) -> bool
    ensures { IsTrue result ↔ ((i : ℕ) → i < 64 → (bit_at x i == 1) ≡ (bit_at y i == 1)) }
{
    x == y
}

/// Whether the two expressions are equal.
#[cycle(same_tree)]
fn same_tree(a: &Expr, b: &Expr) -> bool
    ensures { IsTrue result ↔ (tree_of a.now ≡ tree_of b.now) }
{
    match (a, b) {
        (Expr::Empty, Expr::Empty) => true,
        (Expr::Class(x), Expr::Class(y)) => same_set(x, y),
        (Expr::Points(xs), Expr::Points(ys)) => same_ranges(xs, ys),
        (Expr::Assert(x), Expr::Assert(y)) => *x == *y,
        (Expr::Cat(xs), Expr::Cat(ys)) => same_trees(xs, ys),
        (Expr::Alt(xs), Expr::Alt(ys)) => same_trees(xs, ys),
        (Expr::Repeat(x, n, m), Expr::Repeat(y, k, l)) => {
            *n == *k && *m == *l && same_tree(x, y)
        }
        _ => false,
    }
}

/// Whether the expressions are equal, each to that of the same number.
#[cycle(same_tree)]
fn same_trees(xs: &[Expr], ys: &[Expr]) -> bool
    ensures { IsTrue result ↔ (map tree_of xs.now ≡ map tree_of ys.now) }
{
    if xs.len() != ys.len() {
        return false;
    }
    for (k, x) in xs.iter().enumerate() {
        if !same_tree(x, &ys[k]) {
            return false;
        }
    }
    true
}

/// Whether the two lists of ranges are equal.
fn same_ranges(xs: &[(u32, u32)], ys: &[(u32, u32)]) -> bool
    ensures { IsTrue result ↔ (xs.now ≡ ys.now) }
{
    if xs.len() != ys.len() {
        return false;
    }
    for (k, x) in xs.iter().enumerate() {
        if !same_range(x, &ys[k]) {
            return false;
        }
    }
    true
}

/// Whether the two ranges are equal.
fn same_range(x: &(u32, u32), y: &(u32, u32)) -> bool
    ensures { IsTrue result ↔ (x.now ≡ y.now) }
{
    x.0 == y.0 && x.1 == y.1
}

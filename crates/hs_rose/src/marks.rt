//! Numbers that tell most pieces apart without a look at the whole of them.

ghost use Rattle.std.specs.Prelude.{◌≡◌, map};
ghost use Rattle.hs_base.specs.ByteSets.{members};
ghost use Rattle.hs_base.specs.Trees.{trees_of};
ghost use Rattle.hs_expr.specs.Meaning.{tree_of};
ghost use Rattle.hs_pieces.specs.Meaning.{plain_piece};
ghost use Rattle.hs_rose.specs.Marks.{mark_of, mixed, set_mark, tree_mark, trees_mark};

use crate::literal_index::key_byte;
use hs_base::{ByteSet, LitByte};
use hs_expr::Expr;
use hs_pieces::Piece;

/// The mark of a piece that isn't a literal; equal pieces have the same one.
pub(crate) fn mark_of(piece: &Piece) -> u64
    ensures { result ≡ mark_of (plain_piece piece.now) }
{
    match piece {
        Piece::Lit(_) => 0,
        Piece::Nfa(expr) => tree_mark(expr),
        Piece::Rep(set, least, _) => mixed(set_mark(set), u64::from(*least)),
    }
}

/// The mark of an expression.
#[cycle(tree_mark)]
fn tree_mark(expr: &Expr) -> u64
    ensures { result ≡ tree_mark (tree_of expr.now) }
{
    match expr {
        Expr::Empty => 1,
        Expr::Class(set) => set_mark(set),
        Expr::Points(_) => 2,
        Expr::Assert(_) => 3,
        Expr::Cat(items) => trees_mark(items, 4),
        Expr::Alt(items) => trees_mark(items, 5),
        Expr::Repeat(body, least, _) => mixed(tree_mark(body), u64::from(*least)),
    }
}

/// The marks of several expressions, mixed into the first number one after the other.
#[cycle(tree_mark)]
fn trees_mark(items: &[Expr], first: u64) -> u64
    ensures { result ≡ trees_mark (trees_of (map tree_of items.now)) first }
{
    let mut mark = first;
    for item in items {
        mark = mixed(mark, tree_mark(item));
    }
    mark
}

/// The mark of a set: of one that can stand in a literal, what stands there.
fn set_mark(set: &ByteSet) -> u64
    ensures { result ≡ set_mark (members set.now) }
{
    match LitByte::of_set(set) {
        Some(x) => u64::from(key_byte(x)),
        None => 6,
    }
}

/// The mark with a number mixed into it.
#[tactic(auto, unfolding(crate::specs::Marks::mixed))]
fn mixed(mark: u64, number: u64) -> u64
    ensures { result ≡ mixed mark number }
{
    mark.wrapping_mul(31).wrapping_add(number)
}

//! What is kept of a piece.

ghost use Rattle.std.specs.Prelude.{◌≡◌, ◌+◌, ◌/◌, ◌≤◌};
ghost use Rattle.hs_base.specs.WrittenOut.{IsPlain, count, write_out};
ghost use Rattle.hs_expr.specs.Meaning.{tree_of};

use crate::kind::Kind;
use hs_bits::BYTE_BITS;
use hs_expr::{Expr, positions};
use hs_pieces::Piece;

/// The length in bytes of the entries of a literal.
const LITERAL_SIZE: u16 = 4;

/// The length in bytes of a distance.
const DISTANCE_SIZE: u16 = 2;

/// What is kept of a piece: of which kind it is, and how many bytes it takes.
#[derive(Clone, Copy, Debug)]
pub(crate) struct Shape {
    /// The kind of the piece's role.
    pub kind: Kind,
    /// The bytes.
    pub size: u16,
}

impl Shape {
    ghost use Rattle.hs_rose.specs.Shapes.{shape, shape_for};
    ghost use Rattle.hs_rose.specs.Runnable.{IsRunnable};
    ghost use Rattle.hs_pieces.specs.Meaning.{plain_piece};

    /// What is kept of the piece behind so many others, in a chain whose first one looks back or not.
    pub fn of(looks_back: bool, before: usize, piece: &Piece) -> Shape
        requires { IsRunnable (plain_piece piece.now) }
        ensures { result ≡ shape_for looks_back before (plain_piece piece.now) }
    {
        match piece {
            Piece::Lit(_) if before == 0 || (before == 1 && looks_back) => {
                Shape::new(Kind::BareLiteral, 0)
            }
            Piece::Lit(_) => Shape::new(Kind::Literal, LITERAL_SIZE),
            Piece::Nfa(_) if before == 0 && looks_back => Shape::new(Kind::LookBack, 0),
            Piece::Nfa(expr) => Shape::new(Kind::Positions, bytes_for(position_count(expr))),
            Piece::Rep(_, _, None) => Shape::new(Kind::First, DISTANCE_SIZE),
            Piece::Rep(_, least, Some(_)) if *least <= 1 => Shape::new(Kind::Last, DISTANCE_SIZE),
            Piece::Rep(_, _, Some(greatest)) => Shape::new(Kind::Ring, bytes_for(*greatest)),
        }
    }

    /// Of that kind, and so many bytes.
    fn new(kind: Kind, size: u16) -> Shape
        ensures { result ≡ shape kind size }
    {
        Shape { kind, size }
    }
}

/// How many positions the expression has.
fn position_count(expr: &Expr) -> u32
    requires plain { IsPlain (tree_of expr.now) }
    requires few { count (write_out (tree_of expr.now)) ≤ 512 }
    ensures { result ≡ count (write_out (tree_of expr.now)) }
{
    positions(expr)
}

/// How many bytes have so many bits.
fn bytes_for(bits: u32) -> u16
    requires { bits ≤ 32767 }
    ensures { result ≡ (bits + 7) / 8 }
{
    ((bits + 7) / BYTE_BITS as u32) as u16
}

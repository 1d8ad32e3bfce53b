//! Pieces and chains.
ghost use Rattle.std.specs.Prelude.{◌≡◌};
ghost use Rattle.hs_pieces.specs.LookBack.{is_narrow};
ghost use Rattle.hs_expr.specs.Counts.{greatest_width};
ghost use Rattle.hs_expr.specs.Meaning.{tree_of};

use hs_base::{ByteSet, LitByte};
use hs_expr::{Expr, greatest_width};

/// The bytes before a literal that are looked at again when it has been found.
pub const LOOK_BACK_WINDOW: u32 = 16;

/// A part of a chain.
#[derive(Debug, Drop)]
pub enum Piece {
    /// 2 to 32 bytes in a row.
    Lit(Vec<LitByte>),
    /// An expression.
    Nfa(Expr),
    /// So many bytes of the set: at least the first number and, where there is a second, at most that.
    Rep(ByteSet, u32, Option<u32>),
}

/// Pieces, one after the other.
#[derive(Debug, Drop)]
pub struct Chain(pub Vec<Piece>);

impl Chain {
    ghost use Rattle.hs_pieces.specs.Meaning.{plain_chain};
    ghost use Rattle.hs_pieces.specs.LookBack.{begins_with_look_back};

    /// Whether the first piece is a look-back piece: an expression of at most `LOOK_BACK_WINDOW` bytes before a
    /// literal, which can be decided once the literal has been found.
    pub fn begins_with_look_back(&self) -> bool
        ensures { result ≡ begins_with_look_back (plain_chain self.now) }
    {
        match self.0.as_slice() {
            [Piece::Nfa(expr), Piece::Lit(_), ..] => is_narrow(expr),
            _ => false,
        }
    }
}

/// Whether each match of the expression fits the window.
fn is_narrow(expr: &Expr) -> bool
    ensures { result ≡ is_narrow (greatest_width (tree_of expr.now)) }
{
    match greatest_width(expr) {
        Some(width) => width <= LOOK_BACK_WINDOW,
        None => false,
    }
}

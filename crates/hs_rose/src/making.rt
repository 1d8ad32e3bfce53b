//! The engine of a piece.

ghost use Rattle.std.specs.Prelude.{◌≡◌, ℕ, ◌<◌, ◌≤◌, Bool, false, true, Option, None, Some, IfOk, IsTrue, MatchOption};
ghost use Rattle.std.specs.Prelude.{List, map, slice_get, vec_len};
ghost use Rattle.hs_base.specs.ByteSets.{members};
ghost use Rattle.hs_base.specs.Chains.{nfa, rep, is_long};
ghost use Rattle.hs_base.specs.EndAssertions.{has_embedded_end};
ghost use Rattle.hs_base.specs.Lists.{Each};
ghost use Rattle.hs_base.specs.Trees.{AreBounds, greatest_bound, class, repeat};
ghost use Rattle.hs_base.specs.WrittenOut.{IsPlain, write_out, count};
ghost use Rattle.hs_expr.specs.Meaning.{tree_of};
ghost use Rattle.hs_pieces.specs.Meaning.{plain_piece};
ghost use Rattle.hs_rose.specs.Made.{IsMadeOf, IsMade, IsMarked, IsNullMask, model_of};
ghost use Rattle.hs_rose.specs.Marks.{mark_of};
ghost use Rattle.hs_rose.specs.Numbering.{IsNew, IsNumbered};
ghost use Rattle.hs_rose.specs.PieceEngines.{IsEngineOf};
ghost use Rattle.hs_rose.specs.Runnable.{IsRunnable, IsRun};

use crate::engine::PieceEngine;
use crate::marks::mark_of;
use crate::positions::PositionEngine;
use hs_base::{ByteSet, Mask};
use hs_expr::Expr;
use hs_glushkov::build;
use hs_pieces::{Piece, same_piece};
use hs_repeat::{First, Last, Ring};
use std::alloc::{AllocError, Global};

/// What is made of a piece that isn't a literal.
#[derive(Debug, Drop)]
pub(crate) struct Made {
    /// The mark of the piece.
    pub mark: u64,
    /// The piece.
    pub model: Piece,
    /// What runs it.
    pub engine: PieceEngine,
    /// The contexts in which it has the empty span.
    pub null: Mask,
}

/// The number of what is made of the piece: it is made now where none of these is of an equal one.
pub(crate) fn number_of(
    alloc: Global,
    made: &mut Vec<Made>,
    piece: &Piece,
) -> Result<usize, AllocError>
    requires runnable { IsRunnable (plain_piece piece.now) }
    requires run { IsRun (plain_piece piece.now) }
    ensures numbered { IfOk result (λ number. Each IsMarked made.old.items →
        IsNumbered (map model_of made.old.items) (plain_piece piece.now) (map model_of made.new.items) number) }
    ensures below { IfOk result (λ number. number < vec_len made.new) }
    ensures made { IfOk result (λ number. Each IsMade made.old.items → Each IsMade made.new.items) }
    ensures marked { IfOk result (λ number. Each IsMarked made.old.items → Each IsMarked made.new.items) }
{
    if let Some(number) = find(made, piece) {
        return Ok(number);
    }
    let number = made.len();
    made.push(make(alloc, piece)?)?;
    Ok(number)
}

/// The number of what is made of an equal piece.
fn find(made: &[Made], piece: &Piece) -> Option<usize>
    ensures { MatchOption result
        (Each IsMarked made.now → IsNew (map model_of made.now) (plain_piece piece.now))
        (λ number. slice_get (map model_of made.now) number ≡ Some (plain_piece piece.now)) }
{
    let mark = mark_of(piece);
    for (number, other) in made.iter().enumerate() {
        if is_of(other, piece, mark) {
            return Some(number);
        }
    }
    None
}

/// Whether it is made of the piece, which has that mark.
fn is_of(made: &Made, piece: &Piece, mark: u64) -> bool
    requires { mark ≡ mark_of (plain_piece piece.now) }
    ensures same { IsTrue result → model_of made.now ≡ plain_piece piece.now }
    ensures all { IsMarked made.now → model_of made.now ≡ plain_piece piece.now → IsTrue result }
{
    made.mark == mark && same_piece(&made.model, piece)
}

/// What is made of a piece that isn't a literal.
fn make(alloc: Global, piece: &Piece) -> Result<Made, AllocError>
    requires runnable { IsRunnable (plain_piece piece.now) }
    requires run { IsRun (plain_piece piece.now) }
    ensures model { IfOk result (λ made. model_of made ≡ plain_piece piece.now) }
    ensures made { IfOk result IsMade }
    ensures marked { IfOk result IsMarked }
{
    match piece {
        Piece::Lit(_) => unreachable!(),
        Piece::Nfa(expr) => make_positions(alloc, expr),
        Piece::Rep(set, least, greatest) => Ok(make_repeat(*set, *least, *greatest)),
    }
}

/// What is made of an expression.
fn make_positions(alloc: Global, expr: &Expr) -> Result<Made, AllocError>
    requires plain { IsPlain (tree_of expr.now) }
    requires few { count (write_out (tree_of expr.now)) ≤ 512 }
    requires ends_last { has_embedded_end (tree_of expr.now) false ≡ false }
    ensures model { IfOk result (λ made. model_of made ≡ nfa (tree_of expr.now)) }
    ensures made { IfOk result (λ made. IsMadeOf made.engine made.null (nfa (tree_of expr.now))) }
    ensures marked { IfOk result IsMarked }
{
    let automaton = build(alloc, expr)?;
    let positions = PositionEngine::build(alloc, &automaton)?;
    let model = Piece::Nfa(expr.copy(alloc)?);
    Ok(Made {
        mark: mark_of(&model),
        model,
        engine: PieceEngine::Positions(Box::new(alloc, positions)?),
        null: automaton.null(),
    })
}

/// What is made of a long repeat of a set.
fn make_repeat(set: ByteSet, least: u32, greatest: Option<u32>) -> Made
    requires bounds { AreBounds least greatest }
    requires long { is_long least greatest ≡ true }
    ensures model { model_of result ≡ rep (members set) least greatest }
    ensures made { IsMadeOf result.engine result.null (rep (members set) least greatest) }
    ensures marked { IsMarked result }
{
    let model = Piece::Rep(set, least, greatest);
    Made {
        mark: mark_of(&model),
        model,
        engine: repeat_engine(set, least, greatest),
        null: repeat_null(least),
    }
}

/// What runs a long repeat of a set.
fn repeat_engine(set: ByteSet, least: u32, greatest: Option<u32>) -> PieceEngine
    requires bounds { AreBounds least greatest }
    requires long { is_long least greatest ≡ true }
    ensures { IsEngineOf result (rep (members set) least greatest) }
{
    match greatest {
        None => PieceEngine::First(First::new(set, least)),
        Some(greatest) => bounded_engine(set, least, greatest),
    }
}

/// What runs a repeat with an end.
fn bounded_engine(set: ByteSet, least: u32, greatest: u32) -> PieceEngine
    requires some { 0 < greatest }
    requires order { least ≤ greatest }
    requires bounded { greatest ≤ greatest_bound }
    ensures { IsEngineOf result (rep (members set) least (Some greatest)) }
{
    match least {
        0 => PieceEngine::Last(Last::new(set, greatest)),
        1 => PieceEngine::Last(Last::new(set, greatest)),
        _ => PieceEngine::Ring(Ring::new(set, least, greatest)),
    }
}

/// Where a repeat of a set from that number on has the empty span.
fn repeat_null(least: u32) -> Mask
    ensures { (set : List Bool) (greatest : Option ℕ) → IsNullMask result (repeat (class set) least greatest) }
{
    if least == 0 {
        Mask::all()
    } else {
        Mask::empty()
    }
}

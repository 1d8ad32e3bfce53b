//! The engines that take blocks, as a program runs them: of the expression as one piece. It is `#[cfg(test)]`.
ghost use Rattle.std.specs.Prelude.{◌≡◌, ◌≤◌, [], ◌∷◌, false, IfOk, length, map};
ghost use Rattle.hs_base.specs.Chains.{nfa};
ghost use Rattle.hs_base.specs.EndAssertions.{has_embedded_end};
ghost use Rattle.hs_base.specs.WrittenOut.{IsPlain, count, write_out};
ghost use Rattle.hs_expr.specs.Meaning.{tree_of};
ghost use Rattle.hs_rose.specs.Listing.{plain_chains};

use crate::engines::Judged;
use crate::verdicts::Verdict;
use hs_base::{Entry, ExprId, Ext, Flags};
use hs_expr::{Expr, has_embedded_end, is_plain, positions};
use hs_pieces::{Chain, Piece};
use hs_repeat::{First, Last, Ring};
use hs_rose::{PieceEngine, Program};
use std::alloc::{AllocError, Global};
use std::test::Fail;

/// The chains of a list of one entry, whose expression is one piece.
fn one_piece(alloc: Global, expr: &Expr) -> Result<Vec<Vec<Chain>>, AllocError>
    ensures { IfOk result (λ chains. map plain_chains chains.items ≡ ((nfa (tree_of expr.now) ∷ []) ∷ []) ∷ []) }
{
    let mut pieces = Vec::new(alloc);
    pieces.push(Piece::Nfa(expr.copy(alloc)?))?;
    let mut chain = Vec::new(alloc);
    chain.push(Chain(pieces))?;
    let mut chains = Vec::new(alloc);
    chains.push(chain)?;
    Ok(chains)
}

/// The program of one entry whose expression is one piece.
fn program_of(alloc: Global, entries: &[Entry], expr: &Expr) -> Result<Program, AllocError>
    requires one { length entries.now ≡ 1 }
    requires plain { IsPlain (tree_of expr.now) }
    requires few { count (write_out (tree_of expr.now)) ≤ 512 }
    requires ends_last { has_embedded_end (tree_of expr.now) false ≡ false }
{
    let chains = one_piece(alloc, expr)?;
    Program::build(alloc, entries, &chains)
}

/// The engine by positions of an expression that has one.
fn by_positions(alloc: Global, expr: &Expr) -> Result<Vec<PieceEngine>, AllocError>
    requires plain { IsPlain (tree_of expr.now) }
    requires few { count (write_out (tree_of expr.now)) ≤ 512 }
    requires ends_last { has_embedded_end (tree_of expr.now) false ≡ false }
{
    let entries = [Entry {
        id: ExprId(1),
        flags: Flags(0),
        ext: Ext::NONE,
        text: Vec::new(alloc),
    }];
    let (_literals, engines) = program_of(alloc, &entries, expr)?.into_named();
    Ok(engines)
}

/// The engine by positions, if there is one.
fn positions_of(alloc: Global, expr: &Expr) -> Result<Vec<PieceEngine>, AllocError> {
    if is_plain(expr) && positions(expr) <= 512 && !has_embedded_end(expr, false) {
        by_positions(alloc, expr)
    } else {
        Ok(Vec::new(alloc))
    }
}

/// Puts the engines of a repeat of one set behind the others.
fn push_repeats(alloc: Global, expr: &Expr, engines: &mut Vec<PieceEngine>) -> Verdict {
    if let Some((first, _null)) = First::of(alloc, expr)? {
        engines.push(PieceEngine::First(first))?;
    }
    if let Some((last, _null)) = Last::of(alloc, expr)? {
        engines.push(PieceEngine::Last(last))?;
    }
    if let Some((ring, _null)) = Ring::of(alloc, expr)? {
        engines.push(PieceEngine::Ring(ring))?;
    }
    Ok(())
}

/// Each engine of a piece that runs the expression.
pub(crate) fn pieces_of(alloc: Global, expr: &Expr) -> Result<Vec<PieceEngine>, Fail> {
    let mut engines = positions_of(alloc, expr)?;
    push_repeats(alloc, expr, &mut engines)?;
    Ok(engines)
}

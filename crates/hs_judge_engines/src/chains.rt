//! The chains of an expression as one expression. It is `#[cfg(test)]`.

use hs_expr::Expr;
use hs_pieces::{Chain, Piece, split};
use std::alloc::{AllocError, Global};

/// The expression that a piece stands for.
fn meaning(alloc: Global, piece: &Piece) -> Result<Expr, AllocError> {
    match piece {
        Piece::Lit(bytes) => {
            let mut items = Vec::new(alloc);
            for byte in bytes {
                items.push(Expr::Class(byte.set()))?;
            }
            Ok(Expr::Cat(items))
        }
        Piece::Nfa(expr) => expr.copy(alloc),
        Piece::Rep(set, least, greatest) => {
            let body = Box::new(alloc, Expr::Class(*set))?;
            Ok(Expr::Repeat(body, *least, *greatest))
        }
    }
}

/// The expression that a chain stands for.
fn meaning_of_chain(alloc: Global, chain: &Chain) -> Result<Expr, AllocError> {
    let mut items = Vec::new(alloc);
    for piece in &chain.0 {
        items.push(meaning(alloc, piece)?)?;
    }
    Ok(Expr::Cat(items))
}

/// The expression that the chains stand for together.
fn meaning_of(alloc: Global, chains: &[Chain]) -> Result<Expr, AllocError> {
    let mut alternatives = Vec::new(alloc);
    for chain in chains {
        alternatives.push(meaning_of_chain(alloc, chain)?)?;
    }
    Ok(Expr::Alt(alternatives))
}

/// The chains of the expression.
fn chains_of(alloc: Global, expr: &Expr) -> Result<Vec<Chain>, AllocError> {
    split(alloc, expr)
}

/// The expression that the chains of an expression stand for together, if they are more than one of one piece.
pub(crate) fn split_up(alloc: Global, expr: &Expr) -> Result<Option<Expr>, AllocError> {
    let chains = chains_of(alloc, expr)?;
    if chains.len() == 1 && chains[0].0.len() == 1 {
        return Ok(None);
    }
    Ok(Some(meaning_of(alloc, &chains)?))
}

//! The chains of an expression, as text and as an expression. It is `#[cfg(test)]`.

use crate::cases::{Verdict, patterns_of};
use hs_base::{Entry, LitByte};
use hs_expr::Expr;
use hs_pieces::{Chain, Piece, split};
use hs_plain::Pattern;
use hs_utf8::lower;
use std::alloc::{AllocError, Global};
use std::test::Fail;

/// Appends a literal, with a capital where both cases count.
fn write_literal(text: &mut String, bytes: &[LitByte]) -> Verdict {
    text.push('"')?;
    for literal in bytes {
        let byte = if literal.both_cases {
            literal.byte.to_ascii_uppercase()
        } else {
            literal.byte
        };
        text.push(char::from(byte))?;
    }
    text.push('"')?;
    Ok(())
}

fn write_pieces(text: &mut String, pieces: &[Piece]) -> Verdict {
    for piece in pieces {
        match piece {
            Piece::Lit(bytes) => write_literal(text, bytes)?,
            Piece::Nfa(_) => text.push('e')?,
            Piece::Rep(_, _, _) => text.push('r')?,
        }
    }
    Ok(())
}

/// The chains of the expression.
fn chains_of(alloc: Global, expr: &Expr) -> Result<Vec<Chain>, AllocError> {
    split(alloc, expr)
}

/// Appends a chain, ended by `;`.
fn write_chain(text: &mut String, chain: &Chain) -> Verdict {
    if chain.begins_with_look_back() {
        text.push('~')?;
    }
    write_pieces(text, &chain.0)?;
    Ok(text.push(';')?)
}

/// The chains of the expression, each ended by `;`, with `~` in front where its first piece is a look-back piece: a
/// literal in quotes, `e` for an expression, and `r` for a repeat.
pub(crate) fn written(alloc: Global, expr: &Expr) -> Result<String, Fail> {
    let mut text = String::new(alloc);
    text.push(' ')?;
    for chain in &chains_of(alloc, expr)? {
        write_chain(&mut text, chain)?;
    }
    Ok(text)
}

/// The expression that a piece stands for.
fn meaning(alloc: Global, piece: &Piece) -> Result<Expr, Fail> {
    match piece {
        Piece::Lit(bytes) => {
            let mut items = Vec::new(alloc);
            for byte in bytes {
                items.push(Expr::Class(byte.set()))?;
            }
            Ok(Expr::Cat(items))
        }
        Piece::Nfa(expr) => Ok(expr.copy(alloc)?),
        Piece::Rep(set, least, greatest) => {
            let body = Box::new(alloc, Expr::Class(*set))?;
            Ok(Expr::Repeat(body, *least, *greatest))
        }
    }
}

fn meaning_of_chain(alloc: Global, chain: &Chain) -> Result<Expr, Fail> {
    let mut items = Vec::new(alloc);
    for piece in &chain.0 {
        items.push(meaning(alloc, piece)?)?;
    }
    Ok(Expr::Cat(items))
}

/// The expression that the chains of an expression stand for together.
pub(crate) fn together(alloc: Global, expr: &Expr) -> Result<Expr, Fail> {
    let mut alternatives = Vec::new(alloc);
    for chain in &chains_of(alloc, expr)? {
        alternatives.push(meaning_of_chain(alloc, chain)?)?;
    }
    Ok(Expr::Alt(alternatives))
}

/// The patterns of a list with the chains of their expressions in bytes in place of these.
pub(crate) fn in_chains(alloc: Global, entries: &[Entry]) -> Result<Vec<Pattern>, Fail> {
    let mut patterns = patterns_of(alloc, entries)?;
    for pattern in patterns.iter_mut() {
        pattern.expr = together(alloc, &lower(alloc, &pattern.expr)?)?;
    }
    Ok(patterns)
}

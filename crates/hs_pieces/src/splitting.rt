//! The split of an expression into chains.
ghost use Rattle.std.specs.Prelude.{◌≡◌, ◌∷◌, ◌++◌, [], map, IfOk};
ghost use Rattle.hs_base.specs.Chains.{chains_of, pieces_of};
ghost use Rattle.hs_base.specs.Items.{items_of};
ghost use Rattle.hs_base.specs.Trees.{IsProper};
ghost use Rattle.hs_expr.specs.Meaning.{tree_of, trees_of};
ghost use Rattle.hs_pieces.specs.Meaning.{plain_chain};
ghost use Rattle.hs_pieces.specs.Proper.{AreProperChains};
ghost use Rattle.hs_expr.specs.Waiting.{chains_of_all};

use crate::parts::Parts;
use crate::piece::Chain;
use hs_expr::{Expr, flatten};
use std::alloc::{AllocError, Global};

/// The chains of an expression, one for each of its alternatives, in order.
pub fn split(alloc: Global, expr: &Expr) -> Result<Vec<Chain>, AllocError>
    ensures chains { IfOk result (λ chains. map plain_chain chains.items ≡ chains_of (tree_of expr.now)) }
    ensures proper { IfOk result
        (λ chains. IsProper (tree_of expr.now) → AreProperChains (map plain_chain chains.items)) }
{
    let mut chains = Vec::new(alloc);
    push_chains(alloc, expr, &mut chains)?;
    Ok(chains)
}

/// Appends the chains of an expression.
#[cycle(push_chains)]
fn push_chains(alloc: Global, expr: &Expr, chains: &mut Vec<Chain>) -> Result<(), AllocError>
    ensures { IfOk result
        (λ done. map plain_chain chains.new.items ≡ map plain_chain chains.old.items ++ chains_of (tree_of expr.now)) }
{
    match expr {
        Expr::Alt(items) => push_chains_of_all(alloc, items, chains),
        Expr::Empty => push_chain(alloc, expr, chains),
        Expr::Class(_) => push_chain(alloc, expr, chains),
        Expr::Points(_) => push_chain(alloc, expr, chains),
        Expr::Assert(_) => push_chain(alloc, expr, chains),
        Expr::Cat(_) => push_chain(alloc, expr, chains),
        Expr::Repeat(_, _, _) => push_chain(alloc, expr, chains),
    }
}

/// Appends the chains of several alternatives.
#[cycle(push_chains)]
fn push_chains_of_all(
    alloc: Global,
    items: &[Expr],
    chains: &mut Vec<Chain>,
) -> Result<(), AllocError>
    ensures { IfOk result (λ done. map plain_chain chains.new.items
        ≡ map plain_chain chains.old.items ++ chains_of_all (trees_of (map tree_of items.now))) }
{
    for item in items {
        push_chains(alloc, item, chains)?;
    }
    Ok(())
}

/// Appends the chain of an expression that is no alternative.
fn push_chain(alloc: Global, expr: &Expr, chains: &mut Vec<Chain>) -> Result<(), AllocError>
    ensures { IfOk result (λ done. map plain_chain chains.new.items
        ≡ map plain_chain chains.old.items ++ pieces_of (items_of (tree_of expr.now)) ∷ []) }
{
    let items = flatten(alloc, expr)?;
    chains.push(chain_of(alloc, &items)?)?;
    Ok(())
}

/// The chain of items in a row.
fn chain_of(alloc: Global, items: &[Expr]) -> Result<Chain, AllocError>
    ensures { IfOk result (λ chain. plain_chain chain ≡ pieces_of (map tree_of items.now)) }
{
    let mut parts = Parts::new(alloc);
    for item in items {
        parts.add(alloc, item)?;
    }
    parts.finish(alloc)
}

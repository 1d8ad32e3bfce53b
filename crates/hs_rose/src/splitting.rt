//! The chains of an expression, of which a program is made.

ghost use Rattle.std.specs.Prelude.{◌≡◌, true, false, None, IfOk, map};
ghost use Rattle.hs_base.specs.Chains.{chains_of};
ghost use Rattle.hs_base.specs.EndAssertions.{has_embedded_end};
ghost use Rattle.hs_base.specs.Trees.{IsProper};
ghost use Rattle.hs_base.specs.WrittenOut.{IsPlain};
ghost use Rattle.hs_expr.specs.Meaning.{tree_of};
ghost use Rattle.hs_pieces.specs.Meaning.{plain_chain};
ghost use Rattle.hs_rose.specs.Runnable.{AreFew, AreRunnable};
ghost use Rattle.hs_support.specs.PieceCounts.{first_excess_of};

use hs_expr::Expr;
use hs_pieces::{Chain, split};
use std::alloc::{AllocError, Global};

/// The chains of an expression, none of whose pieces has too many positions: a program can be made of them. The only
/// error is want of memory: more chains than a role has numbers for are more than there is memory for.
pub fn runnable_chains(alloc: Global, expr: &Expr) -> Result<Vec<Chain>, AllocError>
    requires proper { IsProper (tree_of expr.now) }
    requires plain { IsPlain (tree_of expr.now) }
    requires few { first_excess_of (chains_of (tree_of expr.now)) ≡ None }
    requires ends_last { has_embedded_end (tree_of expr.now) false ≡ false }
    ensures chains { IfOk result (λ chains. map plain_chain chains.items ≡ chains_of (tree_of expr.now)) }
    ensures runnable { IfOk result (λ chains. AreRunnable (map plain_chain chains.items)) }
{
    let chains = split(alloc, expr)?;
    if are_few(&chains) {
        Ok(chains)
    } else {
        Err(AllocError)
    }
}

/// Whether chains, and the pieces of each, are few enough to be numbered.
fn are_few(chains: &[Chain]) -> bool
    ensures { result ≡ true → AreFew (map plain_chain chains.now) }
{
    for chain in chains {
        if chain.0.len() > u32::MAX as usize {
            return false;
        }
    }
    chains.len() <= u32::MAX as usize
}

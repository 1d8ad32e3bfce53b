//! The positions of an expression, counted piece by piece.
ghost use Rattle.std.specs.Prelude.{◌≡◌, ◌∷◌, [], map};
ghost use Rattle.std.specs.Option.{option_map};
ghost use Rattle.hs_base.specs.Chains.{chains_of, pieces_of};
ghost use Rattle.hs_base.specs.Items.{items_of, items_of_all};
ghost use Rattle.hs_expr.specs.Counts.{capped};
ghost use Rattle.hs_expr.specs.Meaning.{tree_of, trees_of};
ghost use Rattle.hs_expr.specs.Waiting.{chains_of_all};
ghost use Rattle.hs_support.specs.PieceCounts.{first_excess_of};
ghost use Rattle.hs_support.specs.Walking.{PassesItems};

use crate::walk::Walk;
use hs_expr::{Expr, is_once};

/// The positions of the first piece, in the order of the chains, that is an expression and has more than
/// `MAX_POSITIONS`; more than `GREATEST_COUNT` are told as that. It is found in one walk, and takes no memory.
#[cycle(excess_positions)]
pub fn excess_positions(expr: &Expr) -> Option<u32>
    ensures { result ≡ option_map capped (first_excess_of (chains_of (tree_of expr.now))) }
{
    match expr {
        Expr::Alt(items) => excess_of_all(items),
        Expr::Empty => excess_of_chain(expr),
        Expr::Class(_) => excess_of_chain(expr),
        Expr::Points(_) => excess_of_chain(expr),
        Expr::Assert(_) => excess_of_chain(expr),
        Expr::Cat(_) => excess_of_chain(expr),
        Expr::Repeat(_, _, _) => excess_of_chain(expr),
    }
}

/// Those of the first such piece of several alternatives.
#[cycle(excess_positions)]
fn excess_of_all(items: &[Expr]) -> Option<u32>
    ensures { result ≡ option_map capped (first_excess_of (chains_of_all (trees_of (map tree_of items.now)))) }
{
    for item in items {
        if let Some(count) = excess_positions(item) {
            return Some(count);
        }
    }
    None
}

/// Those of the first such piece of one chain.
fn excess_of_chain(expr: &Expr) -> Option<u32>
    ensures { result ≡ option_map capped (first_excess_of (pieces_of (items_of (tree_of expr.now)) ∷ [])) }
{
    walk_on(Walk::new(), expr).finish()
}

/// The walk on through the items of an expression.
#[cycle(walk_on)]
fn walk_on(walk: Walk, expr: &Expr) -> Walk
    ensures { PassesItems walk (items_of (tree_of expr.now)) result }
{
    match expr {
        Expr::Empty => walk,
        Expr::Cat(items) => walk_on_through_all(walk, items),
        Expr::Repeat(body, least, greatest) => {
            if is_once(*least, *greatest) {
                walk_on(walk, body)
            } else {
                walk.with_item(expr)
            }
        }
        Expr::Class(_) => walk.with_item(expr),
        Expr::Points(_) => walk.with_item(expr),
        Expr::Assert(_) => walk.with_item(expr),
        Expr::Alt(_) => walk.with_item(expr),
    }
}

/// The walk on through the items of several expressions, one after the other.
#[cycle(walk_on)]
fn walk_on_through_all(walk: Walk, items: &[Expr]) -> Walk
    ensures { PassesItems walk (items_of_all (trees_of (map tree_of items.now))) result }
{
    let mut now = walk;
    for item in items {
        now = walk_on(now, item);
    }
    now
}

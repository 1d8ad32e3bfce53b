//! An expression in bytes.
ghost use Rattle.std.specs.Prelude.{map, IfOk};
ghost use Rattle.hs_base.specs.Trees.{IsProper};
ghost use Rattle.hs_base.specs.WrittenOut.{IsPlain};
ghost use Rattle.hs_expr.specs.Items.{HaveSameSpans};
ghost use Rattle.hs_expr.specs.Meaning.{tree_of, trees_of};
ghost use Rattle.hs_utf8.specs.Lowered.{IsLowered, AreLowered, HasNoPoints};

use crate::set::lower_set;
use hs_expr::Expr;
use std::alloc::{AllocError, Global};

/// The expression in bytes: each set of code points becomes the alternatives of their encodings, and all else is
/// copied.
pub fn lower(alloc: Global, expr: &Expr) -> Result<Expr, AllocError>
    ensures lowered { IfOk result (λ new. IsLowered (tree_of expr.now) (tree_of new)) }
    ensures spans { IfOk result (λ new. HaveSameSpans (tree_of new) (tree_of expr.now)) }
    ensures no_points { IfOk result (λ new. HasNoPoints (tree_of new)) }
    ensures proper { IfOk result (λ new. IsProper (tree_of expr.now) → IsProper (tree_of new)) }
    ensures plain { IfOk result (λ new. IsProper (tree_of expr.now) → IsPlain (tree_of new)) }
{
    lower_node(alloc, expr)
}

/// The same, without what follows from it.
#[cycle(lower)]
fn lower_node(alloc: Global, expr: &Expr) -> Result<Expr, AllocError>
    ensures { IfOk result (λ new. IsLowered (tree_of expr.now) (tree_of new)) }
{
    match expr {
        Expr::Empty => Ok(Expr::Empty),
        Expr::Class(set) => Ok(Expr::Class(*set)),
        Expr::Points(ranges) => lower_set(alloc, ranges),
        Expr::Assert(assertion) => Ok(Expr::Assert(*assertion)),
        Expr::Cat(items) => Ok(Expr::Cat(lower_all(alloc, items)?)),
        Expr::Alt(items) => Ok(Expr::Alt(lower_all(alloc, items)?)),
        Expr::Repeat(body, least, greatest) => {
            let body = Box::new(alloc, lower_node(alloc, body)?)?;
            Ok(Expr::Repeat(body, *least, *greatest))
        }
    }
}

/// Several expressions in bytes.
#[cycle(lower)]
fn lower_all(alloc: Global, items: &[Expr]) -> Result<Vec<Expr>, AllocError>
    ensures { IfOk result (λ new. AreLowered (trees_of (map tree_of items.now)) (trees_of (map tree_of new.items))) }
{
    let mut all = Vec::with_capacity(alloc, items.len())?;
    for item in items {
        all.push(lower_node(alloc, item)?)?;
    }
    Ok(all)
}

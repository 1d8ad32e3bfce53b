//! The items of a concatenation.
ghost use Rattle.std.specs.Prelude.{◌≡◌, ◌∷◌, ◌++◌, [], map, IfOk};
ghost use Rattle.hs_base.specs.Lists.{Each};
ghost use Rattle.hs_base.specs.Trees.{cat, IsProper};
ghost use Rattle.hs_expr.specs.Meaning.{tree_of, trees_of};
ghost use Rattle.hs_expr.specs.Items.{items_of, items_of_all, is_once, HaveSameSpans};

use crate::expr::Expr;
use std::alloc::{AllocError, Global};

/// Copies of the items of a concatenation: nested concatenations are opened, a repeat of exactly one copy is its body,
/// and the empty text is left out. What is no concatenation is its own only item.
pub fn flatten(alloc: Global, expr: &Expr) -> Result<Vec<Expr>, AllocError>
    ensures items { IfOk result (λ items. map tree_of items.items ≡ items_of (tree_of expr.now)) }
    ensures spans { IfOk result
        (λ items. HaveSameSpans (cat (trees_of (map tree_of items.items))) (tree_of expr.now)) }
    ensures proper { IfOk result
        (λ items. IsProper (tree_of expr.now) → Each IsProper (map tree_of items.items)) }
{
    let mut items = Vec::new(alloc);
    push_items(alloc, expr, &mut items)?;
    Ok(items)
}

/// Appends the items of one expression.
#[cycle(push_items)]
fn push_items(alloc: Global, expr: &Expr, items: &mut Vec<Expr>) -> Result<(), AllocError>
    ensures { IfOk result
        (λ done. map tree_of items.new.items ≡ map tree_of items.old.items ++ items_of (tree_of expr.now)) }
{
    match expr {
        Expr::Empty => Ok(()),
        Expr::Cat(parts) => push_items_of_all(alloc, parts, items),
        Expr::Repeat(body, least, greatest) => {
            if is_once(*least, *greatest) {
                push_items(alloc, body, items)
            } else {
                push_copy(alloc, expr, items)
            }
        }
        Expr::Class(_) => push_copy(alloc, expr, items),
        Expr::Points(_) => push_copy(alloc, expr, items),
        Expr::Assert(_) => push_copy(alloc, expr, items),
        Expr::Alt(_) => push_copy(alloc, expr, items),
    }
}

/// Appends the items of several expressions, one after the other.
#[cycle(push_items)]
fn push_items_of_all(alloc: Global, parts: &[Expr], items: &mut Vec<Expr>) -> Result<(), AllocError>
    ensures { IfOk result (λ done. map tree_of items.new.items
        ≡ map tree_of items.old.items ++ items_of_all (trees_of (map tree_of parts.now))) }
{
    for part in parts {
        push_items(alloc, part, items)?;
    }
    Ok(())
}

/// Appends the expression as one item.
fn push_copy(alloc: Global, expr: &Expr, items: &mut Vec<Expr>) -> Result<(), AllocError>
    ensures { IfOk result
        (λ done. map tree_of items.new.items ≡ map tree_of items.old.items ++ tree_of expr.now ∷ []) }
{
    items.push(expr.copy(alloc)?)?;
    Ok(())
}

/// Whether the bounds allow exactly one copy.
pub fn is_once(least: u32, greatest: Option<u32>) -> bool
    ensures { result ≡ is_once least greatest }
{
    match greatest {
        None => false,
        Some(copies) => least == 1 && copies == 1,
    }
}

//! Whether an expression has no code points, and each of its repeats has bounds in order.
ghost use Rattle.std.specs.Prelude.{◌≤◌, ◌↔◌, map, IfSome, IsTrue};
ghost use Rattle.hs_base.specs.WrittenOut.{ArePlain, IsPlain};
ghost use Rattle.hs_expr.specs.Meaning.{tree_of, trees_of};

use crate::expr::Expr;

/// Whether the expression has no code points, and the bounds of its repeats are in order.
#[cycle(is_plain)]
pub fn is_plain(expr: &Expr) -> bool
    ensures { IsTrue result ↔ IsPlain (tree_of expr.now) }
{
    match expr {
        Expr::Empty => true,
        Expr::Class(_) => true,
        Expr::Points(_) => false,
        Expr::Assert(_) => true,
        Expr::Cat(items) => are_plain(items),
        Expr::Alt(items) => are_plain(items),
        Expr::Repeat(body, least, greatest) => {
            allows_copies(*least, *greatest) && is_plain(body)
        }
    }
}

/// Whether it is so of each.
#[cycle(is_plain)]
fn are_plain(items: &[Expr]) -> bool
    ensures { IsTrue result ↔ ArePlain (trees_of (map tree_of items.now)) }
{
    for item in items {
        if !is_plain(item) {
            return false;
        }
    }
    true
}

/// Whether some number of copies lies between the bounds: the least one then does.
pub(crate) fn allows_copies(least: u32, greatest: Option<u32>) -> bool
    ensures { IsTrue result ↔ IfSome greatest (λ bound. least ≤ bound) }
{
    match greatest {
        None => true,
        Some(bound) => least <= bound,
    }
}

//! Whether an expression has an assertion.

ghost use Rattle.std.specs.Prelude.{◌≡◌, map};
ghost use Rattle.hs_expr.specs.Meaning.{tree_of, trees_of};
ghost use Rattle.hs_base.specs.AssertionTests.{has_assertion, one_has_assertion};

use hs_expr::Expr;

/// Whether an assertion stands in the expression, also in the body of a repeat that allows no copy.
#[cycle(has_assertion)]
pub fn has_assertion(expr: &Expr) -> bool
    ensures { result ≡ has_assertion (tree_of expr.now) }
{
    match expr {
        Expr::Empty => false,
        Expr::Class(_) => false,
        Expr::Points(_) => false,
        Expr::Assert(_) => true,
        Expr::Cat(items) => one_has_assertion(items),
        Expr::Alt(items) => one_has_assertion(items),
        Expr::Repeat(body, _, _) => has_assertion(body),
    }
}

/// Whether one of the expressions has an assertion.
#[cycle(has_assertion)]
fn one_has_assertion(items: &[Expr]) -> bool
    ensures { result ≡ one_has_assertion (trees_of (map tree_of items.now)) }
{
    for item in items {
        if has_assertion(item) {
            return true;
        }
    }
    false
}

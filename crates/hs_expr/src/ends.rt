//! Whether bytes may be consumed behind an assertion of the stream's end.
ghost use Rattle.std.specs.Prelude.{◌≡◌, map};
ghost use Rattle.hs_base.specs.EndAssertions.{is_end_assertion, may_consume, one_may_consume};
ghost use Rattle.hs_base.specs.EndAssertions.{has_embedded_end, sequence_has_embedded_end, one_has_embedded_end};
ghost use Rattle.hs_expr.specs.Meaning.{tree_of, trees_of};

use crate::expr::Expr;
use hs_base::Assertion;

/// Whether the expression has an assertion of the stream's end behind which bytes may still be consumed, in it or, if
/// `after` says so, behind it.
#[cycle(has_embedded_end)]
pub fn has_embedded_end(expr: &Expr, after: bool) -> bool
    ensures { result ≡ has_embedded_end (tree_of expr.now) after }
{
    match expr {
        Expr::Empty => false,
        Expr::Class(_) => false,
        Expr::Points(_) => false,
        Expr::Assert(assertion) => after && is_end_assertion(*assertion),
        Expr::Cat(items) => sequence_has_embedded_end(items, after),
        Expr::Alt(items) => one_has_embedded_end(items, after),
        Expr::Repeat(body, _, None) => has_embedded_end(body, after || may_consume(body)),
        Expr::Repeat(_, _, Some(0)) => false,
        Expr::Repeat(body, _, Some(1)) => has_embedded_end(body, after),
        Expr::Repeat(body, _, Some(_)) => has_embedded_end(body, after || may_consume(body)),
    }
}

/// Whether items one after the other have one. They are gone through from the last, since what comes behind an item
/// counts.
#[cycle(has_embedded_end)]
fn sequence_has_embedded_end(items: &[Expr], after: bool) -> bool
    ensures { result ≡ sequence_has_embedded_end (trees_of (map tree_of items.now)) after }
{
    let mut consumed = after;
    let mut left = items.len();
    while left > 0 {
        left -= 1;
        let item = &items[left];
        if has_embedded_end(item, consumed) {
            return true;
        }
        consumed = consumed || may_consume(item);
    }
    false
}

/// Whether one of the alternatives has one.
#[cycle(has_embedded_end)]
fn one_has_embedded_end(items: &[Expr], after: bool) -> bool
    ensures { result ≡ one_has_embedded_end (trees_of (map tree_of items.now)) after }
{
    for item in items {
        if has_embedded_end(item, after) {
            return true;
        }
    }
    false
}

/// Whether the expression may consume bytes: whether its greatest width isn't 0.
#[cycle(may_consume)]
fn may_consume(expr: &Expr) -> bool
    ensures { result ≡ may_consume (tree_of expr.now) }
{
    match expr {
        Expr::Empty => false,
        Expr::Class(_) => true,
        Expr::Points(_) => true,
        Expr::Assert(_) => false,
        Expr::Cat(items) => one_may_consume(items),
        Expr::Alt(items) => one_may_consume(items),
        Expr::Repeat(_, _, Some(0)) => false,
        Expr::Repeat(body, _, _) => may_consume(body),
    }
}

/// Whether one of the expressions may consume bytes.
#[cycle(may_consume)]
fn one_may_consume(items: &[Expr]) -> bool
    ensures { result ≡ one_may_consume (trees_of (map tree_of items.now)) }
{
    for item in items {
        if may_consume(item) {
            return true;
        }
    }
    false
}

/// Whether it is `$` without multiline, `\Z` or `\z`.
fn is_end_assertion(assertion: Assertion) -> bool
    ensures { result ≡ is_end_assertion assertion }
{
    match assertion {
        Assertion::StreamStart => false,
        Assertion::LineStart => false,
        Assertion::LineEnd => false,
        Assertion::EndOrFinalNewline => true,
        Assertion::StreamEnd => true,
        Assertion::WordBoundary => false,
        Assertion::NotWordBoundary => false,
    }
}

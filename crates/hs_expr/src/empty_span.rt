//! Whether an expression matches the empty text.
ghost use Rattle.std.specs.Prelude.{◌↔◌, true, [], map, IsTrue};
ghost use Rattle.hs_base.specs.Assertions.{Holds};
ghost use Rattle.hs_base.specs.Spans.{Spans, CatSpans, AltSpans};
ghost use Rattle.hs_expr.specs.Meaning.{tree_of, trees_of};

use crate::expr::Expr;
use crate::plain::allows_copies;
use hs_base::Assertion;

/// Whether the expression matches the empty text: has a span from 0 to 0 in the stream that has no byte and has ended.
#[cycle(matches_empty)]
pub fn matches_empty(expr: &Expr) -> bool
    ensures { IsTrue result ↔ Spans [] true (tree_of expr.now) 0 0 }
{
    match expr {
        Expr::Empty => true,
        Expr::Class(_) => false,
        Expr::Points(_) => false,
        Expr::Assert(assertion) => holds_without_bytes(*assertion),
        Expr::Cat(items) => all_match_empty(items),
        Expr::Alt(items) => any_matches_empty(items),
        Expr::Repeat(body, least, greatest) => {
            *least == 0 || (allows_copies(*least, *greatest) && matches_empty(body))
        }
    }
}

/// Whether all the items match the empty text.
#[cycle(matches_empty)]
fn all_match_empty(items: &[Expr]) -> bool
    ensures { IsTrue result ↔ CatSpans [] true (trees_of (map tree_of items.now)) 0 0 }
{
    for item in items {
        if !matches_empty(item) {
            return false;
        }
    }
    true
}

/// Whether one of the alternatives matches the empty text.
#[cycle(matches_empty)]
fn any_matches_empty(items: &[Expr]) -> bool
    ensures { IsTrue result ↔ AltSpans [] true (trees_of (map tree_of items.now)) 0 0 }
{
    for item in items {
        if matches_empty(item) {
            return true;
        }
    }
    false
}

/// Whether the assertion holds in the stream that has no byte and has ended.
fn holds_without_bytes(assertion: Assertion) -> bool
    ensures { IsTrue result ↔ Holds [] true assertion 0 }
{
    match assertion {
        Assertion::StreamStart => true,
        Assertion::LineStart => true,
        Assertion::LineEnd => true,
        Assertion::EndOrFinalNewline => true,
        Assertion::StreamEnd => true,
        Assertion::WordBoundary => false,
        Assertion::NotWordBoundary => true,
    }
}

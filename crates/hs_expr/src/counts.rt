//! Widths and positions of an expression. Each is counted without limit and answered as at most `GREATEST_COUNT`.
ghost use Rattle.std.specs.Prelude.{◌≡◌, Some, fold, map, sum};
ghost use Rattle.std.specs.Option.{option_map};
ghost use Rattle.hs_expr.specs.Meaning.{tree_of, trees_of};
ghost use Rattle.hs_expr.specs.Counts.{capped, least_width, least_widths, least_of};
ghost use Rattle.hs_expr.specs.Counts.{greatest_width, greatest_widths, add_bounds, greater_bound, repeated_bound};
ghost use Rattle.hs_expr.specs.Counts.{positions, position_counts, written_copies};

use crate::expr::Expr;

/// The greatest count that is answered; greater ones are answered as this.
pub const GREATEST_COUNT: u32 = u32::MAX;

/// The bytes of the longest encoding of a code point (The Unicode Standard, "UTF-8").
pub const LONGEST_ENCODING: u32 = 4;

/// The bytes that every match has at least. A code point counts as one byte.
#[cycle(least_width)]
pub fn least_width(expr: &Expr) -> u32
    ensures { result ≡ capped (least_width (tree_of expr.now)) }
{
    match expr {
        Expr::Empty => 0,
        Expr::Class(_) => 1,
        Expr::Points(_) => 1,
        Expr::Assert(_) => 0,
        Expr::Cat(items) => sum_of_least_widths(items),
        Expr::Alt(items) => least_of_least_widths(items),
        Expr::Repeat(body, least, _) => least_width(body).saturating_mul(*least),
    }
}

/// The least width of items one after the other.
#[cycle(least_width)]
fn sum_of_least_widths(items: &[Expr]) -> u32
    ensures { result ≡ capped (sum (least_widths (trees_of (map tree_of items.now)))) }
{
    let mut width: u32 = 0;
    for item in items {
        width = width.saturating_add(least_width(item));
    }
    width
}

/// The least width of alternatives.
#[cycle(least_width)]
fn least_of_least_widths(items: &[Expr]) -> u32
    ensures { result ≡ capped (least_of (least_widths (trees_of (map tree_of items.now)))) }
{
    if items.is_empty() {
        return 0;
    }
    let mut width = GREATEST_COUNT;
    for item in items {
        width = width.min(least_width(item));
    }
    width
}

/// The bytes that every match has at most, and `None` where matches have no greatest length. A code point counts as
/// `LONGEST_ENCODING` bytes.
#[cycle(greatest_width)]
pub fn greatest_width(expr: &Expr) -> Option<u32>
    ensures { result ≡ option_map capped (greatest_width (tree_of expr.now)) }
{
    match expr {
        Expr::Empty => Some(0),
        Expr::Class(_) => Some(1),
        Expr::Points(_) => Some(LONGEST_ENCODING),
        Expr::Assert(_) => Some(0),
        Expr::Cat(items) => sum_of_greatest_widths(items),
        Expr::Alt(items) => greatest_of_greatest_widths(items),
        Expr::Repeat(body, _, greatest) => repeated_width(greatest_width(body), *greatest),
    }
}

/// The greatest width of items one after the other.
#[cycle(greatest_width)]
fn sum_of_greatest_widths(items: &[Expr]) -> Option<u32>
    ensures { result
        ≡ option_map capped (fold add_bounds (Some 0) (greatest_widths (trees_of (map tree_of items.now)))) }
{
    let mut width: u32 = 0;
    for item in items {
        width = width.saturating_add(greatest_width(item)?);
    }
    Some(width)
}

/// The greatest width of alternatives.
#[cycle(greatest_width)]
fn greatest_of_greatest_widths(items: &[Expr]) -> Option<u32>
    ensures { result
        ≡ option_map capped (fold greater_bound (Some 0) (greatest_widths (trees_of (map tree_of items.now)))) }
{
    let mut width: u32 = 0;
    for item in items {
        width = width.max(greatest_width(item)?);
    }
    Some(width)
}

/// The greatest width of so many copies of a body of that greatest width.
fn repeated_width(body: Option<u32>, copies: Option<u32>) -> Option<u32>
    ensures { result ≡ option_map capped (repeated_bound body copies) }
{
    match (body, copies) {
        (Some(width), Some(count)) => Some(width.saturating_mul(count)),
        (Some(0), None) => Some(0),
        (None, Some(0)) => Some(0),
        (Some(_), None) => None,
        (None, Some(_)) => None,
        (None, None) => None,
    }
}

/// The places for a byte, with every repeat written out: `{n,m}` as m copies of its body, and `{n,}` as n copies, but
/// at least one. A code point counts as one.
#[cycle(positions)]
pub fn positions(expr: &Expr) -> u32
    ensures { result ≡ capped (positions (tree_of expr.now)) }
{
    match expr {
        Expr::Empty => 0,
        Expr::Class(_) => 1,
        Expr::Points(_) => 1,
        Expr::Assert(_) => 0,
        Expr::Cat(items) => sum_of_positions(items),
        Expr::Alt(items) => sum_of_positions(items),
        Expr::Repeat(body, least, greatest) => {
            positions(body).saturating_mul(written_copies(*least, *greatest))
        }
    }
}

/// The positions of several expressions together.
#[cycle(positions)]
fn sum_of_positions(items: &[Expr]) -> u32
    ensures { result ≡ capped (sum (position_counts (trees_of (map tree_of items.now)))) }
{
    let mut count: u32 = 0;
    for item in items {
        count = count.saturating_add(positions(item));
    }
    count
}

/// How often the body stands in a repeat that is written out.
fn written_copies(least: u32, greatest: Option<u32>) -> u32
    ensures { result ≡ written_copies least greatest }
{
    match greatest {
        None => least.max(1),
        Some(copies) => copies,
    }
}

//! The pairs of a list of patterns, in order.

ghost use Rattle.std.specs.Prelude.{◌≡◌, ℕ, ◌+◌, ◌<◌, ◌≤◌, ◌⊎◌, ◌↔◌, ◌==◌, true, Some, length, map, take, slice_get};
ghost use Rattle.std.specs.Prelude.{IfOk, IfSome, IsTrue, MatchOption, OnOk};
ghost use Rattle.hs_base.specs.Lists.{Each, IsMember, IsRising};
ghost use Rattle.hs_base.specs.Patterns.{HasEnd, is_single};
ghost use Rattle.hs_base.specs.Reports.{IsLeast};
ghost use Rattle.hs_base.specs.Spans.{Spans};
ghost use Rattle.hs_base.specs.Told.{IsBefore};
ghost use Rattle.hs_expr.specs.Meaning.{tree_of};
ghost use Rattle.hs_plain.specs.OffsetSets.{room, has};
ghost use Rattle.hs_plain.specs.PlainPatterns.{pattern_of, patterns_of, pair_of, pairs_of, ArePairs, AddsPairs};

use crate::ends::ends_from;
use crate::offsets::Offsets;
use crate::pattern::Pattern;
use hs_base::Report;
use hs_expr::Expr;
use std::alloc::{AllocError, Global};

/// The pairs of a stream that has ended or may go on, each once, by end, then identifier.
pub fn pairs(
    alloc: Global,
    patterns: &[Pattern],
    stream: &[u8],
    ended: bool,
) -> Result<Vec<Report>, AllocError>
    ensures { IfOk result (λ found. ArePairs (patterns_of patterns.now) stream.now ended (pairs_of found.items)) }
{
    let mut found = Vec::new(alloc);
    if !has_begun(stream, ended) {
        return Ok(found);
    }
    for i in 0..patterns.len() {
        add_pattern(alloc, &patterns[i], stream, ended, &mut found)?;
    }
    Ok(found)
}

/// Whether a byte or the end of the stream is there.
fn has_begun(stream: &[u8], ended: bool) -> bool
    ensures { IsTrue result ↔ ((0 < length stream.now) ⊎ IsTrue ended) }
{
    0 < stream.len() || ended
}

fn add_pattern(
    alloc: Global,
    pattern: &Pattern,
    stream: &[u8],
    ended: bool,
    found: &mut Vec<Report>,
) -> Result<(), AllocError>
    ensures { OnOk result (AddsPairs
        (λ p. (p.to ≤ length stream.now) × HasEnd stream.now ended p.id p.to (pattern_of pattern.now))
        (pairs_of found.old.items) (pairs_of found.new.items)) }
{
    let ends = all_ends(alloc, &pattern.expr, stream, ended)?;
    for to in 0..ends.room() {
        add_end(pattern, &ends, to, found)?;
    }
    Ok(())
}

/// The ends of spans from any offset.
fn all_ends(alloc: Global, expr: &Expr, stream: &[u8], ended: bool) -> Result<Offsets, AllocError>
    ensures size { IfOk result (λ ends. room ends ≡ length stream.now + 1) }
    ensures each { IfOk result (λ ends. (to : ℕ) → (has ends to ≡ true)
        ↔ ((to ≤ length stream.now) × ((from : ℕ) × Spans stream.now ended (tree_of expr.now) from to))) }
{
    let starts = Offsets::all(alloc, stream.len() + 1)?;
    ends_from(alloc, expr, stream, ended, &starts)
}

/// AddsOffsets the pair of this end, where it is one within the pattern's bounds.
fn add_end(
    pattern: &Pattern,
    ends: &Offsets,
    to: usize,
    found: &mut Vec<Report>,
) -> Result<(), AllocError>
    ensures { OnOk result (AddsPairs
        (λ p. (p ≡ record { id = pattern.now.id.0; to = to }) × (has ends.now to ≡ true)
        × (pattern.now.least ≤ to) × (to ≤ pattern.now.greatest))
        (pairs_of found.old.items) (pairs_of found.new.items)) }
{
    let end = to as u64;
    if ends.contains(to) && pattern.least <= end && end <= pattern.greatest {
        return add_report(
            found,
            Report {
                id: pattern.id,
                to: end,
            },
        );
    }
    Ok(())
}

/// AddsOffsets a report in its place, unless it is there.
fn add_report(found: &mut Vec<Report>, report: Report) -> Result<(), AllocError>
    ensures { OnOk result (AddsPairs (λ p. p ≡ pair_of report) (pairs_of found.old.items) (pairs_of found.new.items)) }
{
    let place = place_of(found, report);
    if is_at(found, place, report) {
        return Ok(());
    }
    found.insert(place, report)?;
    Ok(())
}

/// How many reports stand before the given one, from the first on.
fn place_of(found: &[Report], report: Report) -> usize
    ensures within { result ≤ length found.now }
    ensures before { Each (λ p. IsBefore p (pair_of report)) (pairs_of (take result found.now)) }
    ensures behind { IfSome (slice_get found.now result) (λ r. IsBefore (pair_of r) (pair_of report) → ⊥) }
{
    for i in 0..found.len() {
        if !is_before(found[i], report) {
            return i;
        }
    }
    found.len()
}

fn is_before(left: Report, right: Report) -> bool
    ensures { IsTrue result ↔ IsBefore (pair_of left) (pair_of right) }
{
    left.to < right.to || (left.to == right.to && left.id.0 < right.id.0)
}

fn is_at(found: &[Report], place: usize, report: Report) -> bool
    ensures { IsTrue result ↔ (slice_get found.now place ≡ Some report) }
{
    place < found.len() && is_same(found[place], report)
}

/// Whether two reports are one.
pub(crate) fn is_same(left: Report, right: Report) -> bool
    ensures { IsTrue result ↔ (left ≡ right) }
{
    left.to == right.to && left.id.0 == right.id.0
}

//! The runs of a set of code points.
ghost use Rattle.std.specs.Prelude.{◌≡◌, ◌+◌, ◌≤◌, ℕ, Bool, map, max, OnOk};
ghost use Rattle.hs_expr.specs.Meaning.{tree_of};
ghost use Rattle.hs_utf8.specs.Digits.{IsRunEnd};
ghost use Rattle.hs_utf8.specs.Lowered.{ascii_end};
ghost use Rattle.hs_utf8.specs.Steps.{IsStretch, AddsRuns, AddsAllRuns};

use crate::byte_range::run_classes;
use crate::length::Length;
use hs_expr::Expr;
use regex_class::Class;
use std::alloc::{AllocError, Global};

/// Below this a code point is its own encoding.
pub(crate) const ASCII_END: u32 = 0x80;

/// The last surrogate: code points that have no encoding.
const LAST_SURROGATE: u32 = 0xDFFF;

/// Appends the runs of the members above ASCII.
pub(crate) fn push_runs(
    alloc: Global,
    class: &Class,
    parts: &mut Vec<Expr>,
) -> Result<(), AllocError>
    ensures { OnOk result (AddsAllRuns class.now.ranges.items
        (map tree_of parts.old.items) (map tree_of parts.new.items)) }
{
    for range in &class.ranges {
        let (first, last) = *range;
        push_range(alloc, first, last, parts)?;
    }
    Ok(())
}

/// Appends the runs of the code points from the first to the last.
fn push_range(alloc: Global, first: u32, last: u32, parts: &mut Vec<Expr>) -> Result<(), AllocError>
    requires order { first ≤ last }
    requires bounded { last ≤ 0x10FFFF }
    ensures { OnOk result ((member : ℕ → Bool) → IsStretch member first last →
        AddsRuns member (max first ascii_end) (max (last + 1) ascii_end)
        (map tree_of parts.old.items) (map tree_of parts.new.items)) }
{
    let mut from = first.max(ASCII_END);
    while from <= last {
        match Length::of(from) {
            Some(length) => {
                let end = run_end(from, last.min(length.last), length.tail);
                parts.push(run_classes(alloc, from, end)?)?;
                from = end + 1;
            }
            None => from = last.min(LAST_SURROGATE) + 1,
        }
    }
    Ok(())
}

/// The last code point of the longest run that begins at the first and goes no further than the end, where the
/// encodings have so many bytes behind their first.
fn run_end(first: u32, end: u32, tail: u32) -> u32
    requires order { first ≤ end }
    requires bounded { end ≤ 0x10FFFF }
    ensures { IsRunEnd tail first end result }
{
    if tail == 0 {
        return end;
    }
    if first % 64 == 0 && first + 63 <= end {
        run_end(first / 64, (end + 1) / 64 - 1, tail - 1) * 64 + 63
    } else {
        end.min(first / 64 * 64 + 63)
    }
}

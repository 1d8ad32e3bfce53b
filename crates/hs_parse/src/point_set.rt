//! Sets of code points, by the tests that they pass. A set is given by ranges, each by its first and its last.
ghost use Rattle.std.specs.Prelude.{not, if◌then◌else◌, IfOk, OnOk};
ghost use Rattle.regex_class.specs.Ranges.{in_ranges, HasExactly};
ghost use Rattle.hs_parse.specs.Points.{is_point_of, any_point, passes_point, AreRanges, AddsPoints};

use crate::set::Test;
use hs_syntax::Named;
use hs_utf8::folds;
use regex_class::{Class, MAX};
use std::alloc::{AllocError, Global};

/// All code points.
const ALL: [(u32, u32); 1] = [(0, MAX)];

/// All code points but the line feed.
const NOT_NEWLINE: [(u32, u32); 2] = [(0, 9), (11, MAX)];

/// The surrogates, which are no characters.
const SURROGATES: [(u32, u32); 1] = [(0xD800, 0xDFFF)];

/// The code points that pass the test.
fn test_points(alloc: Global, test: Test) -> Result<Vec<(u32, u32)>, AllocError>
    ensures { IfOk result (λ points. HasExactly points.items (passes_point test)) }
{
    match test {
        Test::Any(dotall) => Vec::from_slice(alloc, any_points(dotall)),
        Test::Range(caseless, first, last) => range_points(alloc, caseless, first, last),
        Test::Class(class, negated) => class_points(alloc, class, negated),
    }
}

/// What `.` takes.
fn any_points(dotall: bool) -> &'static [(u32, u32)]
    ensures { HasExactly result.now (any_point dotall) }
{
    if dotall { &ALL } else { &NOT_NEWLINE }
}

/// The code points from the first to the last, where the truth value says so with their other cases.
fn range_points(
    alloc: Global,
    caseless: bool,
    first: u32,
    last: u32,
) -> Result<Vec<(u32, u32)>, AllocError>
    ensures { IfOk result (λ points. HasExactly points.items (passes_point (Test.Range caseless first last))) }
{
    let range = [(first, last)];
    if caseless {
        return folds(alloc, &range);
    }
    Vec::from_slice(alloc, &range)
}

/// The code points of the class, or those that it hasn't.
fn class_points(alloc: Global, class: Named, negated: bool) -> Result<Vec<(u32, u32)>, AllocError>
    ensures { IfOk result (λ points. HasExactly points.items (passes_point (Test.Class class negated))) }
{
    let Class { ranges } = complement(negated, named_points(alloc, class)?)?;
    Ok(ranges)
}

/// The code points of the class.
#[tactic(auto, using(crate::proofs::RangeLemmas::named_less, crate::proofs::RangeLemmas::named_more))]
fn named_points(alloc: Global, class: Named) -> Result<Class, AllocError>
    ensures { IfOk result (λ points. HasExactly points.ranges.items (is_point_of class)) }
{
    let mut all = Vec::from_slice(alloc, class.ranges_beyond())?;
    for byte in 0..0x80u8 {
        if class.contains(byte) {
            all.push((byte as u32, byte as u32))?;
        }
    }
    Class::new(all)
}

/// The code points of the class, or those that it hasn't.
fn complement(negated: bool, class: Class) -> Result<Class, AllocError>
    ensures { IfOk result (λ points. HasExactly points.ranges.items
        (λ c. if negated then not (in_ranges class.ranges.items c) else in_ranges class.ranges.items c)) }
{
    if negated {
        return class.negate(MAX);
    }
    Ok(class)
}

/// The code points of the ranges, or those that they haven't, surrogates left out: as ranges that rise and don't touch.
pub(crate) fn point_set(
    alloc: Global,
    negated: bool,
    ranges: Vec<(u32, u32)>,
) -> Result<Vec<(u32, u32)>, AllocError>
    ensures { IfOk result (λ points. AreRanges
        (λ c. if negated then not (in_ranges ranges.items c) else in_ranges ranges.items c) points.items) }
{
    without_surrogates(alloc, complement(negated, Class::new(ranges)?)?)
}

/// The code points of the class, surrogates left out.
fn without_surrogates(alloc: Global, class: Class) -> Result<Vec<(u32, u32)>, AllocError>
    ensures { IfOk result (λ points. AreRanges (in_ranges class.ranges.items) points.items) }
{
    let surrogates = Class::from_ranges(alloc, &SURROGATES)?;
    let Class { ranges } = class.difference(&surrogates)?;
    Ok(ranges)
}

/// Appends the code points that pass the test.
pub(crate) fn push_points(
    alloc: Global,
    test: Test,
    points: &mut Vec<(u32, u32)>,
) -> Result<(), AllocError>
    ensures { OnOk result (AddsPoints (passes_point test) points.old.items points.new.items) }
{
    let passing = test_points(alloc, test)?;
    points.extend_from_slice(&passing)
}

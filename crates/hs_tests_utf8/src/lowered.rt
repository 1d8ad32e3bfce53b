//! Sets of code points in bytes, and their other cases. It is `#[cfg(test)]`.
use crate::written::written;
use hs_base::Assertion;
use hs_expr::{Expr, positions};
use hs_utf8::{folds, lower};
use std::alloc::{AllocError, Global};
use std::test::Fail;

/// The lowered set of the ranges.
fn lowered(alloc: Global, ranges: &[(u32, u32)]) -> Result<Expr, AllocError> {
    lower(alloc, &Expr::Points(Vec::from_slice(alloc, ranges)?))
}

/// The lowered set of the ranges is written so.
fn lowers_to(alloc: Global, ranges: &[(u32, u32)], wanted: &str) -> Result<(), Fail> {
    let text = written(alloc, &lowered(alloc, ranges)?)?;
    if text.as_str() == wanted {
        Ok(())
    } else {
        Err(Fail::new(format_args!("{text}")))
    }
}

/// The other cases of the ranges, with the ranges, are these.
fn folds_to(alloc: Global, ranges: &[(u32, u32)], wanted: &[(u32, u32)]) -> Result<(), Fail> {
    let cases = folds(alloc, ranges)?;
    if cases.as_slice() == wanted {
        Ok(())
    } else {
        Err(Fail::new(format_args!("{cases:?}")))
    }
}

#[test]
fn a_dot_has_27_positions(rt: HostRuntime) -> Result<(), Fail> {
    let dot = lowered(rt.alloc(), &[(0, 0x09), (0x0B, 0x10_FFFF)])?;
    assert_eq!(rt; positions(&dot), 27);
    Ok(())
}

/// What `.` without the option s is in bytes.
const DOT: &str = "\
00-09,0B-7F
C2-DF 80-BF
E0-E0 A0-BF 80-BF
E1-EC 80-BF 80-BF
ED-ED 80-9F 80-BF
EE-EF 80-BF 80-BF
F0-F0 90-BF 80-BF 80-BF
F1-F3 80-BF 80-BF 80-BF
F4-F4 80-8F 80-BF 80-BF
";

#[test]
fn a_dot_has_these_runs(rt: HostRuntime) -> Result<(), Fail> {
    lowers_to(rt.alloc(), &[(0, 0x09), (0x0B, 0x10_FFFF)], DOT)
}

#[test]
fn runs_end_where_the_members_do(rt: HostRuntime) -> Result<(), Fail> {
    lowers_to(
        rt.alloc(),
        &[(0xE0, 0xE0), (0x120, 0x120)],
        "C3-C3 A0-A0\nC4-C4 A0-A0\n",
    )
}

#[test]
fn runs_end_where_the_length_changes(rt: HostRuntime) -> Result<(), Fail> {
    lowers_to(
        rt.alloc(),
        &[(0x7FF, 0x800)],
        "DF-DF BF-BF\nE0-E0 A0-A0 80-80\n",
    )
}

#[test]
fn runs_end_before_the_surrogates(rt: HostRuntime) -> Result<(), Fail> {
    lowers_to(
        rt.alloc(),
        &[(0xD7FF, 0xE000)],
        "ED-ED 9F-9F BF-BF\nEE-EE 80-80 80-80\n",
    )
}

#[test]
fn ranges_come_in_any_order(rt: HostRuntime) -> Result<(), Fail> {
    lowers_to(
        rt.alloc(),
        &[(0x100, 0x17F), (0xA0, 0x9F), (0x80, 0x120)],
        "C2-C5 80-BF\n",
    )
}

#[test]
fn ascii_alone_is_one_class(rt: HostRuntime) -> Result<(), Fail> {
    lowers_to(rt.alloc(), &[(0x61, 0x7A), (0x41, 0x5A)], "41-5A,61-7A\n")
}

#[test]
fn no_member_is_the_class_of_nothing(rt: HostRuntime) -> Result<(), Fail> {
    lowers_to(
        rt.alloc(),
        &[(0xD800, 0xDFFF), (0x11_0000, 0x11_0001)],
        "\n",
    )
}

/// The expression `(?:^[\x{e9}\x{800}]){2,3}`.
fn repeated(alloc: Global) -> Result<Expr, AllocError> {
    let mut items = Vec::new(alloc);
    items.push(Expr::Assert(Assertion::StreamStart))?;
    items.push(Expr::Points(Vec::from_slice(alloc, &[(0xE9, 0xE9), (0x800, 0x800)])?))?;
    Ok(Expr::Repeat(Box::new(alloc, Expr::Cat(items))?, 2, Some(3)))
}

#[test]
fn all_else_stays(rt: HostRuntime) -> Result<(), Fail> {
    let lowered = lower(rt.alloc(), &repeated(rt.alloc())?)?;
    assert_eq!(rt; positions(&lowered), 15);
    assert!(rt; matches!(&lowered, Expr::Repeat(_, 2, Some(3))));
    Ok(())
}

#[test]
fn k_folds_with_the_kelvin_sign(rt: HostRuntime) -> Result<(), Fail> {
    folds_to(
        rt.alloc(),
        &[(0x6B, 0x6B)],
        &[(0x4B, 0x4B), (0x6B, 0x6B), (0x212A, 0x212A)],
    )
}

#[test]
fn sharp_s_folds_with_its_capitals(rt: HostRuntime) -> Result<(), Fail> {
    folds_to(
        rt.alloc(),
        &[(0xDF, 0xDF)],
        &[(0xDF, 0xDF), (0x1E9E, 0x1E9E), (0x1_DF95, 0x1_DF95)],
    )
}

#[test]
fn letters_fold_to_ranges_that_do_not_touch(rt: HostRuntime) -> Result<(), Fail> {
    folds_to(
        rt.alloc(),
        &[(0x61, 0x63), (0x30, 0x39), (0x64, 0x64)],
        &[(0x30, 0x39), (0x41, 0x44), (0x61, 0x64)],
    )
}

//! The rows, table by table.

use crate::judging::{judge, judge_expression};
use crate::reading::texts_of;
use crate::regions::judge_regions;
use hs_expr::Expr;
use hs_rows::{stream_rows as rows, words_of};
use std::alloc::Global;
use std::test::Fail;

#[test]
fn expressions_span_as_defined(rt: HostRuntime) -> Result<(), Fail> {
    judge(rt.alloc(), rows::EXPRESSIONS)
}

#[test]
fn expressions_over_code_points_span_as_defined(rt: HostRuntime) -> Result<(), Fail> {
    judge(rt.alloc(), rows::CODE_POINTS)
}

#[test]
fn repeats_are_as_defined(rt: HostRuntime) -> Result<(), Fail> {
    judge(rt.alloc(), rows::REPEATS)?;
    judge(rt.alloc(), rows::LONG_REPEATS)
}

#[test]
fn expressions_of_chains_span_as_defined(rt: HostRuntime) -> Result<(), Fail> {
    judge(rt.alloc(), rows::CHAINS)
}

#[test]
fn sizes_are_as_stated(rt: HostRuntime) -> Result<(), Fail> {
    judge(rt.alloc(), rows::SIZES)
}

/// Judges the alternation of nothing, and rounds of it.
fn judge_nothing(alloc: Global) -> Result<(), Fail> {
    let texts = texts_of(alloc, &words_of(alloc, b"<> <ab> <a b> <;a;> <ba;ab>")?)?;
    let nothing = Expr::Alt(Vec::new(alloc));
    judge_expression(alloc, "nothing", &nothing, &texts)?;
    let rounds = Expr::Repeat(Box::new(alloc, nothing)?, 0, None);
    judge_expression(alloc, "rounds of nothing", &rounds, &texts)
}

#[test]
fn nothing_matches_an_alternation_of_nothing(rt: HostRuntime) -> Result<(), Fail> {
    judge_nothing(rt.alloc())
}

#[test]
fn regions_of_repeats_are_well_formed() -> Result<(), Fail> {
    judge_regions()
}

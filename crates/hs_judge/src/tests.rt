//! The rows, table by table.

use crate::chains::written;
use crate::judging::judge;
use hs_expr::Expr;
use hs_rows::stream_rows as rows;
use std::alloc::Global;
use std::test::Fail;

#[test]
fn reports_what_is_documented(rt: HostRuntime) -> Result<(), Fail> {
    judge(rt.alloc(), rows::DOCUMENTED)?;
    judge(rt.alloc(), rows::CODE_POINTS)
}

#[test]
fn reports_of_lists_are_as_defined(rt: HostRuntime) -> Result<(), Fail> {
    judge(rt.alloc(), rows::LISTS)
}

#[test]
fn assertions_hold_as_defined(rt: HostRuntime) -> Result<(), Fail> {
    judge(rt.alloc(), rows::ASSERTIONS)
}

#[test]
fn expressions_end_as_defined(rt: HostRuntime) -> Result<(), Fail> {
    judge(rt.alloc(), rows::EXPRESSIONS)
}

#[test]
fn repeats_end_as_defined(rt: HostRuntime) -> Result<(), Fail> {
    judge(rt.alloc(), rows::REPEATS)
}

#[test]
fn chains_are_as_defined(rt: HostRuntime) -> Result<(), Fail> {
    judge(rt.alloc(), rows::CHAINS)?;
    judge(rt.alloc(), rows::EDGES)?;
    judge(rt.alloc(), rows::PIECES)
}

#[test]
fn random_lists_are_as_defined(rt: HostRuntime) -> Result<(), Fail> {
    judge(rt.alloc(), rows::RANDOM)
}

#[test]
fn refuses_as_stated(rt: HostRuntime) -> Result<(), Fail> {
    judge(rt.alloc(), rows::REFUSALS)?;
    judge(rt.alloc(), rows::SUPPORT)
}

#[test]
fn an_alternation_of_nothing_has_no_chain(rt: HostRuntime) -> Result<(), Fail> {
    let alloc = rt.alloc();
    assert_eq!(rt; written(alloc, &Expr::Alt(Vec::new(alloc)))?.as_str(), " ");
    Ok(())
}

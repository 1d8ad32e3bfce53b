//! What is reported of a stream.

ghost use Rattle.std.specs.Prelude.{◌≡◌, ℕ, ◌↔◌, ◌||◌, not, ◌==◌, Bool, false, true, List, length, map, IfOk};
ghost use Rattle.std.specs.Prelude.{IsTrue, MatchOption};
ghost use Rattle.std.specs.List.{list_all, list_any};
ghost use Rattle.hs_base.specs.Lists.{IsMember, IsRising};
ghost use Rattle.hs_base.specs.Patterns.{IsPair, is_single};
ghost use Rattle.hs_base.specs.Reports.{IsLeast, IsReport};
ghost use Rattle.hs_base.specs.Told.{IsBefore, IsTold, IsLast};
ghost use Rattle.hs_plain.specs.PlainPatterns.{pattern_of, patterns_of, pair_of, pairs_of, HasPair};
ghost use Rattle.hs_plain.specs.PlainPatterns.{ArePairs, AreReports, KeepsPairs};

use crate::pair_list::{is_same, pairs};
use crate::pattern::Pattern;
use hs_base::{ExprId, Report};
use std::alloc::{AllocError, Global};

/// The reports of a whole stream: those that its bytes decide, in the order in which they do, and those that only its
/// end decides.
#[derive(Drop)]
pub struct MatchReports {
    /// The told list.
    pub told: Vec<Report>,
    /// The last list.
    pub last: Vec<Report>,
}

/// The reports of a stream from its start to its end.
pub fn match_reports(
    alloc: Global,
    patterns: &[Pattern],
    stream: &[u8],
) -> Result<MatchReports, AllocError>
    ensures told { IfOk result (λ m. IsTold (patterns_of patterns.now) stream.now (pairs_of m.told.items)) }
    ensures last { IfOk result (λ m. IsLast (patterns_of patterns.now) stream.now (pairs_of m.last.items)) }
{
    let told = told(alloc, patterns, stream)?;
    let before = reports(alloc, patterns, stream, false)?;
    let after = reports(alloc, patterns, stream, true)?;
    let last = new_of(alloc, &before, &after)?;
    Ok(MatchReports { told, last })
}

/// The told list of a stream.
pub fn told(alloc: Global, patterns: &[Pattern], stream: &[u8]) -> Result<Vec<Report>, AllocError>
    ensures { IfOk result (λ told. IsTold (patterns_of patterns.now) stream.now (pairs_of told.items)) }
{
    let mut told = Vec::new(alloc);
    let mut before = Vec::new(alloc);
    for n in 0..stream.len() {
        let after = reports(alloc, patterns, &stream[..n + 1], false)?;
        let new = new_of(alloc, &before, &after)?;
        told.extend_from_slice(&new)?;
        before = after;
    }
    Ok(told)
}

/// The reports of a stream that has ended or may go on, each once, by end, then identifier.
pub fn reports(
    alloc: Global,
    patterns: &[Pattern],
    stream: &[u8],
    ended: bool,
) -> Result<Vec<Report>, AllocError>
    ensures { IfOk result (λ found. AreReports (patterns_of patterns.now) stream.now ended (pairs_of found.items)) }
{
    let before = pairs(alloc, patterns, stream, false)?;
    let all = pairs(alloc, patterns, stream, ended)?;
    reported(alloc, patterns, &before, &all)
}

/// Those of all pairs that are reports, where these are the pairs before the end and all pairs.
fn reported(
    alloc: Global,
    patterns: &[Pattern],
    before: &[Report],
    all: &[Report],
) -> Result<Vec<Report>, AllocError>
    ensures { IfOk result (λ found. (w : List ℕ) (ended : Bool) →
        ArePairs (patterns_of patterns.now) w false (pairs_of before.now) →
        ArePairs (patterns_of patterns.now) w ended (pairs_of all.now) →
        AreReports (patterns_of patterns.now) w ended (pairs_of found.items)) }
{
    let mut found = Vec::new(alloc);
    for i in 0..all.len() {
        if is_reported(patterns, before, all, all[i]) {
            found.push(all[i])?;
        }
    }
    Ok(found)
}

/// Whether one of all pairs is a report.
fn is_reported(patterns: &[Pattern], before: &[Report], all: &[Report], report: Report) -> bool
    ensures { (w : List ℕ) (ended : Bool) →
        ArePairs (patterns_of patterns.now) w false (pairs_of before.now) →
        ArePairs (patterns_of patterns.now) w ended (pairs_of all.now) →
        IsMember (pair_of report) (pairs_of all.now) →
        (IsTrue result ↔ IsReport (patterns_of patterns.now) w ended report.id.0 report.to) }
{
    if !is_single(patterns, report.id) {
        return true;
    }
    match first_end(before, report.id) {
        Some(to) => to == report.to,
        None => is_first(all, report),
    }
}

/// Whether the identifier is reported at most once.
fn is_single(patterns: &[Pattern], id: ExprId) -> bool
    ensures { result ≡ is_single (patterns_of patterns.now) id.0 }
{
    is_named(patterns, id) && asks_single(patterns, id)
}

/// Whether a pattern has the identifier.
fn is_named(patterns: &[Pattern], id: ExprId) -> bool
    ensures { result ≡ list_any (λ x. x.id.0 == id.0) patterns.now }
{
    patterns.iter().any(|x| x.id.0 == id.0)
}

/// Whether each pattern that has the identifier asks for a single report.
fn asks_single(patterns: &[Pattern], id: ExprId) -> bool
    ensures { result ≡ list_all (λ x. not (x.id.0 == id.0) || x.single) patterns.now }
{
    patterns.iter().all(|x| x.id.0 != id.0 || x.single)
}

/// Whether the report is the first of its identifier.
fn is_first(found: &[Report], report: Report) -> bool
    ensures { IsRising IsBefore (pairs_of found.now) →
        (IsTrue result ↔ IsLeast (HasPair (pairs_of found.now) report.id.0) report.to) }
{
    match first_end(found, report.id) {
        Some(to) => to == report.to,
        None => false,
    }
}

/// The end of the first report of an identifier.
fn first_end(found: &[Report], id: ExprId) -> Option<u64>
    ensures { IsRising IsBefore (pairs_of found.now) → MatchOption result
        ((to : ℕ) → HasPair (pairs_of found.now) id.0 to → ⊥)
        (IsLeast (HasPair (pairs_of found.now) id.0)) }
{
    for i in 0..found.len() {
        if found[i].id.0 == id.0 {
            return Some(found[i].to);
        }
    }
    None
}

/// The later reports that aren't among the earlier ones, in their order.
fn new_of(alloc: Global, before: &[Report], after: &[Report]) -> Result<Vec<Report>, AllocError>
    ensures { IfOk result (λ new.
        KeepsPairs (λ p. IsMember p (pairs_of before.now) → ⊥) (pairs_of after.now) (pairs_of new.items)) }
{
    let mut new = Vec::new(alloc);
    for i in 0..after.len() {
        if !is_among(before, after[i]) {
            new.push(after[i])?;
        }
    }
    Ok(new)
}

fn is_among(found: &[Report], report: Report) -> bool
    ensures { IsTrue result ↔ IsMember (pair_of report) (pairs_of found.now) }
{
    for i in 0..found.len() {
        if is_same(found[i], report) {
            return true;
        }
    }
    false
}

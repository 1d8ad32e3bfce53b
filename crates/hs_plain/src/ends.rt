//! Where the spans of an expression end.

ghost use Rattle.std.specs.Prelude.{◌≡◌, ℕ, ◌+◌, ◌<◌, ◌≤◌, ◌⊎◌, ◌↔◌, ◌==◌, true, Some, None, length, map, IfOk, IfSome};
ghost use Rattle.std.specs.Prelude.{IsTrue};
ghost use Rattle.hs_base.specs.ByteSets.{members};
ghost use Rattle.hs_base.specs.Assertions.{Holds};
ghost use Rattle.hs_base.specs.Spans.{IsByteOf, Copies, Spans, CatSpans, AltSpans};
ghost use Rattle.hs_expr.specs.Meaning.{trees_of, tree_of};
ghost use Rattle.hs_plain.specs.OffsetSets.{room, has, AreEnds, AddsOffsets};
ghost use Rattle.hs_plain.specs.Repeats.{UpTo, AnyNumber, RepeatSpans};

use crate::assertions::holds;
use crate::offsets::Offsets;
use crate::points::point_ends;
use hs_base::{Assertion, ByteSet};
use hs_expr::Expr;
use std::alloc::{AllocError, Global};

/// The offsets at which spans of the expression from one offset end, in a stream that has ended or may go on.
pub fn ends_of(
    alloc: Global,
    expr: &Expr,
    stream: &[u8],
    ended: bool,
    from: usize,
) -> Result<Offsets, AllocError>
    requires { from ≤ length stream.now }
    ensures size { IfOk result (λ ends. room ends ≡ length stream.now + 1) }
    ensures each { IfOk result (λ ends. (to : ℕ) →
        (has ends to ≡ true) ↔ Spans stream.now ended (tree_of expr.now) from to) }
{
    let start = one(alloc, stream.len() + 1, from)?;
    ends_from(alloc, expr, stream, ended, &start)
}

/// The offsets at which spans from a start end.
#[cycle(ends)]
pub fn ends_from(
    alloc: Global,
    expr: &Expr,
    stream: &[u8],
    ended: bool,
    starts: &Offsets,
) -> Result<Offsets, AllocError>
    requires { room starts.now ≡ length stream.now + 1 }
    ensures { IfOk result (λ ends. AreEnds (Spans stream.now ended (tree_of expr.now)) starts.now ends) }
{
    match expr {
        Expr::Empty => starts.copy(alloc),
        Expr::Class(set) => class_ends(alloc, set, stream, starts),
        Expr::Points(ranges) => point_ends(alloc, ranges, stream, starts),
        Expr::Assert(assertion) => assertion_ends(alloc, *assertion, stream, ended, starts),
        Expr::Cat(items) => cat_ends(alloc, items, stream, ended, starts),
        Expr::Alt(items) => alt_ends(alloc, items, stream, ended, starts),
        Expr::Repeat(body, least, greatest) => {
            repeat_ends(alloc, body, *least, *greatest, stream, ended, starts)
        }
    }
}

/// The set of one offset.
fn one(alloc: Global, offsets: usize, at: usize) -> Result<Offsets, AllocError>
    requires { at < offsets }
    ensures size { IfOk result (λ s. room s ≡ offsets) }
    ensures members { IfOk result (λ s. (j : ℕ) → (has s j ≡ true) ↔ (j ≡ at)) }
{
    let mut set = Offsets::none(alloc, offsets)?;
    set.insert(at);
    Ok(set)
}

fn class_ends(
    alloc: Global,
    set: &ByteSet,
    stream: &[u8],
    starts: &Offsets,
) -> Result<Offsets, AllocError>
    requires { room starts.now ≡ length stream.now + 1 }
    ensures { IfOk result
        (λ ends. AreEnds (λ i j. IsByteOf (members set.now) stream.now i × (j ≡ i + 1)) starts.now ends) }
{
    let mut ends = Offsets::none(alloc, starts.room())?;
    for at in 0..starts.room() {
        if starts.contains(at) {
            add_byte(set, stream, at, &mut ends);
        }
    }
    Ok(ends)
}

fn add_byte(set: &ByteSet, stream: &[u8], at: usize, ends: &mut Offsets)
    requires { room ends.old ≡ length stream.now + 1 }
    ensures { AddsOffsets (λ j. IsByteOf (members set.now) stream.now at × (j ≡ at + 1)) ends.old ends.new }
{
    if is_byte_of(set, stream, at) {
        ends.insert(at + 1);
    }
}

fn is_byte_of(set: &ByteSet, stream: &[u8], at: usize) -> bool
    ensures within { IsTrue result → at < length stream.now }
    ensures member { IsTrue result ↔ IsByteOf (members set.now) stream.now at }
{
    if at < stream.len() {
        set.contains(stream[at])
    } else {
        false
    }
}

fn assertion_ends(
    alloc: Global,
    assertion: Assertion,
    stream: &[u8],
    ended: bool,
    starts: &Offsets,
) -> Result<Offsets, AllocError>
    ensures { IfOk result (λ ends. AreEnds (λ i j. (i ≡ j) × Holds stream.now ended assertion i) starts.now ends) }
{
    let mut ends = Offsets::none(alloc, starts.room())?;
    for at in 0..starts.room() {
        if starts.contains(at) {
            add_place(assertion, stream, ended, at, &mut ends);
        }
    }
    Ok(ends)
}

fn add_place(assertion: Assertion, stream: &[u8], ended: bool, at: usize, ends: &mut Offsets)
    requires { at < room ends.old }
    ensures { AddsOffsets (λ j. (at ≡ j) × Holds stream.now ended assertion at) ends.old ends.new }
{
    if holds(assertion, stream, ended, at) {
        ends.insert(at);
    }
}

#[cycle(ends)]
fn cat_ends(
    alloc: Global,
    items: &[Expr],
    stream: &[u8],
    ended: bool,
    starts: &Offsets,
) -> Result<Offsets, AllocError>
    requires { room starts.now ≡ length stream.now + 1 }
    ensures { IfOk result
        (λ ends. AreEnds (CatSpans stream.now ended (trees_of (map tree_of items.now))) starts.now ends) }
{
    let mut ends = starts.copy(alloc)?;
    for i in 0..items.len() {
        ends = ends_from(alloc, &items[i], stream, ended, &ends)?;
    }
    Ok(ends)
}

#[cycle(ends)]
fn alt_ends(
    alloc: Global,
    items: &[Expr],
    stream: &[u8],
    ended: bool,
    starts: &Offsets,
) -> Result<Offsets, AllocError>
    requires { room starts.now ≡ length stream.now + 1 }
    ensures { IfOk result
        (λ ends. AreEnds (AltSpans stream.now ended (trees_of (map tree_of items.now))) starts.now ends) }
{
    let mut all = Offsets::none(alloc, starts.room())?;
    for i in 0..items.len() {
        let ends = ends_from(alloc, &items[i], stream, ended, starts)?;
        all.add(&ends);
    }
    Ok(all)
}

#[cycle(ends)]
fn repeat_ends(
    alloc: Global,
    body: &Expr,
    least: u32,
    greatest: Option<u32>,
    stream: &[u8],
    ended: bool,
    starts: &Offsets,
) -> Result<Offsets, AllocError>
    requires { room starts.now ≡ length stream.now + 1 }
    ensures { IfOk result
        (λ ends. AreEnds (RepeatSpans (Spans stream.now ended (tree_of body.now)) least greatest) starts.now ends) }
{
    let first = copies_ends(alloc, body, least, stream, ended, starts)?;
    match greatest {
        None => any_number_ends(alloc, body, stream, ended, &first),
        Some(greatest) if least <= greatest => up_to_ends(
            alloc,
            body,
            greatest - least,
            stream,
            ended,
            &first,
        ),
        Some(_) => Offsets::none(alloc, starts.room()),
    }
}

/// The ends of so many copies in a row. Once a copy changes nothing, no more copies do.
#[cycle(ends)]
fn copies_ends(
    alloc: Global,
    body: &Expr,
    count: u32,
    stream: &[u8],
    ended: bool,
    starts: &Offsets,
) -> Result<Offsets, AllocError>
    requires { room starts.now ≡ length stream.now + 1 }
    ensures { IfOk result (λ ends. AreEnds (Copies (Spans stream.now ended (tree_of body.now)) count) starts.now ends) }
{
    let mut ends = starts.copy(alloc)?;
    for _copy in 0..count {
        let next = ends_from(alloc, body, stream, ended, &ends)?;
        if next.is_same(&ends) {
            return Ok(next);
        }
        ends = next;
    }
    Ok(ends)
}

/// The ends of at most so many copies in a row.
#[cycle(ends)]
fn up_to_ends(
    alloc: Global,
    body: &Expr,
    count: u32,
    stream: &[u8],
    ended: bool,
    starts: &Offsets,
) -> Result<Offsets, AllocError>
    requires { room starts.now ≡ length stream.now + 1 }
    ensures { IfOk result (λ ends. AreEnds (UpTo (Spans stream.now ended (tree_of body.now)) count) starts.now ends) }
{
    let mut all = starts.copy(alloc)?;
    let mut ends = starts.copy(alloc)?;
    for _copy in 0..count {
        let next = ends_from(alloc, body, stream, ended, &ends)?;
        if next.is_same(&ends) {
            return Ok(all);
        }
        all.add(&next);
        ends = next;
    }
    Ok(all)
}

/// The ends of any number of copies in a row: the starts, closed under the body. A span ends where it begins or behind,
/// so one pass from the left closes the set.
#[cycle(ends)]
fn any_number_ends(
    alloc: Global,
    body: &Expr,
    stream: &[u8],
    ended: bool,
    starts: &Offsets,
) -> Result<Offsets, AllocError>
    requires { room starts.now ≡ length stream.now + 1 }
    ensures { IfOk result (λ ends. AreEnds (AnyNumber (Spans stream.now ended (tree_of body.now))) starts.now ends) }
{
    let mut all = starts.copy(alloc)?;
    for from in 0..starts.room() {
        if all.contains(from) {
            let start = one(alloc, starts.room(), from)?;
            let ends = ends_from(alloc, body, stream, ended, &start)?;
            all.add(&ends);
        }
    }
    Ok(all)
}

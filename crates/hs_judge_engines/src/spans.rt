//! Engines that are entered at some offsets alone, beside the spans of their expressions. It is `#[cfg(test)]`.
ghost use Rattle.std.specs.Prelude.{◌≡◌, ◌≤◌, ◌<◌, ◌^◌, length};

use crate::engines::Judged;
use crate::verdicts::{Verdict, ensure};
use hs_base::{Mask, Next, NextSet, Prev};
use hs_engine::{Engine, Steps};
use hs_expr::Expr;
use hs_plain::ends_of;
use hs_rows::Text;
use std::alloc::Global;
use std::marker::Brand;
use std::sync::ledger::{Blank, Ledger};
use std::test::Fail;

/// What may come next, each with the bytes that then follow and whether the stream ends there.
const AFTER: [(Next, &str, bool); 6] = [
    (Next::Word, "a", false),
    (Next::Newline, "\n", false),
    (Next::Other, " ", false),
    (Next::End, "", true),
    (Next::FinalNewline, "\n", true),
    (Next::Unknown, "", false),
];

/// Where an expression is entered, beside each offset alone: bit `k` stands for the offset `k`, and the last one for
/// every offset.
const ENTRIES: [u64; 7] = [0, 3, 9, 0x112, 0x5555, 1 << 40, u64::MAX];

/// An expression, and what may come next where it ends behind each beginning of a text, for each offset at which it is
/// entered there.
#[derive(Drop)]
pub(crate) struct Spans {
    /// What a failure is told by.
    pub(crate) name: String,
    expr: Expr,
    pub(crate) text: Vec<u8>,
    pub(crate) lefts: Vec<Vec<NextSet>>,
}

/// Whether the expression, entered at the offset, ends behind the text where these bytes follow.
fn ends_behind(
    alloc: Global,
    expr: &Expr,
    text: &[u8],
    from: usize,
    after: (Next, &str, bool),
) -> Result<bool, Fail>
    requires { from ≤ length text.now }
{
    let (_next, bytes, ended) = after;
    let mut stream = text.to_vec(alloc)?;
    stream.extend_from_slice(bytes.as_bytes())?;
    Ok(ends_of(alloc, expr, &stream, ended, from)?.contains(text.len()))
}

/// What may come next where the expression, entered at the offset, ends behind the text.
fn left_from(alloc: Global, expr: &Expr, text: &[u8], from: usize) -> Result<NextSet, Fail>
    requires { from ≤ length text.now }
{
    let mut left = NextSet::empty();
    for after in AFTER {
        if ends_behind(alloc, expr, text, from, after)? {
            left = left.union(NextSet::of(after.0));
        }
    }
    Ok(left)
}

/// What may come next behind the text, for each offset at which the expression is entered.
fn all_left(alloc: Global, expr: &Expr, text: &[u8]) -> Result<Vec<NextSet>, Fail> {
    let mut all = Vec::new(alloc);
    for from in 0..=text.len() {
        all.push(left_from(alloc, expr, text, from)?)?;
    }
    Ok(all)
}

impl Spans {
    /// The spans of the expression in the text as the definitions have them.
    pub(crate) fn of(alloc: Global, name: &str, expr: &Expr, text: &[u8]) -> Result<Spans, Fail> {
        let mut lefts = Vec::new(alloc);
        for len in 0..=text.len() {
            lefts.push(all_left(alloc, expr, &text[..len])?)?;
        }
        Ok(Spans {
            name: String::from_str(alloc, name)?,
            expr: expr.copy(alloc)?,
            text: Vec::from_slice(alloc, text)?,
            lefts,
        })
    }
}

/// Whether the expression is entered at the offset.
fn is_entered(entries: u64, at: u64) -> bool {
    entries == u64::MAX || (at < 64 && (entries >> at) & 1 == 1)
}

/// What may come next behind the text in the engine, whose steps are counted.
fn step_through<E: Engine, L: Ledger>(
    engine: &E,
    region: &mut [u8],
    text: &[u8],
    entries: u64,
    before: NextSet,
    blank: Blank,
) -> NextSet
    requires region { length region.old ≡ (E.meaning engine.now).width }
    requires text { length text.now < 2 ^ 63 }
    requires name { blank.name ≡ L.name }
    requires parts { blank.parts ≡ L.parts }
    requires some { 0 < L.parts }
{
    let mut steps = Steps::<L>::open(blank);
    engine.clear(region);
    let mut prev = Prev::Start;
    let mut at = 0;
    for byte in text {
        let enter = if is_entered(entries, at) {
            before
        } else {
            NextSet::empty()
        };
        engine.step(region, prev, at, enter, *byte, &mut steps);
        prev = Prev::behind(*byte);
        at += 1;
    }
    engine.out(region, prev, at)
}

/// What may come next behind the text in the engine, entered where its entries are and the byte is one of these, and
/// the region, which has every bit set before.
pub(crate) fn run<E: Engine>(
    alloc: Global,
    engine: &E,
    text: &[u8],
    entries: u64,
    before: NextSet,
) -> Result<(NextSet, Vec<u8>), Fail>
    requires { length text.now < 2 ^ 63 }
{
    let mut region = vec![in alloc; 0xffu8; engine.size()]?;
    let blank = Blank::new(1);
    let left = step_through::<E, Brand>(engine, &mut region, text, entries, before, blank);
    Ok((left, region))
}

/// Whether the region is at rest, if it is one of the engine's length.
pub(crate) fn is_at_rest<E: Engine>(engine: &E, region: &[u8]) -> Option<bool> {
    if region.len() == engine.size() {
        Some(engine.at_rest(region))
    } else {
        None
    }
}

/// What may come next, where the expression is entered at some offsets before the text's end.
pub(crate) fn left_of(all: &[NextSet], len: usize, entries: u64) -> NextSet {
    let mut left = NextSet::empty();
    for (from, set) in all.iter().enumerate() {
        if from < len && is_entered(entries, from as u64) {
            left = left.union(*set);
        }
    }
    left
}

/// Fails where the answers differ.
pub(crate) fn same(found: NextSet, wanted: NextSet, name: &str, text: &[u8]) -> Verdict {
    let what = format_args!("{found:?} in place of {wanted:?} behind {text:?}, of {name}");
    ensure(found == wanted, what)
}

/// Where the expression is entered: each offset before the length alone, and more.
fn all_entries(alloc: Global, len: usize) -> Result<Vec<u64>, Fail> {
    let mut all = Vec::from_slice(alloc, &ENTRIES)?;
    for at in 0..len.min(64) {
        all.push(1u64 << at)?;
    }
    Ok(all)
}

/// Compares the engine behind the text, entered at those offsets, with the spans.
fn compare_entered<E: Engine>(
    alloc: Global,
    name: &str,
    engine: &E,
    entries: u64,
    text: &[u8],
    all: &[NextSet],
) -> Verdict {
    let (left, _region) = run(alloc, engine, text, entries, NextSet::all())?;
    same(left, left_of(all, text.len(), entries), name, text)
}

/// What stands before the byte behind these.
pub(crate) fn prev_behind(bytes: &[u8]) -> Prev {
    match bytes.last() {
        None => Prev::Start,
        Some(byte) => Prev::behind(*byte),
    }
}

/// Compares where the expression matches no byte behind the text with the spans.
fn compare_null(name: &str, null: Mask, text: &[u8], all: &[NextSet]) -> Verdict {
    let prev = prev_behind(text);
    same(null.row(prev), *all.last().ok_or("no offset")?, name, text)
}

/// Compares the engine behind the text with the spans.
fn compare<E: Engine>(
    alloc: Global,
    name: &str,
    engine: &E,
    text: &[u8],
    all: &[NextSet],
) -> Verdict {
    for entries in &all_entries(alloc, text.len())? {
        compare_entered(alloc, name, engine, *entries, text, all)?;
    }
    Ok(())
}

/// Compares an engine of the expression with its spans, behind each beginning of the text.
pub(crate) fn judge_spans<E: Judged>(alloc: Global, spans: &Spans) -> Verdict {
    let Some((engine, null)) = E::of(alloc, &spans.expr)? else {
        return Ok(());
    };
    for (len, all) in spans.lefts.iter().enumerate() {
        let text = spans.text.get(..len).ok_or("no such text")?;
        compare(alloc, &spans.name, &engine, text, all)?;
        compare_null(&spans.name, null, text, all)?;
    }
    Ok(())
}

/// Whether an engine of the expression, entered behind the text's cuts or else at 0, ends behind the text: as it is
/// wanted.
pub(crate) fn judge_leaving<E: Judged>(
    alloc: Global,
    expr: &Expr,
    text: &Text,
    wanted: bool,
) -> Verdict {
    let Some((engine, _null)) = E::of(alloc, expr)? else {
        return Ok(());
    };
    let entries = match text.cuts {
        0 => 1,
        cuts => cuts.wrapping_mul(2),
    };
    let (left, _region) = run(alloc, &engine, &text.bytes, entries, NextSet::all())?;
    let is_left = left.contains(Next::Unknown);
    ensure(
        is_left == wanted,
        format_args!("whether it ends behind {:?}", text.bytes),
    )
}

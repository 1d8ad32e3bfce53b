//! The engines that take blocks, beside the spans of their expression: byte by byte, and in blocks of each length
//! behind a first one of each length up to that. It is `#[cfg(test)]`.
ghost use Rattle.std.specs.Prelude.{◌≡◌, ◌≤◌, ◌<◌, length};
ghost use Rattle.hs_block.specs.Blocks.{IsEnteredThroughout};

use crate::engines::automaton_of;
use crate::pieces::pieces_of;
use crate::spans::{Spans, left_of, prev_behind, run, same};
use crate::verdicts::{Verdict, ensure};
use hs_base::{Next, NextSet, Prev};
use hs_bits::{low_places, with_place};
use hs_block::BlockEngine;
use hs_dfa::{Dfa, SetDfa};
use hs_engine::{Automaton, BlockEnds, Steps};
use hs_expr::Expr;
use hs_limex::Limex;
use hs_rose::PieceEngine;
use std::alloc::{AllocError, Global};
use std::marker::Brand;
use std::sync::ledger::{Blank, Ledger};
use std::test::Fail;

/// The length of the longest block.
const BLOCK_LEN: usize = 64;

/// More bytes than a text has.
const TOO_MANY_BYTES: usize = 1_000;

/// Where a piece is entered, as `spans` has it: before every byte, the first one alone, each second one from the first
/// and from the second on, each third one, and before some that follow no pattern.
const ENTRIES: [u64; 6] = [
    u64::MAX,
    1,
    0x5555_5555_5555_5555,
    0xaaaa_aaaa_aaaa_aaaa,
    0x9249_2492_4924_9249,
    0x8d1a_0345_b00e_2c92,
];

/// A text in blocks: how long the first one is, and each other one but the last.
#[derive(Clone, Copy, Debug)]
struct Cut {
    first: usize,
    len: usize,
}

/// A stream of which some bytes were taken.
#[derive(Drop)]
struct Taken {
    region: Vec<u8>,
    prev: Prev,
    at: usize,
}

/// What is wanted where the expression is entered at these offsets: what may come next behind each beginning of the
/// text, and the region behind all.
#[derive(Drop)]
struct Wanted {
    entries: u64,
    left: Vec<NextSet>,
    region: Vec<u8>,
}

/// What takes a stream in blocks.
trait Blocked {
    /// The region of a stream of no bytes.
    fn open(&self, alloc: Global) -> Result<Vec<u8>, AllocError>;

    /// Takes a block, entered before each byte whose bit is set, or before every byte where it is always so. None where
    /// the region or the block doesn't fit.
    fn take<L: Ledger>(
        &self,
        stream: &mut Taken,
        enters: u64,
        block: &[u8],
        steps: &mut Steps<L>,
    ) -> Option<BlockEnds>;
}

/// The region of a stream of no bytes, which had every bit set before.
fn cleared<E: BlockEngine>(alloc: Global, engine: &E) -> Result<Vec<u8>, AllocError> {
    let mut region = vec![in alloc; 0xffu8; engine.size()]?;
    engine.clear(&mut region);
    Ok(region)
}

/// Takes a block of an engine.
fn take_block<E: BlockEngine, L: Ledger>(
    engine: &E,
    stream: &mut Taken,
    enters: u64,
    block: &[u8],
    steps: &mut Steps<L>,
) -> Option<BlockEnds>
    requires throughout { IsEnteredThroughout (E.meaning engine.now) enters (length block.now) }
{
    let (prev, at) = (stream.prev, stream.at as u64);
    if stream.region.len() == engine.size()
        && engine.well_formed(&stream.region, at)
        && block.len() <= BLOCK_LEN
        && stream.at < TOO_MANY_BYTES
    {
        Some(engine.run(&mut stream.region, prev, at, enters, block, steps))
    } else {
        None
    }
}

impl Blocked for PieceEngine {
    fn open(&self, alloc: Global) -> Result<Vec<u8>, AllocError> {
        cleared(alloc, self)
    }

    fn take<L: Ledger>(
        &self,
        stream: &mut Taken,
        enters: u64,
        block: &[u8],
        steps: &mut Steps<L>,
    ) -> Option<BlockEnds> {
        take_block(self, stream, enters, block, steps)
    }
}

impl Blocked for Dfa {
    fn open(&self, alloc: Global) -> Result<Vec<u8>, AllocError> {
        cleared(alloc, self)
    }

    fn take<L: Ledger>(
        &self,
        stream: &mut Taken,
        _enters: u64,
        block: &[u8],
        steps: &mut Steps<L>,
    ) -> Option<BlockEnds> {
        if block.len() <= BLOCK_LEN {
            take_block(self, stream, low_places(block.len()), block, steps)
        } else {
            None
        }
    }
}

impl Blocked for SetDfa {
    fn open(&self, alloc: Global) -> Result<Vec<u8>, AllocError> {
        vec![in alloc; 0u8; self.width()]
    }

    fn take<L: Ledger>(
        &self,
        stream: &mut Taken,
        _enters: u64,
        block: &[u8],
        steps: &mut Steps<L>,
    ) -> Option<BlockEnds> {
        let (prev, at) = (stream.prev, stream.at as u64);
        if stream.region.len() == self.width()
            && block.len() <= BLOCK_LEN
            && stream.at < TOO_MANY_BYTES
        {
            self.run(&mut stream.region, prev, at, block, steps)
        } else {
            None
        }
    }
}

/// What may come next behind each beginning of the text, where the expression is entered at these offsets.
fn all_left(alloc: Global, spans: &Spans, entries: u64) -> Result<Vec<NextSet>, AllocError> {
    let mut left = Vec::new(alloc);
    for (len, all) in spans.lefts.iter().enumerate() {
        left.push(left_of(all, len, entries))?;
    }
    Ok(left)
}

/// Before which bytes of a block at the offset the expression is entered.
fn entries_from(entries: u64, at: usize) -> u64 {
    if entries == u64::MAX {
        entries
    } else if at < 64 {
        entries >> at
    } else {
        0
    }
}

/// Where the expression is left in a block, by what may come next before it and behind each of its bytes.
fn ends_by(left: &[NextSet], block: &[u8]) -> BlockEnds
    requires few { length block.now ≤ 64 }
    requires left { length block.now < length left.now }
{
    let (mut before, mut behind) = (0, 0);
    for place in 0..block.len() {
        let ending = left[place].contains(Next::class_of(block[place]));
        before = with_place(before, place, ending);
        behind = with_place(behind, place, left[place + 1].contains(Next::Unknown));
    }
    BlockEnds { before, behind }
}

/// Where the expression is left in the block behind so many bytes, if it is one.
fn ends_wanted(wanted: &Wanted, at: usize, block: &[u8]) -> Option<BlockEnds> {
    let left = wanted.left.get(at..)?;
    if block.len() <= BLOCK_LEN && block.len() < left.len() {
        Some(ends_by(left, block))
    } else {
        None
    }
}

/// Whether the next block of the stream tells where the expression is left.
fn tells_block<B: Blocked, L: Ledger>(
    engine: &B,
    stream: &mut Taken,
    wanted: &Wanted,
    block: &[u8],
    steps: &mut Steps<L>,
) -> bool {
    let ends = ends_wanted(wanted, stream.at, block);
    let enters = entries_from(wanted.entries, stream.at);
    let found = engine.take(stream, enters, block, steps);
    stream.prev = prev_behind(block);
    stream.at = stream.at.saturating_add(block.len());
    found.is_some() && found == ends
}

/// Whether the next bytes of the stream, in blocks of that length, tell where the expression is left.
fn tells_all<B: Blocked, L: Ledger>(
    engine: &B,
    stream: &mut Taken,
    wanted: &Wanted,
    bytes: &[u8],
    len: usize,
    steps: &mut Steps<L>,
) -> bool
    requires { 0 < len }
{
    for block in bytes.chunks(len) {
        if !tells_block(engine, stream, wanted, block, steps) {
            return false;
        }
    }
    true
}

/// Whether all blocks of the stream tell where the expression is left, and leave the region that is wanted.
fn tells_text<B: Blocked, L: Ledger>(
    engine: &B,
    stream: &mut Taken,
    wanted: &Wanted,
    text: &[u8],
    cut: Cut,
    blank: Blank,
) -> bool
    requires first { 0 < cut.first }
    requires len { 0 < cut.len }
    requires name { blank.name ≡ L.name }
    requires parts { blank.parts ≡ L.parts }
    requires some { 0 < L.parts }
{
    let mut steps = Steps::<L>::open(blank);
    let (head, rest) = text.split_at(cut.first.min(text.len()));
    tells_all(engine, stream, wanted, head, cut.first, &mut steps)
        && tells_all(engine, stream, wanted, rest, cut.len, &mut steps)
        && stream.region == wanted.region
}

/// Compares the engine in blocks that are cut so with what is wanted.
fn judge_cut<B: Blocked>(
    alloc: Global,
    engine: &B,
    spans: &Spans,
    wanted: &Wanted,
    cut: Cut,
) -> Verdict
    requires first { 0 < cut.first }
    requires len { 0 < cut.len }
{
    let mut stream = Taken {
        region: engine.open(alloc)?,
        prev: Prev::Start,
        at: 0,
    };
    let blank = Blank::new(1);
    let tells = tells_text::<B, Brand>(engine, &mut stream, wanted, &spans.text, cut, blank);
    let what = format_args!(
        "{cut:?} of {:?}, entered at {:x}, of {}",
        spans.text, wanted.entries, spans.name
    );
    ensure(tells, what)
}

/// Compares the engine in blocks of that length behind a first one of each length up to that.
fn judge_len<B: Blocked>(
    alloc: Global,
    engine: &B,
    spans: &Spans,
    wanted: &Wanted,
    len: usize,
) -> Verdict {
    for first in 1..=len {
        judge_cut(alloc, engine, spans, wanted, Cut { first, len })?;
    }
    Ok(())
}

/// Compares the engine in blocks of each length with what is wanted.
fn judge_cuts<B: Blocked>(alloc: Global, engine: &B, spans: &Spans, wanted: &Wanted) -> Verdict {
    for len in 1..=spans.text.len().min(BLOCK_LEN) {
        judge_len(alloc, engine, spans, wanted, len)?;
    }
    Ok(())
}

/// Compares the engine byte by byte with what may come next behind each beginning of the text; the answer is the region
/// behind all.
fn judge_steps<E: BlockEngine>(
    alloc: Global,
    engine: &E,
    spans: &Spans,
    entries: u64,
    left: &[NextSet],
) -> Result<Vec<u8>, Fail> {
    let mut last = Vec::new(alloc);
    for (len, wanted) in left.iter().enumerate() {
        let text = spans.text.get(..len).ok_or("no such text")?;
        let (found, region) = run(alloc, engine, text, entries, NextSet::all())?;
        same(found, *wanted, &spans.name, text)?;
        last = region;
    }
    Ok(last)
}

/// Compares an engine that is entered at these offsets with the spans of its expression.
fn judge_entered<E: BlockEngine + Blocked>(
    alloc: Global,
    engine: &E,
    spans: &Spans,
    entries: u64,
) -> Verdict {
    let left = all_left(alloc, spans, entries)?;
    let region = judge_steps(alloc, engine, spans, entries, &left)?;
    let wanted = Wanted {
        entries,
        left,
        region,
    };
    judge_cuts(alloc, engine, spans, &wanted)
}

/// Compares the engine of a piece with the spans of its expression.
fn judge_piece(alloc: Global, engine: &PieceEngine, spans: &Spans) -> Verdict {
    for entries in ENTRIES {
        judge_entered(alloc, engine, spans, entries)?;
    }
    Ok(())
}

/// The engines by the states of an expression, and the one whose regions are the sets of these.
#[derive(Drop)]
struct ByStates {
    dfa: Dfa,
    sets: SetDfa,
    limex: Limex,
}

impl ByStates {
    /// The engines of the automaton, if it has few enough states.
    fn build(alloc: Global, automaton: &Automaton) -> Result<Option<ByStates>, AllocError> {
        let Some(dfa) = Dfa::build(alloc, automaton)? else {
            return Ok(None);
        };
        let Some(sets) = SetDfa::build(alloc, automaton)? else {
            return Ok(None);
        };
        let limex = Limex::build(alloc, automaton)?;
        Ok(Some(ByStates { dfa, sets, limex }))
    }

    /// The engines of the expression, if it has them.
    fn of(alloc: Global, expr: &Expr) -> Result<Option<ByStates>, Fail> {
        match automaton_of(alloc, expr)? {
            Some(automaton) => Ok(ByStates::build(alloc, &automaton)?),
            None => Ok(None),
        }
    }

    /// Compares the states over sets, entered before every byte, with the spans of their expression.
    fn judge_sets(&self, alloc: Global, spans: &Spans) -> Verdict {
        let left = all_left(alloc, spans, u64::MAX)?;
        let (_left, region) = run(alloc, &self.limex, &spans.text, u64::MAX, NextSet::all())?;
        let wanted = Wanted {
            entries: u64::MAX,
            left,
            region,
        };
        judge_cuts(alloc, &self.sets, spans, &wanted)
    }

    /// Compares the engines, entered before every byte, with the spans of their expression.
    fn judge(&self, alloc: Global, spans: &Spans) -> Verdict {
        judge_entered(alloc, &self.dfa, spans, u64::MAX)?;
        self.judge_sets(alloc, spans)
    }
}

/// The engines of an expression that take blocks.
#[derive(Drop)]
pub(crate) struct InBlocks {
    states: Option<ByStates>,
    pieces: Vec<PieceEngine>,
}

impl InBlocks {
    /// The engines of the expression.
    pub(crate) fn of(alloc: Global, expr: &Expr) -> Result<InBlocks, Fail> {
        Ok(InBlocks {
            states: ByStates::of(alloc, expr)?,
            pieces: pieces_of(alloc, expr)?,
        })
    }
}

/// Compares the engines with the spans of their expression.
pub(crate) fn judge_in_blocks(alloc: Global, engines: &InBlocks, spans: &Spans) -> Verdict {
    if let Some(states) = &engines.states {
        states.judge(alloc, spans)?;
    }
    for engine in &engines.pieces {
        judge_piece(alloc, engine, spans)?;
    }
    Ok(())
}

//! One engine over a text in blocks, before each byte of which its expression is entered, and how long it takes.

ghost use Rattle.std.specs.Prelude.{◌≡◌, ◌+◌, ◌^◌, ◌<◌, ◌≤◌, IfOk, IfSome, IsTrue, length, vec_len};
ghost use Rattle.hs_bench.specs.BlockWise.{IsBlockTaken};

use crate::ROUNDS;
use crate::rate::Fastest;
use hs_base::{MAX_OFFSET, Prev};
use hs_bits::{WORD_BITS, low_places};
use hs_block::{BlockEngine, run_by_steps};
use hs_engine::{BlockEnds, Steps};
use std::alloc::{AllocError, Global};
use std::io;
use std::marker::Brand;
use std::sync::ledger::{Blank, Ledger};
use std::time::{CpuClock, Duration};

/// How many bytes a block has: the bits of a word.
pub(crate) const BLOCK_BYTES: usize = WORD_BITS;

/// How an engine takes a block.
#[derive(Clone, Copy, Debug)]
pub(crate) enum Way {
    /// Byte by byte.
    BySteps,
    /// At once, where that serves it.
    AtOnce,
}

/// At how many places of a text an expression is left.
#[derive(Clone, Copy, Debug, PartialEq, Eq)]
pub(crate) struct Left {
    /// Before a byte, where that byte comes next.
    pub(crate) before: u64,
    /// Behind a byte, where nothing is known of what comes next.
    pub(crate) behind: u64,
}

impl Left {
    ghost use Rattle.std.specs.Prelude.{count_ones};
    ghost use Rattle.hs_bench.specs.Streaming.{counted};

    /// The places of one more block.
    fn add(&mut self, ends: BlockEnds)
        ensures before { self.new.before ≡ counted (self.old.before + count_ones ends.before) }
        ensures behind { self.new.behind ≡ counted (self.old.behind + count_ones ends.behind) }
    {
        self.before = self
            .before
            .saturating_add(u64::from(ends.before.count_ones()));
        self.behind = self
            .behind
            .saturating_add(u64::from(ends.behind.count_ones()));
    }
}

/// A text of which some bytes were taken.
#[derive(Drop)]
struct Taken {
    /// What the engine keeps of them.
    region: Vec<u8>,
    /// What stands before the next byte.
    prev: Prev,
    /// How many there are.
    at: u64,
}

impl Taken {
    /// Whether the engine can take the block.
    fn fits<E: BlockEngine>(&self, engine: &E, block: &[u8]) -> bool
        ensures len { IsTrue result → vec_len self.now.region ≡ (E.meaning engine.now).width }
        ensures well { IsTrue result → (E.meaning engine.now).well self.now.region.items self.now.at }
        ensures few { IsTrue result → length block.now ≤ 64 }
        ensures room { IsTrue result → self.now.at + length block.now ≤ 2 ^ 63 }
    {
        self.region.len() == engine.size()
            && engine.well_formed(&self.region, self.at)
            && block.len() <= BLOCK_BYTES
            && self.at <= MAX_OFFSET - BLOCK_BYTES as u64
    }

    /// Takes a block; None where it isn't one for the engine.
    fn take<E: BlockEngine, L: Ledger>(
        &mut self,
        engine: &E,
        way: Way,
        block: &[u8],
        steps: &mut Steps<L>,
    ) -> Option<BlockEnds>
        ensures { IfSome result (IsBlockTaken (E.meaning engine.now) self.old.region.items self.new.region.items
            self.old.prev self.old.at block.now) }
    {
        if !self.fits(engine, block) {
            return None;
        }
        let (prev, at) = (self.prev, self.at);
        let enters = low_places(block.len());
        let region = &mut self.region;
        let ends = match way {
            Way::BySteps => run_by_steps(engine, region, prev, at, enters, block, steps),
            Way::AtOnce => engine.run(region, prev, at, enters, block, steps),
        };
        self.at = at + block.len() as u64;
        self.prev = behind(prev, block);
        Some(ends)
    }
}

/// What stands behind the bytes, before which that stands.
fn behind(prev: Prev, bytes: &[u8]) -> Prev {
    match bytes.last() {
        None => prev,
        Some(byte) => Prev::behind(*byte),
    }
}

/// Where the engine's expression is left in the text; None where a block isn't one for the engine.
fn left_in<E: BlockEngine>(
    alloc: Global,
    engine: &E,
    way: Way,
    text: &[u8],
) -> Result<Option<Left>, AllocError> {
    left_counted::<E, Brand>(alloc, engine, way, text, Blank::new(1))
}

/// The same with a ledger for the steps of the engine.
fn left_counted<E: BlockEngine, L: Ledger>(
    alloc: Global,
    engine: &E,
    way: Way,
    text: &[u8],
    blank: Blank,
) -> Result<Option<Left>, AllocError>
    requires name { blank.name ≡ L.name }
    requires parts { blank.parts ≡ L.parts }
    requires whole { 0 < L.parts }
{
    let mut region = vec![in alloc; 0u8; engine.size()]?;
    engine.clear(&mut region);
    let mut taken = Taken {
        region,
        prev: Prev::Start,
        at: 0,
    };
    let mut steps = Steps::<L>::open(blank);
    let mut left = Left {
        before: 0,
        behind: 0,
    };
    for block in text.chunks(BLOCK_BYTES) {
        let Some(ends) = taken.take(engine, way, block, &mut steps) else {
            return Ok(None);
        };
        left.add(ends);
    }
    Ok(Some(left))
}

/// How fast an engine takes a text, and where its expression is left there.
#[derive(Clone, Copy, Debug)]
pub(crate) struct Measured {
    pub(crate) fastest: Fastest,
    pub(crate) left: Left,
}

/// Measures an engine that takes the text in that way; None where a block isn't one for the engine.
pub(crate) fn measure<E: BlockEngine>(
    rt: &HostRuntime,
    engine: &E,
    way: Way,
    text: &[u8],
) -> io::Result<Option<Measured>>
    ensures { IfOk result (λ found. IfSome found (λ measured. measured.fastest.bytes ≡ length text.now)) }
{
    let mut fastest = Fastest::new(text.len());
    let mut last = None;
    for _round in 0..ROUNDS {
        let start = rt.thread_cpu_time()?;
        last = left_in(rt.alloc(), engine, way, text)?;
        let end = rt.thread_cpu_time()?;
        fastest.add(end.checked_sub(start).unwrap_or(Duration::ZERO));
    }
    match last {
        Some(left) => Ok(Some(Measured { fastest, left })),
        None => Ok(None),
    }
}

//! What a state is, and how its steps are written.

ghost use Rattle.std.specs.Prelude.{◌≡◌, ◌<◌, ◌≤◌, ◌↔◌, IsTrue, length, slice_index, take};
ghost use Rattle.hs_pool.specs.Rows.{IsStateOf, IsStepTo, next_of, step_place};
ghost use Rattle.hs_engine.specs.declared.ends.ByteEnds.{ByteEnds};

use hs_base::Prev;
use hs_engine::ByteEnds;

/// How many bytes the region of an engine has at most.
pub(crate) const MAX_REGION: usize = 64;

/// How many steps a state has: one by each byte, and one by each before which the expression is entered.
pub(crate) const ROW_LEN: usize = 512;

/// Where those of bytes begin before which the expression is entered.
const ENTERED_AT: usize = 256;

/// How many states there are at most.
pub(crate) const MAX_STATES: usize = 8192;

/// A state in which an engine was met.
#[derive(Clone, Copy, Debug)]
pub struct State {
    /// The number of the engine.
    pub engine: usize,
    /// What stands before the next byte.
    pub prev: Prev,
    /// The region, and zeros.
    pub region: [u8; MAX_REGION],
}

impl State {
    /// Whether it is that of the engine with that number, with that region, where that stands before the next byte.
    pub(crate) fn is(&self, engine: usize, prev: Prev, region: &[u8; MAX_REGION]) -> bool
        ensures { IsTrue result → IsStateOf self.now engine prev region.now }
    {
        self.engine == engine && self.prev == prev && self.region == *region
    }
}

/// A region, and zeros.
pub(crate) fn padded(region: &[u8]) -> [u8; MAX_REGION]
    requires { length region.now ≤ 64 }
    ensures { take (length region.now) result ≡ region.now }
{
    let mut padded = [0; MAX_REGION];
    padded[..region.len()].copy_from_slice(region);
    padded
}

/// Which of the steps of a state a byte makes, before which the expression is entered or not.
#[inline(always)]
pub(crate) fn step_place(enters: bool, byte: u8) -> usize
    ensures place { result ≡ step_place enters byte }
    ensures within { result < 512 }
{
    ENTERED_AT * enters as usize + byte as usize
}

/// A step: it leads to that state, and leaves the expression there.
pub(crate) fn step_to(next: usize, ends: ByteEnds) -> u16
    requires { next < 8192 }
    ensures { IsStepTo result next ends }
{
    4 * next as u16 + 2 * ends.behind as u16 + ends.before as u16
}

/// The number of the state that a step leads to; 0 where the step isn't known.
#[inline(always)]
pub(crate) fn next_of(step: u16) -> usize
    ensures { result ≡ next_of step }
{
    (step / 4) as usize
}

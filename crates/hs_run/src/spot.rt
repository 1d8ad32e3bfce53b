//! Where a stream stands between two of its bytes.

ghost use Rattle.std.specs.Prelude.{◌≡◌, ℕ, ◌+◌, ◌<◌, ◌≤◌, ◌^◌, List, [], ◌∷◌, ◌++◌, length, drop, slice_range};
ghost use Rattle.hs_base.specs.Lists.{Each};
ghost use Rattle.hs_base.specs.Regions.{history_at, history_size, last_bytes, region_offset, told_at};
ghost use Rattle.hs_layout.specs.Layouts.{laid_size};
ghost use Rattle.hs_run.specs.Spots.{IsSpot, prev_from};

use hs_base::Prev;
use hs_layout::{HISTORY_SIZE, Layout};

/// Where a stream stands: behind how many bytes, and behind which ones.
#[derive(Debug, Drop)]
pub(crate) struct Spot {
    /// How many bytes have come.
    pub at: u64,
    /// What stands before the next byte.
    pub prev: Prev,
    /// The last bytes, and zeros before the stream's first one.
    pub history: [u8; HISTORY_SIZE],
}

impl Spot {
    /// Where the stream of a region stands.
    pub fn of(layout: &Layout, region: &[u8]) -> Spot
        requires sized { length region.now ≡ laid_size layout.now }
        requires there { told_at ≤ length region.now }
        ensures at { result.at ≡ region_offset region.now }
        ensures history { result.history ≡ slice_range region.now history_at told_at }
        ensures stands { (u : List ℕ) → Each (λ b. b < 256) u → region_offset region.now ≡ length u →
            slice_range region.now history_at told_at ≡ last_bytes history_size u → IsSpot u result }
    {
        let mut history = [0u8; HISTORY_SIZE];
        history.copy_from_slice(layout.history(region));
        let at = layout.offset(region);
        let prev = prev_behind(at, history[HISTORY_SIZE - 1]);
        Spot { at, prev, history }
    }

    /// Where it stands behind one byte more.
    pub fn behind(&self, byte: u8) -> Spot
        requires room { self.now.at < 2 ^ 63 }
        requires whole { length self.now.history ≡ history_size }
        ensures at { result.at ≡ self.now.at + 1 }
        ensures history { result.history ≡ drop 1 (self.now.history ++ byte ∷ []) }
        ensures stands { (u : List ℕ) → IsSpot u self.now → IsSpot (u ++ byte ∷ []) result }
    {
        let mut history = [byte; HISTORY_SIZE];
        history[..HISTORY_SIZE - 1].copy_from_slice(&self.history[1..]);
        Spot {
            at: self.at + 1,
            prev: Prev::behind(byte),
            history,
        }
    }
}

/// A byte as it comes.
#[derive(Debug, Drop)]
pub(crate) struct Arrival {
    /// Where the stream stands before it.
    pub spot: Spot,
    /// Where it stands behind it.
    pub behind: Spot,
    /// The byte.
    pub byte: u8,
}

/// What stands before the next byte, where so many bytes have come and that was the last one.
pub(crate) fn prev_behind(at: u64, last: u8) -> Prev
    ensures { result ≡ prev_from at last }
{
    if at == 0 {
        Prev::Start
    } else {
        Prev::behind(last)
    }
}

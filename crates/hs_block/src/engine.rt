//! What an engine does that takes a block of bytes at once.

ghost use Rattle.std.specs.Prelude.{◌≡◌, ◌+◌, ◌^◌, ◌≤◌, length};
ghost use Rattle.hs_block.specs.Blocks.{TakesBlock, IsEnteredThroughout};

use crate::by_steps::run_by_steps;
use hs_base::Prev;
use hs_engine::{BlockEnds, Engine, Steps};
use std::sync::ledger::Ledger;

/// An engine that takes a block of up to 64 bytes at once.
pub trait BlockEngine: Engine {
    /// Takes the bytes from `at` on, behind `prev`; the expression is entered before each byte whose bit is set in
    /// `enters`. It counts a step for each byte before which the region isn't all 0 or the expression is entered.
    fn run<L: Ledger>(
        &self,
        region: &mut [u8],
        prev: Prev,
        at: u64,
        enters: u64,
        bytes: &[u8],
        steps: &mut Steps<L>,
    ) -> BlockEnds
        requires len { length region.old ≡ (Self.meaning self.now).width }
        requires well { (Self.meaning self.now).well region.old at }
        requires few { length bytes.now ≤ 64 }
        requires room { at + length bytes.now ≤ 2 ^ 63 }
        requires throughout { IsEnteredThroughout (Self.meaning self.now) enters (length bytes.now) }
        ensures len { length region.new ≡ (Self.meaning self.now).width }
        ensures well { (Self.meaning self.now).well region.new (at + length bytes.now) }
        ensures takes { TakesBlock (Self.meaning self.now) region.old region.new prev at enters bytes.now result
            steps.old steps.new }
    {
        run_by_steps(self, region, prev, at, enters, bytes, steps)
    }
}

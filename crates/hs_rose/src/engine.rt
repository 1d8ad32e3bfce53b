//! The engines of pieces as one type.

ghost use Rattle.std.specs.Prelude.{◌≡◌};

use crate::last_blocks::run_last;
use crate::positions::PositionEngine;
use hs_base::{ByteSet, NextSet, Prev};
use hs_block::{BlockEngine, run_by_steps};
use hs_engine::{BlockEnds, ByteEnds, Engine, Steps, TimelessEngine};
use hs_repeat::{First, Last, Ring};
use hs_waking::Beginnings;
use std::sync::ledger::Ledger;

/// Runs a piece that isn't a literal.
#[derive(Debug, Drop)]
pub enum PieceEngine {
    /// An expression, by its positions.
    Positions(Box<PositionEngine>),
    /// At least so many bytes of a set.
    First(First),
    /// At most so many bytes of a set, and none or one at least.
    Last(Last),
    /// Bytes of a set from one number to another.
    Ring(Ring),
}

impl PieceEngine {
    ghost use Rattle.std.specs.Prelude.{ℕ, ◌+◌, ◌<◌, Bool, true, false, List, [], ◌∷◌, ◌++◌, length};
    ghost use Rattle.hs_base.specs.Bits.{AreZero};
    ghost use Rattle.hs_base.specs.ByteSets.{has};
    ghost use Rattle.hs_base.specs.declared.context.Next.{Next};
    ghost use Rattle.hs_base.specs.Fields.{Leaves};
    ghost use Rattle.hs_base.specs.Trees.{Tree};
    ghost use Rattle.hs_rose.specs.PieceEngines.{piece_meaning};
    ghost use Rattle.hs_waking.specs.BeginningRows.{rows_of_beginnings};
    ghost use Rattle.hs_waking.specs.EntryRows.{TellBeginnings};

    /// How each match begins: what may stand before it, and rows of the sets of its first byte, the second and so on.
    /// Bytes in which none begins so wake nothing, and where none begins so the engine needs no entry.
    pub fn beginnings(&self) -> Beginnings<'_>
        ensures { TellBeginnings (piece_meaning self.now) result.behind (rows_of_beginnings result.rows) }
    {
        match self {
            PieceEngine::Positions(positions) => positions.beginnings(),
            PieceEngine::First(first) => Beginnings::with(first.wakers()),
            PieceEngine::Last(last) => Beginnings::with(last.wakers()),
            PieceEngine::Ring(ring) => Beginnings::with(ring.wakers()),
        }
    }

    /// The bytes that may be the last one of a match. Of a repeat it tells all bytes: such a piece never looks back, so
    /// that none asks for fewer.
    pub fn last_bytes(&self) -> ByteSet
        ensures { (tree : Tree) (u : List ℕ) (b : ℕ) (entered : List Bool) (next : Next) →
            (piece_meaning self.now).is_for tree →
            b < 256 →
            Leaves tree (u ++ b ∷ []) entered next →
            has result b ≡ true }
    {
        match self {
            PieceEngine::Positions(positions) => positions.last_bytes(),
            PieceEngine::First(_) | PieceEngine::Last(_) | PieceEngine::Ring(_) => {
                ByteSet::EMPTY.complement()
            }
        }
    }

    /// The bytes behind which something of it may be live: behind each other one its region is all 0. Of a repeat it
    /// tells all bytes.
    pub fn living_bytes(&self) -> ByteSet
        ensures { (region : List ℕ) (tree : Tree) (u : List ℕ) (b : ℕ) (entered : List Bool) →
            (piece_meaning self.now).is_for tree →
            length entered ≡ length u + 1 →
            b < 256 →
            has result b ≡ false →
            length region ≡ (piece_meaning self.now).width →
            AreZero region →
            (piece_meaning self.now).field region tree (u ++ b ∷ []) entered }
    {
        match self {
            PieceEngine::Positions(positions) => positions.living_bytes(),
            PieceEngine::First(_) | PieceEngine::Last(_) | PieceEngine::Ring(_) => ByteSet::ALL,
        }
    }
}

impl Engine for PieceEngine {
    ghost use Rattle.hs_rose.specs.PieceEngines.{piece_meaning};

    ghost meaning = { λ e. piece_meaning e };

    fn size(&self) -> usize {
        match self {
            PieceEngine::Positions(positions) => positions.size(),
            PieceEngine::First(first) => first.size(),
            PieceEngine::Last(last) => last.size(),
            PieceEngine::Ring(ring) => ring.size(),
        }
    }

    fn clear(&self, region: &mut [u8]) {
        match self {
            PieceEngine::Positions(positions) => positions.clear(region),
            PieceEngine::First(first) => first.clear(region),
            PieceEngine::Last(last) => last.clear(region),
            PieceEngine::Ring(ring) => ring.clear(region),
        }
    }

    fn step<L: Ledger>(
        &self,
        region: &mut [u8],
        prev: Prev,
        at: u64,
        enter: NextSet,
        byte: u8,
        steps: &mut Steps<L>,
    ) {
        match self {
            PieceEngine::Positions(positions) => positions.step(
                region, prev, at, enter, byte, steps,
            ),
            PieceEngine::First(first) => first.step(region, prev, at, enter, byte, steps),
            PieceEngine::Last(last) => last.step(region, prev, at, enter, byte, steps),
            PieceEngine::Ring(ring) => ring.step(region, prev, at, enter, byte, steps),
        }
    }

    fn out(&self, region: &[u8], prev: Prev, at: u64) -> NextSet {
        match self {
            PieceEngine::Positions(positions) => positions.out(region, prev, at),
            PieceEngine::First(first) => first.out(region, prev, at),
            PieceEngine::Last(last) => last.out(region, prev, at),
            PieceEngine::Ring(ring) => ring.out(region, prev, at),
        }
    }

    fn at_rest(&self, region: &[u8]) -> bool {
        match self {
            PieceEngine::Positions(positions) => positions.at_rest(region),
            PieceEngine::First(first) => first.at_rest(region),
            PieceEngine::Last(last) => last.at_rest(region),
            PieceEngine::Ring(ring) => ring.at_rest(region),
        }
    }

    fn wakers(&self) -> &ByteSet {
        match self {
            PieceEngine::Positions(positions) => positions.wakers(),
            PieceEngine::First(first) => first.wakers(),
            PieceEngine::Last(last) => last.wakers(),
            PieceEngine::Ring(ring) => ring.wakers(),
        }
    }

    fn well_formed(&self, region: &[u8], at: u64) -> bool {
        match self {
            PieceEngine::Positions(positions) => positions.well_formed(region, at),
            PieceEngine::First(first) => first.well_formed(region, at),
            PieceEngine::Last(last) => last.well_formed(region, at),
            PieceEngine::Ring(ring) => ring.well_formed(region, at),
        }
    }
}

impl BlockEngine for PieceEngine {
    fn run<L: Ledger>(
        &self,
        region: &mut [u8],
        prev: Prev,
        at: u64,
        enters: u64,
        bytes: &[u8],
        steps: &mut Steps<L>,
    ) -> BlockEnds {
        match self {
            PieceEngine::Positions(positions) => {
                positions.run(region, prev, at, enters, bytes, steps)
            }
            PieceEngine::First(first) => {
                run_by_steps(first, region, prev, at, enters, bytes, steps)
            }
            PieceEngine::Last(last) => run_last(last, region, prev, at, enters, bytes, steps),
            PieceEngine::Ring(ring) => {
                run_by_steps(ring, region, prev, at, enters, bytes, steps)
            }
        }
    }
}

impl TimelessEngine for PieceEngine {
    fn is_timeless(&self) -> bool {
        match self {
            PieceEngine::Positions(positions) => positions.is_timeless(),
            PieceEngine::First(_) | PieceEngine::Last(_) | PieceEngine::Ring(_) => false,
        }
    }

    #[inline(always)]
    fn take_byte(&self, region: &mut [u8], prev: Prev, enters: bool, byte: u8) -> Option<ByteEnds> {
        match self {
            PieceEngine::Positions(positions) => positions.take_byte(region, prev, enters, byte),
            PieceEngine::First(_) | PieceEngine::Last(_) | PieceEngine::Ring(_) => None,
        }
    }
}

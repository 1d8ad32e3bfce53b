//! The engine that moves 64 positions at a time.

ghost use Rattle.std.specs.Prelude.{◌≡◌, ℕ, ◌≤◌, IfOk, length};

use crate::body::Body;
use crate::clearing::is_clear_from;
use hs_base::{ByteSet, Next, NextSet, Prev};
use hs_bits::{clear_bits, is_zero};
use hs_engine::{Automaton, Engine, Steps};
use std::alloc::{AllocError, Global};
use std::sync::ledger::Ledger;

/// Runs a position automaton by words of bits. It keeps a bit for each position: whether it is reached.
///
/// Of at most 64 positions, where no context matters, a step is one word, and the engine takes 104 bytes and less than
/// 80 bytes a position. Of more positions, or where a context matters, it takes some 4 KB for each 64 positions and the
/// rows of what follows.
#[derive(Debug, Drop)]
pub struct Limex {
    body: Body,
}

impl Limex {
    ghost use Rattle.hs_base.specs.Trees.{Tree};
    ghost use Rattle.hs_engine.specs.Tables.{Runs};
    ghost use Rattle.hs_limex.specs.Anywhere.{TakesAnywhere, TellsAnywhere};
    ghost use Rattle.hs_limex.specs.Fitting.{Fits};
    ghost use Rattle.hs_limex.specs.LimexEngines.{meaning_of_limex, moves_of_limex};

    /// The engine of an automaton, of whose tables it makes its own.
    pub fn build(alloc: Global, automaton: &Automaton) -> Result<Limex, AllocError>
        ensures fits { IfOk result (λ limex. Fits (moves_of_limex limex) automaton.now) }
        ensures runs { IfOk result (λ limex. (tree : Tree) → Runs automaton.now tree →
            (meaning_of_limex limex).is_for tree) }
        ensures width { IfOk result (λ limex. (meaning_of_limex limex).width ≤ 64) }
    {
        Ok(Limex {
            body: Body::build(alloc, automaton)?,
        })
    }

    /// Takes a byte behind `prev`, before which the expression is entered or not, wherever the stream stands, and
    /// counts no step.
    #[inline(always)]
    pub fn move_by(&self, region: &mut [u8], prev: Prev, entered: bool, byte: u8)
        requires len { length region.old ≡ (meaning_of_limex self.now).width }
        ensures len { length region.new ≡ length region.old }
        ensures well { (at : ℕ) → (meaning_of_limex self.now).well region.new at }
        ensures takes { TakesAnywhere (meaning_of_limex self.now) region.old region.new prev entered byte }
    {
        if self.body.stays_at_rest(region, entered, byte) {
            return;
        }
        let next = Next::class_of(byte);
        self.body.move_over(region, prev, next, entered, byte);
    }

    /// What may come next where the expression is left behind `prev`, wherever the stream stands.
    pub fn leaves(&self, region: &[u8], prev: Prev) -> NextSet
        requires len { length region.now ≡ (meaning_of_limex self.now).width }
        ensures { TellsAnywhere (meaning_of_limex self.now) region.now prev result }
    {
        self.body.accepted(region, prev)
    }
}

impl Engine for Limex {
    ghost use Rattle.hs_limex.specs.LimexEngines.{meaning_of_limex};

    ghost meaning = { λ e. meaning_of_limex e };

    fn size(&self) -> usize {
        self.body.region_len()
    }

    fn clear(&self, region: &mut [u8]) {
        clear_bits(region);
    }

    fn step<L: Ledger>(
        &self,
        region: &mut [u8],
        prev: Prev,
        _at: u64,
        enter: NextSet,
        byte: u8,
        steps: &mut Steps<L>,
    ) {
        steps.tick();
        let next = Next::class_of(byte);
        let entering = enter.contains(next);
        if self.body.stays_at_rest(region, entering, byte) {
            return;
        }
        self.body.move_over(region, prev, next, entering, byte);
    }

    fn out(&self, region: &[u8], prev: Prev, _at: u64) -> NextSet {
        self.body.accepted(region, prev)
    }

    fn at_rest(&self, region: &[u8]) -> bool {
        is_zero(region)
    }

    fn wakers(&self) -> &ByteSet {
        self.body.first()
    }

    fn well_formed(&self, region: &[u8], _at: u64) -> bool {
        is_clear_from(region, self.body.size())
    }
}

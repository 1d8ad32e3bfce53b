//! The engine of an expression by its positions: byte by byte, and a block at once where that serves.

ghost use Rattle.std.specs.Prelude.{◌≡◌, ℕ, ◌+◌, ◌<◌, ◌≤◌, Bool, true, false, Some, IfOk, MatchOption};
ghost use Rattle.std.specs.Prelude.{List, [], ◌∷◌, ◌++◌, length, map, slice_get};
ghost use Rattle.hs_base.specs.ByteSets.{has};
ghost use Rattle.hs_base.specs.declared.context.Next.{Next};
ghost use Rattle.hs_base.specs.declared.context.Prev.{Prev};
ghost use Rattle.hs_base.specs.Contexts.{Context, class_of};
ghost use Rattle.hs_engine.specs.Automata.{in_mask, in_set};
ghost use Rattle.hs_engine.specs.Between.{between};
ghost use Rattle.hs_block.specs.declared.streams.Streams.{Streams};
ghost use Rattle.hs_block.specs.StreamSets.{takes_byte};
ghost use Rattle.hs_block.specs.StreamTables.{comes_before};
ghost use Rattle.hs_limex.specs.LimexEngines.{moves_of_limex};
ghost use Rattle.hs_rose.specs.MovesRows.{AreMovesRows};
ghost use Rattle.hs_waking.specs.PrevSets.{has_prev};
ghost use Rattle.hs_waking.specs.Rows.{row_sets};

use hs_base::{ByteSet, Next, NextSet, Prev};
use hs_block::{BlockEngine, Streams, run_by_steps};
use hs_engine::{Automaton, BlockEnds, ByteEnds, Engine, Steps, TimelessEngine, first_bytes};
use hs_limex::Limex;
use hs_waking::{BeginningRows, Beginnings, PrevSet, behind_of, rows_of};
use std::alloc::{AllocError, Global};
use std::sync::ledger::Ledger;

/// Runs an expression by its positions. Of at most 64 sets of bytes it takes a block by a word for each position; else,
/// and where that doesn't come to rest, byte by byte.
#[derive(Debug, Drop)]
pub struct PositionEngine {
    /// The engine that takes bytes.
    limex: Limex,
    /// The tables for blocks, of the same positions.
    streams: Option<Streams>,
    /// What may stand before a match.
    behind: PrevSet,
    /// How matches begin, by the bytes of the first levels of positions.
    rows: Vec<Vec<ByteSet>>,
    /// The bytes of the positions behind which a match may end.
    last: ByteSet,
    /// The bytes of all positions.
    living: ByteSet,
    ghost size_is: { (s : Streams) → streams ≡ Some s → s.size ≡ (moves_of_limex limex).size },
    ghost takes_are: { (s : Streams) → streams ≡ Some s → (x b : ℕ) → x < (moves_of_limex limex).size → b < 256 →
        takes_byte s.sets.items s.numbers.items x b ≡ (moves_of_limex limex).reach b x },
    ghost enters_are: { (s : Streams) → streams ≡ Some s → (x : ℕ) (c : Context) →
        in_mask (slice_get s.enters.items x) c ≡ (moves_of_limex limex).enters c x },
    ghost accepts_are: { (s : Streams) → streams ≡ Some s → (x : ℕ) (c : Context) →
        in_mask (slice_get s.accepts.items x) c ≡ (moves_of_limex limex).accepts c x },
    ghost follows_are: { (s : Streams) → streams ≡ Some s → (x y : ℕ) (c : Context) →
        x < (moves_of_limex limex).size → comes_before s x y c ≡ (moves_of_limex limex).follows y x c },
    ghost behind_has: { (x b : ℕ) (prev : Prev) → b < 256 →
        (moves_of_limex limex).enters (between prev (class_of b)) x ≡ true → (moves_of_limex limex).reach b x ≡ true →
        has_prev behind prev ≡ true },
    ghost rows_are: { ∥ AreMovesRows (moves_of_limex limex) (map row_sets rows.items) ∥₁ },
    ghost last_has: { (x b : ℕ) (c : Context) → b < 256 → (moves_of_limex limex).accepts c x ≡ true →
        (moves_of_limex limex).reach b x ≡ true → has last b ≡ true },
    ghost living_has: { (x b : ℕ) → b < 256 → (moves_of_limex limex).reach b x ≡ true → has living b ≡ true },
}

/// The bytes of all the sets.
fn bytes_of_any(sets: &[ByteSet]) -> ByteSet
    ensures { (x b : ℕ) → b < 256 → in_set (slice_get sets.now x) b ≡ true → has result b ≡ true }
{
    let mut any = ByteSet::EMPTY;
    for set in sets {
        any = any.union(set);
    }
    any
}

impl PositionEngine {
    ghost use Rattle.hs_base.specs.Bits.{AreZero};
    ghost use Rattle.hs_base.specs.Fields.{Leaves};
    ghost use Rattle.hs_base.specs.Trees.{Tree};
    ghost use Rattle.hs_engine.specs.Tables.{Runs};
    ghost use Rattle.hs_block.specs.Blocks.{TakesBlock};
    ghost use Rattle.hs_engine.specs.Timeless.{TakesStep};
    ghost use Rattle.hs_rose.specs.PositionEngines.{meaning_of_positions};
    ghost use Rattle.hs_waking.specs.BeginningRows.{rows_of_beginnings};
    ghost use Rattle.hs_waking.specs.EntryRows.{TellBeginnings};

    /// The engine of an automaton, of whose tables it makes its own.
    pub(crate) fn build(alloc: Global, automaton: &Automaton) -> Result<PositionEngine, AllocError>
        ensures { IfOk result (λ engine. (tree : Tree) → Runs automaton.now tree →
            (meaning_of_positions engine).is_for tree) }
    {
        let limex = Limex::build(alloc, automaton)?;
        let streams = Streams::build(alloc, automaton)?;
        let behind = behind_of(automaton);
        let rows = rows_of(alloc, automaton)?;
        // By the masks for accepting it gives the last bytes of matches, as by those for entering the first.
        let last = first_bytes(automaton.sets(), automaton.accepts());
        let living = bytes_of_any(automaton.sets());
        Ok(PositionEngine {
            limex,
            streams,
            behind,
            rows,
            last,
            living,
        })
    }

    /// How each match begins: what may stand before it, and the sets of its first bytes.
    pub(crate) fn beginnings(&self) -> Beginnings<'_>
        ensures { TellBeginnings (meaning_of_positions self.now) result.behind (rows_of_beginnings result.rows) }
    {
        Beginnings {
            behind: self.behind,
            rows: BeginningRows::Each(&self.rows),
        }
    }

    /// The bytes that may be the last one of a match.
    pub fn last_bytes(&self) -> ByteSet
        ensures { (tree : Tree) (u : List ℕ) (b : ℕ) (entered : List Bool) (next : Next) →
            (meaning_of_positions self.now).is_for tree →
            b < 256 →
            Leaves tree (u ++ b ∷ []) entered next →
            has result b ≡ true }
    {
        self.last
    }

    /// The bytes behind which something of it may be live: behind each other one its region is all 0.
    pub fn living_bytes(&self) -> ByteSet
        ensures { (region : List ℕ) (tree : Tree) (u : List ℕ) (b : ℕ) (entered : List Bool) →
            (meaning_of_positions self.now).is_for tree →
            length entered ≡ length u + 1 →
            b < 256 →
            has result b ≡ false →
            length region ≡ (meaning_of_positions self.now).width →
            AreZero region →
            (meaning_of_positions self.now).field region tree (u ++ b ∷ []) entered }
    {
        self.living
    }

    /// Takes a block at once; None where that doesn't serve, and then all is as before.
    fn take_whole<L: Ledger>(
        &self,
        region: &mut [u8],
        prev: Prev,
        at: u64,
        enters: u64,
        bytes: &[u8],
        steps: &mut Steps<L>,
    ) -> Option<BlockEnds>
        requires len { length region.old ≡ (meaning_of_positions self.now).width }
        requires well { (meaning_of_positions self.now).well region.old at }
        requires few { length bytes.now ≤ 64 }
        ensures len { length region.new ≡ length region.old }
        ensures takes { MatchOption result
            ((region.new ≡ region.old) × (steps.new ≡ steps.old))
            (λ ends. TakesBlock (meaning_of_positions self.now) region.old region.new prev at enters bytes.now ends
            steps.old steps.new) }
    {
        match &self.streams {
            Some(streams) => streams.run(region, prev, enters, bytes, steps),
            None => None,
        }
    }

    /// Takes a byte behind `prev`, before which the expression is entered or not, wherever the stream stands.
    #[inline(always)]
    fn take_by(&self, region: &mut [u8], prev: Prev, enters: bool, byte: u8) -> ByteEnds
        requires len { length region.old ≡ (meaning_of_positions self.now).width }
        ensures len { length region.new ≡ length region.old }
        ensures takes { TakesStep (meaning_of_positions self.now) region.old region.new prev enters byte result }
    {
        let before = self
            .limex
            .leaves(region, prev)
            .contains(Next::class_of(byte));
        self.limex.move_by(region, prev, enters, byte);
        let behind = self
            .limex
            .leaves(region, Prev::behind(byte))
            .contains(Next::Unknown);
        ByteEnds { before, behind }
    }
}

impl Engine for PositionEngine {
    ghost use Rattle.hs_rose.specs.PositionEngines.{meaning_of_positions};

    ghost meaning = { λ e. meaning_of_positions e };

    fn size(&self) -> usize {
        self.limex.size()
    }

    fn clear(&self, region: &mut [u8]) {
        self.limex.clear(region)
    }

    fn step<L: Ledger>(
        &self,
        region: &mut [u8],
        prev: Prev,
        at: u64,
        enter: NextSet,
        byte: u8,
        steps: &mut Steps<L>,
    ) {
        self.limex.step(region, prev, at, enter, byte, steps)
    }

    fn out(&self, region: &[u8], prev: Prev, at: u64) -> NextSet {
        self.limex.out(region, prev, at)
    }

    fn at_rest(&self, region: &[u8]) -> bool {
        self.limex.at_rest(region)
    }

    fn wakers(&self) -> &ByteSet {
        self.limex.wakers()
    }

    fn well_formed(&self, region: &[u8], at: u64) -> bool {
        self.limex.well_formed(region, at)
    }
}

impl BlockEngine for PositionEngine {
    fn run<L: Ledger>(
        &self,
        region: &mut [u8],
        prev: Prev,
        at: u64,
        enters: u64,
        bytes: &[u8],
        steps: &mut Steps<L>,
    ) -> BlockEnds {
        match self.take_whole(region, prev, at, enters, bytes, steps) {
            Some(ends) => ends,
            None => run_by_steps(self, region, prev, at, enters, bytes, steps),
        }
    }
}

impl TimelessEngine for PositionEngine {
    fn is_timeless(&self) -> bool {
        true
    }

    #[inline(always)]
    fn take_byte(&self, region: &mut [u8], prev: Prev, enters: bool, byte: u8) -> Option<ByteEnds> {
        Some(self.take_by(region, prev, enters, byte))
    }
}

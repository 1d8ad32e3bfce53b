//! What every engine does that runs one expression over a stream.

ghost use Rattle.std.specs.Prelude.{◌≡◌, ◌↔◌, ℕ, ◌+◌, ◌<◌, ◌^◌, Bool, true, false, List, [], ◌∷◌, ◌++◌, length, IsTrue};
ghost use Rattle.hs_base.specs.declared.context.Next.{Next};
ghost use Rattle.hs_base.specs.Contexts.{class_of, prev_at};
ghost use Rattle.hs_base.specs.ContextSets.{has_next};
ghost use Rattle.hs_base.specs.Trees.{Tree};
ghost use Rattle.hs_base.specs.Fields.{Leaves};
ghost use Rattle.hs_base.specs.Bits.{AreZero};
ghost use Rattle.hs_engine.specs.Engines.{AreWakers, IsQuiet, IsStart, Meaning, TakesByte, TellsLeaves};

use crate::steps::Steps;
use hs_base::{ByteSet, NextSet, Prev};
use std::sync::ledger::Ledger;

/// Runs one expression over a stream, byte by byte. What it keeps between two bytes is a region of bytes that its
/// caller lends it: the field of the bytes so far, and of the offsets at which the expression was entered.
pub trait Engine {
    /// What the engine runs, and what its regions say.
    ghost meaning: { Self → Meaning };

    /// The length of its regions in bytes.
    fn size(&self) -> usize
        ensures { result ≡ (meaning self.now).width };

    /// Makes the region that of the empty stream, which may stand at any offset.
    fn clear(&self, region: &mut [u8])
        requires { length region.old ≡ (meaning self.now).width }
        ensures len { length region.new ≡ (meaning self.now).width }
        ensures starts { IsStart (meaning self.now) region.new }
        ensures zero { (meaning self.now).always ≡ false → AreZero region.new }
        ensures well { (at : ℕ) → (meaning self.now).well region.new at };

    /// Takes the byte at `at`, behind `prev`, in one step; the expression is entered before it if `enter` has its
    /// class.
    fn step<L: Ledger>(
        &self,
        region: &mut [u8],
        prev: Prev,
        at: u64,
        enter: NextSet,
        byte: u8,
        steps: &mut Steps<L>,
    )
        requires len { length region.old ≡ (meaning self.now).width }
        requires well { (meaning self.now).well region.old at }
        requires room { at < 2 ^ 63 }
        ensures len { length region.new ≡ (meaning self.now).width }
        ensures well { (meaning self.now).well region.new (at + 1) }
        ensures ticks { steps.new ≡ steps.old + 1 }
        ensures takes { TakesByte (meaning self.now) region.old region.new prev at enter byte }
        ensures stays { (meaning self.now).always ≡ false →
            AreZero region.old →
            has_next enter (class_of byte) ≡ false →
            region.new ≡ region.old };

    /// What may come next where the expression ends at the offset `at` after at least one byte.
    fn out(&self, region: &[u8], prev: Prev, at: u64) -> NextSet
        requires len { length region.now ≡ (meaning self.now).width }
        requires well { (meaning self.now).well region.now at }
        ensures leaves { TellsLeaves (meaning self.now) region.now prev at result }
        ensures rests { (meaning self.now).always ≡ false → AreZero region.now → (next : Next) →
            has_next result next ≡ false };

    /// Whether nothing is live: all bytes are 0.
    fn at_rest(&self, region: &[u8]) -> bool
        requires { length region.now ≡ (meaning self.now).width }
        ensures zero { (meaning self.now).always ≡ false → IsTrue result ↔ AreZero region.now }
        ensures quiet { IsTrue result → IsQuiet (meaning self.now) region.now };

    /// The bytes that wake something: with any other byte the region of the empty stream may be passed over, even where
    /// the expression is entered before it. It may have more bytes than do so.
    fn wakers(&self) -> &ByteSet
        ensures { AreWakers (meaning self.now) result.now };

    /// Whether the region may be a field at that offset.
    fn well_formed(&self, region: &[u8], at: u64) -> bool
        requires { length region.now ≡ (meaning self.now).width }
        ensures { IsTrue result ↔ (meaning self.now).well region.now at };
}

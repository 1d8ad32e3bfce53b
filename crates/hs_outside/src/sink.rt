//! What takes bytes, in order.
ghost use Rattle.std.specs.Prelude.{◌≡◌, ℕ, List, Option, IfOk, OnOk, OnErr};
ghost use Rattle.hs_outside.specs.Counts.{Rose};
ghost use Rattle.hs_outside.specs.Sink.{Writes, TookPrefix};

use crate::Failed;

/// What takes bytes, in order.
pub trait Sink {
    /// The bytes that were written, where the sink tells them.
    ghost written: { Self → Option (List ℕ) };

    /// How often it has failed. The count stands still at 2^64 - 1.
    ghost faults: { Self → ℕ };

    /// Takes the first bytes of `bytes`, and gives their number, at least 1 where there is one. A failed sink may have
    /// taken some too.
    fn write(&mut self, bytes: &[u8]) -> Result<usize, Failed>
        ensures taken { IfOk result (λ n. Writes (written self.old) (written self.new) bytes.now n) }
        ensures counted { OnOk result (faults self.new ≡ faults self.old) }
        ensures cut { OnErr result (TookPrefix (written self.old) (written self.new) bytes.now) }
        ensures failed { OnErr result (Rose (faults self.old) (faults self.new)) };
}

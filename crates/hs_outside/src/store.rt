//! What holds files by name.
ghost use Rattle.std.specs.Prelude.{◌≡◌, ℕ, List, IfOk, OnOk, IfErr, OnErr};
ghost use Rattle.hs_outside.specs.Counts.{Rose};
ghost use Rattle.hs_outside.specs.Store.{Told, ReadsAt, Refuses, PutsOrHides, Spoils};

use crate::{Failed, StoreFault};

/// What holds files by name.
pub trait Store {
    /// What the store tells of each name.
    ghost told: { Self → List ℕ → Told };

    /// How often it has failed. The count stands still at 2^64 - 1.
    ghost faults: { Self → ℕ };

    /// Copies bytes of the file `name`, from the byte `offset` on, into the front of `buf`, and gives their number.
    /// For a buffer that isn't empty 0 comes at the file's end and past it. After a fault the buffer may hold anything.
    fn read_at(&mut self, name: &str, offset: u64, buf: &mut [u8]) -> Result<usize, StoreFault>
        ensures given { IfOk result (λ n. ReadsAt (told self.old name.now) offset buf.old buf.new n) }
        ensures counted { OnOk result (faults self.new ≡ faults self.old) }
        ensures refused { IfErr result
            (λ fault. Refuses fault (told self.old name.now) (faults self.old) (faults self.new)) }
        ensures kept { told self.new ≡ told self.old };

    /// Makes `bytes` the whole of the file `name`, which needn't be there before. After a failure that one file may be
    /// anything. A store may lose a put, if it tells nothing of any file from then on.
    fn put(&mut self, name: &str, bytes: &[u8]) -> Result<(), Failed>
        ensures done { OnOk result (PutsOrHides (told self.old) (told self.new) name.now bytes.now) }
        ensures counted { OnOk result (faults self.new ≡ faults self.old) }
        ensures spoiled { OnErr result (Spoils (told self.old) (told self.new) name.now) }
        ensures failed { OnErr result (Rose (faults self.old) (faults self.new)) };
}

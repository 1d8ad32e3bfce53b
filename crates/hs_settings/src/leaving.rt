//! A store in memory that lacks its files at one read.
ghost use Rattle.std.specs.Prelude.{◌≡◌, IfOk, OnOk, IfErr, OnErr};
ghost use Rattle.hs_outside.specs.Counts.{Rose};
ghost use Rattle.hs_outside.specs.Store.{untold, ReadsAt, Refuses, PutsOrHides, Spoils};

use hs_outside::{Failed, MemStore, Store, StoreFault};

/// A store in memory that lacks its files at one read. As it doesn't say at which, it tells nothing.
#[derive(Drop)]
pub struct Leaving {
    /// The store.
    pub store: MemStore,
    // How many reads there were.
    reads: u64,
    // The read at which its files are absent, from 1 on.
    gone: u64,
}

impl Leaving {
    /// This store, which lacks its files at that read.
    pub fn new(store: MemStore, gone: u64) -> Self
        ensures { result.store ≡ store }
    {
        Leaving {
            store,
            reads: 0,
            gone,
        }
    }
}

impl Store for Leaving {
    ghost told = { λ _ _. untold };

    ghost faults = { λ leaving. leaving.store.plan.faults };

    fn read_at(&mut self, name: &str, offset: u64, buf: &mut [u8]) -> Result<usize, StoreFault>
        ensures given { IfOk result (λ n. ReadsAt untold offset buf.old buf.new n) }
        ensures counted { OnOk result (self.new.store.plan.faults ≡ self.old.store.plan.faults) }
        ensures refused { IfErr result
            (λ fault. Refuses fault untold self.old.store.plan.faults self.new.store.plan.faults) }
    {
        self.reads = self.reads.saturating_add(1);
        if self.reads == self.gone {
            return Err(StoreFault::Absent);
        }
        self.store.read_at(name, offset, buf)
    }

    fn put(&mut self, name: &str, bytes: &[u8]) -> Result<(), Failed> {
        self.store.put(name, bytes)
    }
}

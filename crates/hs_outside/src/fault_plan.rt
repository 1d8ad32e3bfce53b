//! Which calls of an object over memory fail.
ghost use Rattle.std.specs.Prelude.{◌≡◌, IfOk};
ghost use Rattle.hs_outside.specs.Counts.{Rose};
ghost use Rattle.hs_outside.specs.FaultPlan.{first_plan, is_listed, called, failed};

use crate::fault::raise;
use std::alloc::{AllocError, Global};
use std::marker::Model;

/// The calls that are to fail, by number, with the count of all calls and that of those that failed.
#[derive(Drop)]
pub(crate) struct FaultPlan {
    fails: Vec<u64>,
    made: u64,
    faults: u64,
}

impl Model for FaultPlan {
    ghost use Rattle.hs_outside.specs.FaultPlan.{Plan};

    ghost Value = { Plan };

    ghost view = { λ plan. record { fails = plan.fails.items; made = plan.made; faults = plan.faults } };
}

impl FaultPlan {
    /// A plan of which no call was made yet. Calls are numbered from 1.
    pub(crate) fn new(alloc: Global, fails: &[u64]) -> Result<Self, AllocError>
        ensures { IfOk result (λ plan. plan ≡ first_plan fails.now) }
    {
        Ok(FaultPlan {
            fails: Vec::from_slice(alloc, fails)?,
            made: 0,
            faults: 0,
        })
    }

    /// Whether the next call is to fail.
    pub(crate) fn is_listed(&self) -> bool
        ensures { result ≡ is_listed self.now }
    {
        self.made < u64::MAX && self.fails.contains(&(self.made + 1))
    }

    /// Counts a call that did its work.
    pub(crate) fn call(&mut self)
        ensures { self.new ≡ called self.old }
    {
        self.made = raise(self.made);
    }

    /// Counts a call that failed.
    pub(crate) fn fail(&mut self)
        ensures after { self.new ≡ failed self.old }
        ensures rose { Rose self.old.faults self.new.faults }
    {
        self.made = raise(self.made);
        self.faults = raise(self.faults);
    }

    /// How many calls failed. The count stands still at 2^64 - 1.
    pub(crate) fn faults(&self) -> u64
        ensures { result ≡ self.now.faults }
    {
        self.faults
    }
}

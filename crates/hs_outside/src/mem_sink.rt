//! A sink into memory.
ghost use Rattle.std.specs.Prelude.{◌≡◌, ◌↔◌, Some, IfOk, OnOk, IsErr, IsTrue, OnErr};
ghost use Rattle.hs_outside.specs.Counts.{Rose};
ghost use Rattle.hs_outside.specs.MemSink.{first_sink, refuses_write, taken_len, after_write};
ghost use Rattle.hs_outside.specs.Sink.{Writes, TookPrefix};

use crate::fault_plan::FaultPlan;
use crate::{Failed, Sink};
use std::alloc::{AllocError, Global};
use std::marker::Model;

/// A sink into memory, with room for so many bytes. It fails at listed calls and where no room is left, and tells what
/// it took.
#[derive(Drop)]
pub struct MemSink {
    bytes: Vec<u8>,
    // The most bytes. There is capacity for them from the start.
    room: usize,
    plan: FaultPlan,
}

impl Model for MemSink {
    ghost use Rattle.std.specs.Prelude.{◌≤◌, length, vec_capacity};
    ghost use Rattle.hs_outside.specs.MemSink.{SinkState};

    ghost Value = { SinkState };

    ghost view = { λ sink. record { written = sink.bytes.items; room = sink.room; plan = sink.plan } };

    ghost invariant = { λ sink. (length sink.bytes.items ≤ sink.room) × (sink.room ≤ vec_capacity sink.bytes) };
}

impl MemSink {
    /// A sink with room for `room` bytes. A write takes what fits, and fails where nothing fits; the writes whose
    /// numbers, from 1 on, are in `fails` fail and take nothing.
    pub fn new(alloc: Global, room: usize, fails: &[u64]) -> Result<Self, AllocError>
        ensures { IfOk result (λ sink. sink ≡ first_sink room fails.now) }
    {
        Ok(MemSink {
            bytes: Vec::with_capacity(alloc, room)?,
            room,
            plan: FaultPlan::new(alloc, fails)?,
        })
    }

    /// The bytes that were written.
    pub fn written(&self) -> &[u8]
        ensures { result.now ≡ self.now.written }
    {
        &self.bytes
    }

    /// How many writes failed. The count stands still at 2^64 - 1.
    pub fn faults(&self) -> u64
        ensures { result ≡ self.now.plan.faults }
    {
        self.plan.faults()
    }
}

impl Sink for MemSink {
    ghost written = { λ sink. Some sink.written };

    ghost faults = { λ sink. sink.plan.faults };

    fn write(&mut self, bytes: &[u8]) -> Result<usize, Failed>
        ensures refused { IsErr result ↔ IsTrue (refuses_write self.old bytes.now) }
        ensures count { IfOk result (λ n. n ≡ taken_len self.old bytes.now) }
        ensures after { self.new ≡ after_write self.old bytes.now }
        ensures taken { IfOk result (λ n. Writes (Some self.old.written) (Some self.new.written) bytes.now n) }
        ensures counted { OnOk result (self.new.plan.faults ≡ self.old.plan.faults) }
        ensures cut { OnErr result (TookPrefix (Some self.old.written) (Some self.new.written) bytes.now) }
        ensures failed { OnErr result (Rose self.old.plan.faults self.new.plan.faults) }
    {
        let is_full = self.room <= self.bytes.len();
        if self.plan.is_listed() || (!bytes.is_empty() && is_full) {
            self.plan.fail();
            return Err(Failed);
        }
        let n = bytes.len().min(self.room - self.bytes.len());
        self.bytes.extend_from_slice(&bytes[..n]).unwrap();
        self.plan.call();
        Ok(n)
    }
}

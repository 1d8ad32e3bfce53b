//! A source over bytes in memory.
ghost use Rattle.std.specs.Prelude.{◌≡◌, ◌↔◌, Some, IfOk, OnOk, IsErr, IsTrue, OnErr, length};
ghost use Rattle.hs_outside.specs.Counts.{Rose};
ghost use Rattle.hs_outside.specs.FaultPlan.{is_listed};
ghost use Rattle.hs_outside.specs.MemSource.{first_source, given_len, after_read};
ghost use Rattle.hs_outside.specs.Source.{Reads};

use crate::fault_plan::FaultPlan;
use crate::{Failed, Source};
use std::alloc::{AllocError, Global};
use std::marker::Model;

/// A source over bytes in memory, which come in pieces. It fails at listed calls, and tells what is left.
#[derive(Drop)]
pub struct MemSource {
    bytes: Vec<u8>,
    // How many of the bytes were given.
    taken: usize,
    pieces: Vec<usize>,
    // The place of the next piece, which doesn't go past the last one.
    read: usize,
    plan: FaultPlan,
}

impl Model for MemSource {
    ghost use Rattle.std.specs.Prelude.{◌≤◌, length, drop};
    ghost use Rattle.hs_outside.specs.MemSource.{SourceState};

    ghost Value = { SourceState };

    ghost view = { λ source. record {
      left = drop source.taken source.bytes.items;
      pieces = drop source.read source.pieces.items;
      plan = source.plan;
    } };

    ghost invariant = { λ source. (source.taken ≤ length source.bytes.items) ×
        (source.read ≤ length source.pieces.items) };
}

impl MemSource {
    /// A source of these bytes. A read gives as many as the next of `pieces` says, where so many are left and fit; the
    /// last piece repeats, a length of 0 counts as 1, and without any a read gives what fits. The reads whose numbers,
    /// from 1 on, are in `fails` fail, and take no piece.
    pub fn new(
        alloc: Global,
        bytes: &[u8],
        pieces: &[usize],
        fails: &[u64],
    ) -> Result<Self, AllocError>
        ensures { IfOk result (λ source. source ≡ first_source bytes.now pieces.now fails.now) }
    {
        Ok(MemSource {
            bytes: Vec::from_slice(alloc, bytes)?,
            taken: 0,
            pieces: Vec::from_slice(alloc, pieces)?,
            read: 0,
            plan: FaultPlan::new(alloc, fails)?,
        })
    }

    /// How many reads failed. The count stands still at 2^64 - 1.
    pub fn faults(&self) -> u64
        ensures { result ≡ self.now.plan.faults }
    {
        self.plan.faults()
    }

    /// How many bytes the next read gives, into a buffer of this length.
    fn given_len(&self, room: usize) -> usize
        ensures { result ≡ given_len self.now room }
    {
        let left = self.bytes.len() - self.taken;
        let most = if self.read < self.pieces.len() {
            self.pieces[self.read].max(1)
        } else {
            room
        };
        most.min(room).min(left)
    }
}

impl Source for MemSource {
    ghost left = { λ source. Some source.left };

    ghost faults = { λ source. source.plan.faults };

    fn read(&mut self, buf: &mut [u8]) -> Result<usize, Failed>
        ensures listed { IsErr result ↔ IsTrue (is_listed self.old.plan) }
        ensures count { IfOk result (λ n. n ≡ given_len self.old (length buf.old)) }
        ensures after { self.new ≡ after_read self.old (length buf.old) }
        ensures untouched { OnErr result (buf.new ≡ buf.old) }
        ensures given { IfOk result (λ n. Reads (Some self.old.left) (Some self.new.left) buf.old buf.new n) }
        ensures counted { OnOk result (self.new.plan.faults ≡ self.old.plan.faults) }
        ensures kept { OnErr result (Some self.new.left ≡ Some self.old.left) }
        ensures failed { OnErr result (Rose self.old.plan.faults self.new.plan.faults) }
    {
        if self.plan.is_listed() {
            self.plan.fail();
            return Err(Failed);
        }
        let n = self.given_len(buf.len());
        buf[..n].copy_from_slice(&self.bytes[self.taken..self.taken + n]);
        self.plan.call();
        self.taken += n;
        if self.read + 1 < self.pieces.len() {
            self.read += 1;
        }
        Ok(n)
    }
}

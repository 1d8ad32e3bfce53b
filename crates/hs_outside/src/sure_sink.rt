//! A sink into memory that never fails.
ghost use Rattle.std.specs.Prelude.{◌≡◌, Ok, IfOk, OnOk, OnErr, length};
ghost use Rattle.std.specs.Option.{option_copied};
ghost use Rattle.hs_outside.specs.Sink.{Writes};
ghost use Rattle.hs_outside.specs.SureSink.{first_record, written_of, after_record};

use crate::{Failed, Sink};
use std::alloc::{AllocError, Global};
use std::marker::Model;

/// A sink into memory, with room for so many bytes. It never fails: a write past its room is taken and lost, and from
/// then on the sink tells nothing.
#[derive(Drop)]
pub struct SureSink {
    bytes: Vec<u8>,
    // The most bytes. There is capacity for them from the start.
    room: usize,
    // Whether each write until now had room.
    is_told: bool,
}

impl Model for SureSink {
    ghost use Rattle.std.specs.Prelude.{◌≤◌, length, vec_capacity};
    ghost use Rattle.hs_outside.specs.SureSink.{Kept};

    ghost Value = { Kept };

    ghost view = { λ sink. record { kept = sink.bytes.items; room = sink.room; is_told = sink.is_told } };

    ghost invariant = { λ sink. (length sink.bytes.items ≤ sink.room) × (sink.room ≤ vec_capacity sink.bytes) };
}

impl SureSink {
    /// A sink with room for `room` bytes.
    pub fn new(alloc: Global, room: usize) -> Result<Self, AllocError>
        ensures { IfOk result (λ sink. sink ≡ first_record room) }
    {
        Ok(SureSink {
            bytes: Vec::with_capacity(alloc, room)?,
            room,
            is_told: true,
        })
    }

    /// The bytes that were written, where all of them had room.
    pub fn written(&self) -> Option<&[u8]>
        ensures { option_copied result ≡ written_of self.now }
    {
        if self.is_told {
            Some(&self.bytes)
        } else {
            None
        }
    }
}

impl Sink for SureSink {
    ghost written = { written_of };

    ghost faults = { λ _. 0 };

    fn write(&mut self, bytes: &[u8]) -> Result<usize, Failed>
        ensures answer { result ≡ Ok (length bytes.now) }
        ensures after { self.new ≡ after_record self.old bytes.now }
        ensures taken { IfOk result (λ n. Writes (written_of self.old) (written_of self.new) bytes.now n) }
    {
        if bytes.len() <= self.room - self.bytes.len() {
            self.bytes.extend_from_slice(bytes).unwrap();
        } else {
            self.is_told = false;
        }
        Ok(bytes.len())
    }
}

//! A source over bytes in memory that never fails.
ghost use Rattle.std.specs.Prelude.{◌≡◌, Some, Ok, IfOk, length};
ghost use Rattle.hs_outside.specs.SureSource.{first_supply, supplied_len, after_supply};
ghost use Rattle.hs_outside.specs.Source.{Reads};

use crate::{Failed, MemSource, Source};
use std::alloc::{AllocError, Global};
use std::marker::Model;

/// A source over bytes in memory, which come in pieces. It never fails, and tells what is left.
#[derive(Drop)]
pub struct SureSource {
    // No call of it is listed to fail.
    source: MemSource,
}

impl Model for SureSource {
    ghost use Rattle.std.specs.Prelude.{◌≡◌, []};
    ghost use Rattle.hs_outside.specs.SureSource.{Supply};

    ghost Value = { Supply };

    ghost view = { λ sure. record { left = sure.source.left; pieces = sure.source.pieces } };

    ghost invariant = { λ sure. sure.source.plan.fails ≡ [] };
}

impl SureSource {
    /// A source of these bytes. A read gives as many as the next of `pieces` says, where so many are left and fit; the
    /// last piece repeats, a length of 0 counts as 1, and without any a read gives what fits.
    pub fn new(alloc: Global, bytes: &[u8], pieces: &[usize]) -> Result<Self, AllocError>
        ensures { IfOk result (λ source. source ≡ first_supply bytes.now pieces.now) }
    {
        Ok(SureSource {
            source: MemSource::new(alloc, bytes, pieces, &[])?,
        })
    }
}

impl Source for SureSource {
    ghost left = { λ source. Some source.left };

    ghost faults = { λ _. 0 };

    fn read(&mut self, buf: &mut [u8]) -> Result<usize, Failed>
        ensures answer { result ≡ Ok (supplied_len self.old (length buf.old)) }
        ensures after { self.new ≡ after_supply self.old (length buf.old) }
        ensures given { IfOk result (λ n. Reads (Some self.old.left) (Some self.new.left) buf.old buf.new n) }
    {
        self.source.read(buf)
    }
}

//! A store in memory that never fails.
ghost use Rattle.std.specs.Prelude.{◌≡◌, false, Ok, IfOk, IfErr, OnOk, OnErr, length};
ghost use Rattle.std.specs.Option.{option_copied};
ghost use Rattle.hs_outside.specs.MemStore.{content_of, read_answer};
ghost use Rattle.hs_outside.specs.Store.{ReadsAt, Refuses, PutsOrHides};
ghost use Rattle.hs_outside.specs.SureStore.{first_cabinet, told_by, after_filing};

use crate::{Failed, MemStore, Store, StoreFault};
use std::alloc::{AllocError, Global};
use std::marker::Model;

/// A store in memory, with room for so many files, and so many bytes of their names and contents. It never fails: a put
/// past its room is lost, and from then on the store tells nothing.
#[derive(Drop)]
pub struct SureStore {
    // No call of it is listed to fail.
    store: MemStore,
    // Whether each put until now had room.
    is_told: bool,
}

impl Model for SureStore {
    ghost use Rattle.std.specs.Prelude.{◌≡◌, []};
    ghost use Rattle.hs_outside.specs.SureStore.{Cabinet};

    ghost Value = { Cabinet };

    ghost view = { λ sure. record {
      files = sure.store.files;
      most_files = sure.store.most_files;
      room = sure.store.room;
      is_told = sure.is_told;
    } };

    ghost invariant = { λ sure. sure.store.plan.fails ≡ [] };
}

impl SureStore {
    /// A store without files, with room for `files` files whose names and contents have `bytes` bytes together. It
    /// takes memory for `files` names and contents of `bytes` bytes each.
    pub fn new(alloc: Global, files: usize, bytes: usize) -> Result<Self, AllocError>
        ensures { IfOk result (λ store. store ≡ first_cabinet files bytes) }
    {
        Ok(SureStore {
            store: MemStore::new(alloc, files, bytes, &[])?,
            is_told: true,
        })
    }

    /// The bytes of the file of this name, of those whose puts had room.
    pub fn file(&self, name: &str) -> Option<&[u8]>
        ensures { option_copied result ≡ content_of self.now.files name.now }
    {
        self.store.file(name)
    }

    /// Whether each put until now had room, so that the store tells what it holds.
    pub fn is_told(&self) -> bool
        ensures { result ≡ self.now.is_told }
    {
        self.is_told
    }
}

impl Store for SureStore {
    ghost told = { told_by };

    ghost faults = { λ _. 0 };

    fn read_at(&mut self, name: &str, offset: u64, buf: &mut [u8]) -> Result<usize, StoreFault>
        ensures answer { result ≡ read_answer (content_of self.old.files name.now) false offset (length buf.old) }
        ensures after { self.new ≡ self.old }
        ensures untouched { OnErr result (buf.new ≡ buf.old) }
        ensures given { IfOk result (λ n. ReadsAt (told_by self.old name.now) offset buf.old buf.new n) }
        ensures refused { IfErr result (λ fault. Refuses fault (told_by self.old name.now) 0 0) }
        ensures kept { told_by self.new ≡ told_by self.old }
    {
        self.store.read_at(name, offset, buf)
    }

    fn put(&mut self, name: &str, bytes: &[u8]) -> Result<(), Failed>
        ensures answer { result ≡ Ok tt }
        ensures after { self.new ≡ after_filing self.old name.now bytes.now }
        ensures done { OnOk result (PutsOrHides (told_by self.old) (told_by self.new) name.now bytes.now) }
    {
        if self.store.put(name, bytes).is_err() {
            self.is_told = false;
        }
        Ok(())
    }
}

//! A store in memory.
ghost use Rattle.std.specs.Prelude.{◌≡◌, ◌≢◌, ◌<◌, ◌≤◌, ◌↔◌, Some, IfSome, IfOk, OnOk, IsErr, IsTrue, IfErr, OnErr};
ghost use Rattle.std.specs.Prelude.{MatchOption, All, length, min, ◌-◌};
ghost use Rattle.std.specs.Option.{option_copied};
ghost use Rattle.hs_outside.specs.Counts.{Rose};
ghost use Rattle.hs_outside.specs.FaultPlan.{is_listed};
ghost use Rattle.hs_outside.specs.MemFile.{files_of};
ghost use Rattle.hs_outside.specs.MemStore.{IsFirstNamed, first_store, content_of, told_in, read_answer, plan_read};
ghost use Rattle.hs_outside.specs.MemStore.{put_in, has_room, refuses_put, after_put};
ghost use Rattle.hs_outside.specs.Store.{holds, ReadsAt, Refuses, Puts, PutsOrHides, Spoils};

use crate::fault_plan::FaultPlan;
use crate::mem_file::MemFile;
use crate::{Failed, Store, StoreFault};
use std::alloc::{AllocError, Global};
use std::marker::Model;

/// A store in memory, with room for so many files, and so many bytes of their names and contents. It fails at listed
/// calls and where a put has no room, and tells all that it holds.
#[derive(Drop)]
pub struct MemStore {
    files: Vec<MemFile>,
    // Files for names to come. Each file has room for all the bytes of the store, so that no put wants memory.
    spare: Vec<MemFile>,
    // How many bytes the names and contents have together, at most `room`.
    used: usize,
    room: usize,
    plan: FaultPlan,
}

impl Model for MemStore {
    ghost use Rattle.std.specs.Prelude.{◌+◌, length, vec_capacity};
    ghost use Rattle.hs_outside.specs.MemFile.{files_of, IsStocked};
    ghost use Rattle.hs_outside.specs.MemStore.{StoreState};

    ghost Value = { StoreState };

    ghost view = { λ store. record {
      files = files_of store.files.items;
      most_files = length store.files.items + length store.spare.items;
      room = store.room;
      plan = store.plan;
    } };

    ghost invariant = { λ store. IsStocked store.files.items store.spare.items (vec_capacity store.files) store.used
        store.room };
}

/// Where the first file of this name stands.
fn position(files: &[MemFile], name: &[u8]) -> Option<usize>
    ensures within { IfSome result (λ place. place < length files.now) }
    ensures first { MatchOption result (All (λ file. file.name ≢ name.now) (files_of files.now))
        (IsFirstNamed (files_of files.now) name.now) }
{
    for (place, file) in files.iter().enumerate() {
        if file.is_named(name) {
            return Some(place);
        }
    }
    None
}

/// The bytes of the first file of this name.
fn content_in<'a>(files: &'a [MemFile], name: &[u8]) -> Option<&'a [u8]>
    ensures { option_copied result ≡ content_of (files_of files.now) name.now }
{
    match position(files, name) {
        Some(place) => Some(files[place].content()),
        None => None,
    }
}

impl MemStore {
    /// A store without files, with room for `files` files whose names and contents have `bytes` bytes together. The
    /// calls whose numbers, from 1 on, are in `fails` fail and change nothing, but a read of a file that isn't there.
    /// It takes memory for `files` names and contents of `bytes` bytes each.
    pub fn new(alloc: Global, files: usize, bytes: usize, fails: &[u64]) -> Result<Self, AllocError>
        ensures { IfOk result (λ store. store ≡ first_store files bytes fails.now) }
    {
        let mut spare = Vec::with_capacity(alloc, files)?;
        for _ in 0..files {
            spare.push(MemFile::new(alloc, bytes)?)?;
        }
        Ok(MemStore {
            files: Vec::with_capacity(alloc, files)?,
            spare,
            used: 0,
            room: bytes,
            plan: FaultPlan::new(alloc, fails)?,
        })
    }

    /// The bytes of the file of this name, if it is there.
    pub fn file(&self, name: &str) -> Option<&[u8]>
        ensures { option_copied result ≡ content_of self.now.files name.now }
    {
        content_in(&self.files, name.as_bytes())
    }

    /// How many calls failed. The count stands still at 2^64 - 1.
    pub fn faults(&self) -> u64
        ensures { result ≡ self.now.plan.faults }
    {
        self.plan.faults()
    }

    /// Whether the store would have room for all its files after these bytes were put under this name.
    fn has_room(&self, name: &[u8], bytes: &[u8]) -> bool
        ensures { result ≡ has_room self.now name.now bytes.now }
    {
        match position(&self.files, name) {
            Some(place) => {
                let others = self.used - self.files[place].content().len();
                bytes.len() <= self.room - others
            }
            None => {
                if self.spare.is_empty() {
                    return false;
                }
                let left = self.room - self.used;
                if left < name.len() {
                    return false;
                }
                bytes.len() <= left - name.len()
            }
        }
    }

    /// Puts these bytes under this name.
    fn place(&mut self, name: &[u8], bytes: &[u8])
        requires { IsTrue (has_room self.old name.now bytes.now) }
        ensures { self.new ≡ record self.old { files = put_in self.old.files name.now bytes.now } }
    {
        match position(&self.files, name) {
            Some(place) => {
                let file = &mut self.files[place];
                self.used = self.used - file.content().len() + bytes.len();
                file.set_content(bytes);
            }
            None => {
                let mut file = self.spare.pop().unwrap();
                file.set_name(name);
                file.set_content(bytes);
                self.files.push(file).unwrap();
                self.used += name.len() + bytes.len();
            }
        }
    }
}

/// Copies bytes, from the byte `offset` on, into the front of `buf`, and gives their number.
fn copy_part(content: &[u8], offset: u64, buf: &mut [u8]) -> usize
    ensures count { result ≡ min (length buf.old) (length content.now - offset) }
    ensures read { ReadsAt (holds content.now) offset buf.old buf.new result }
{
    let start = content.len().min(offset as usize);
    let rest = &content[start..];
    let n = buf.len().min(rest.len());
    buf[..n].copy_from_slice(&rest[..n]);
    n
}

impl Store for MemStore {
    ghost told = { told_in };

    ghost faults = { λ store. store.plan.faults };

    fn read_at(&mut self, name: &str, offset: u64, buf: &mut [u8]) -> Result<usize, StoreFault>
        ensures answer { result ≡ read_answer (content_of self.old.files name.now) (is_listed self.old.plan) offset
            (length buf.old) }
        ensures after { self.new ≡ record self.old {
          plan = plan_read (content_of self.old.files name.now) self.old.plan;
        } }
        ensures untouched { OnErr result (buf.new ≡ buf.old) }
        ensures given { IfOk result (λ n. ReadsAt (told_in self.old name.now) offset buf.old buf.new n) }
        ensures counted { OnOk result (self.new.plan.faults ≡ self.old.plan.faults) }
        ensures refused { IfErr result (λ fault. Refuses fault (told_in self.old name.now) self.old.plan.faults
            self.new.plan.faults) }
        ensures kept { told_in self.new ≡ told_in self.old }
    {
        match content_in(&self.files, name.as_bytes()) {
            None => {
                self.plan.call();
                Err(StoreFault::Absent)
            }
            Some(content) => {
                if self.plan.is_listed() {
                    self.plan.fail();
                    return Err(StoreFault::Failed);
                }
                let n = copy_part(content, offset, buf);
                self.plan.call();
                Ok(n)
            }
        }
    }

    fn put(&mut self, name: &str, bytes: &[u8]) -> Result<(), Failed>
        ensures full { IsErr result ↔ IsTrue (refuses_put self.old name.now bytes.now) }
        ensures after { self.new ≡ after_put self.old name.now bytes.now }
        ensures filed { OnOk result (Puts (told_in self.old) (told_in self.new) name.now bytes.now) }
        ensures done { OnOk result (PutsOrHides (told_in self.old) (told_in self.new) name.now bytes.now) }
        ensures counted { OnOk result (self.new.plan.faults ≡ self.old.plan.faults) }
        ensures spoiled { OnErr result (Spoils (told_in self.old) (told_in self.new) name.now) }
        ensures failed { OnErr result (Rose self.old.plan.faults self.new.plan.faults) }
    {
        let name = name.as_bytes();
        if self.plan.is_listed() || !self.has_room(name, bytes) {
            self.plan.fail();
            return Err(Failed);
        }
        self.place(name, bytes);
        self.plan.call();
        Ok(())
    }
}

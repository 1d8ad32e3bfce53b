//! A file in memory.
ghost use Rattle.std.specs.Prelude.{◌≡◌, ◌≤◌, ◌↔◌, [], IfOk, IsTrue, length, vec_capacity};

use std::alloc::{AllocError, Global};
use std::marker::Model;

/// A file in memory, with room for a name and bytes of so many bytes each.
#[derive(Drop)]
pub(crate) struct MemFile {
    name: Vec<u8>,
    content: Vec<u8>,
    room: usize,
}

impl Model for MemFile {
    ghost use Rattle.std.specs.Prelude.{◌≤◌, vec_capacity};
    ghost use Rattle.hs_outside.specs.MemFile.{Slot};

    ghost Value = { Slot };

    ghost view = { λ file. record { name = file.name.items; content = file.content.items; room = file.room } };

    ghost invariant = { λ file. (file.room ≤ vec_capacity file.name) × (file.room ≤ vec_capacity file.content) };
}

impl MemFile {
    /// A file without a name and without bytes.
    pub(crate) fn new(alloc: Global, room: usize) -> Result<Self, AllocError>
        ensures { IfOk result (λ file. file ≡ record { name = []; content = []; room = room }) }
    {
        Ok(MemFile {
            name: Vec::with_capacity(alloc, room)?,
            content: Vec::with_capacity(alloc, room)?,
            room,
        })
    }

    /// Whether this is the file's name.
    pub(crate) fn is_named(&self, name: &[u8]) -> bool
        ensures { IsTrue result ↔ (self.now.name ≡ name.now) }
    {
        self.name.as_slice() == name
    }

    /// The file's bytes.
    pub(crate) fn content(&self) -> &[u8]
        ensures { result.now ≡ self.now.content }
    {
        &self.content
    }

    /// Gives the file a name.
    pub(crate) fn set_name(&mut self, name: &[u8])
        requires { length name.now ≤ self.old.room }
        ensures { self.new ≡ record self.old { name = name.now } }
    {
        fill(&mut self.name, name);
    }

    /// Gives the file other bytes.
    pub(crate) fn set_content(&mut self, bytes: &[u8])
        requires { length bytes.now ≤ self.old.room }
        ensures { self.new ≡ record self.old { content = bytes.now } }
    {
        fill(&mut self.content, bytes);
    }
}

/// Puts other bytes in the place of those that are there.
fn fill(target: &mut Vec<u8>, bytes: &[u8])
    requires { length bytes.now ≤ vec_capacity target.old }
    ensures items { target.new.items ≡ bytes.now }
    ensures capacity { vec_capacity target.old ≤ vec_capacity target.new }
{
    target.clear();
    target.extend_from_slice(bytes).unwrap();
}

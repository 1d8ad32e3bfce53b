//! The line of a command, as it comes in pieces.
ghost use Rattle.std.specs.Prelude.{◌≡◌, ◌+◌, ◌≤◌, [], ◌++◌, length};
ghost use Rattle.hs_reader.specs.Reading.{kept_of};

use std::marker::Model;

/// How many bytes of a line are kept. No command is that long.
const KEPT_LEN: usize = 112;

/// The first bytes of a line.
#[derive(Drop)]
pub struct Line {
    bytes: [u8; KEPT_LEN],
    /// How many of them came.
    len: usize,
}

impl Model for Line {
    ghost use Rattle.std.specs.Prelude.{ℕ, List, ◌≤◌, take};

    ghost Value = { List ℕ };

    ghost view = { λ line. take line.len line.bytes };

    ghost invariant = { λ line. line.len ≤ 112 };
}

impl Line {
    /// No byte came.
    pub fn new() -> Line
        ensures { result ≡ [] }
    {
        Line {
            bytes: [0; KEPT_LEN],
            len: 0,
        }
    }

    /// What is kept.
    pub fn as_slice(&self) -> &[u8]
        ensures { result.now ≡ self.now }
    {
        &self.bytes[..self.len]
    }

    /// Begins a new line.
    pub fn clear(&mut self)
        ensures { self.new ≡ [] }
    {
        self.len = 0;
    }

    /// Puts the next bytes of the line behind those that are kept, as far as they have room.
    pub fn append(&mut self, bytes: &[u8])
        ensures { self.new ≡ kept_of (self.old ++ bytes.now) }
    {
        let count = self.room().min(bytes.len());
        self.put(&bytes[..count]);
    }

    /// How many bytes have room.
    fn room(&self) -> usize
        ensures { length self.now + result ≡ KEPT_LEN }
    {
        KEPT_LEN - self.len
    }

    /// Puts bytes behind those that are kept, where they have room.
    fn put(&mut self, bytes: &[u8])
        requires { length self.old + length bytes.now ≤ KEPT_LEN }
        ensures { self.new ≡ self.old ++ bytes.now }
    {
        let end = self.len + bytes.len();
        self.bytes[self.len..end].copy_from_slice(bytes);
        self.len = end;
    }
}

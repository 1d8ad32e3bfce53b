//! Lines on their way to a sink.
ghost use Rattle.std.specs.Prelude.{◌≡◌, ◌+◌, ◌≤◌, [], ◌++◌, length, OnOk};
ghost use Rattle.hs_outside.specs.Sink.{Sends};
ghost use Rattle.hs_lines.specs.Passing.{Queues};
ghost use Rattle.hs_text.specs.declared.line_buffer.TheConstants.{LINE_LEN};

use hs_outside::{Failed, Sink, write_all};
use hs_text::LINE_LEN;
use std::marker::Model;

/// How many bytes wait at most.
const CAPACITY: usize = 8192;

/// Bytes that wait until a sink is given many of them at once.
#[derive(Drop)]
pub struct Pending {
    bytes: [u8; CAPACITY],
    /// How many of the bytes wait, from the first one on.
    len: usize,
}

impl Model for Pending {
    ghost use Rattle.std.specs.Prelude.{ℕ, List, ◌≤◌, take};

    ghost Value = { List ℕ };

    ghost view = { λ pending. take pending.len pending.bytes };

    ghost invariant = { λ pending. pending.len ≤ 8192 };
}

impl Pending {
    /// Nothing waits.
    pub fn new() -> Pending
        ensures { result ≡ [] }
    {
        Pending {
            bytes: [0; CAPACITY],
            len: 0,
        }
    }

    /// Puts a line behind what waits. Where it has no room, what waits is written first.
    pub fn put<O: Sink>(&mut self, line: &[u8], out: &mut O) -> Result<(), Failed>
        requires { length line.now ≤ LINE_LEN }
        ensures { Queues result (O.written out.old) (O.written out.new) (O.faults out.old) (O.faults out.new)
            self.old self.new line.now }
    {
        self.make_room(line.len(), out)?;
        self.append(line);
        Ok(())
    }

    /// Writes all that waits.
    pub fn flush<O: Sink>(&mut self, out: &mut O) -> Result<(), Failed>
        ensures sent { Sends result (O.written out.old) (O.written out.new) (O.faults out.old) (O.faults out.new)
            self.old }
        ensures empty { OnOk result (self.new ≡ []) }
    {
        write_all(out, &self.bytes[..self.len])?;
        self.len = 0;
        Ok(())
    }

    /// Makes room for some bytes more, at most those of a line, by writing what waits if it has to.
    fn make_room<O: Sink>(&mut self, count: usize, out: &mut O) -> Result<(), Failed>
        requires { count ≤ LINE_LEN }
        ensures room { OnOk result (length self.new + count ≤ CAPACITY) }
        ensures passed { Queues result (O.written out.old) (O.written out.new) (O.faults out.old) (O.faults out.new)
            self.old self.new [] }
    {
        if CAPACITY - self.waiting() >= count {
            return Ok(());
        }
        self.flush(out)
    }

    /// How many bytes wait.
    fn waiting(&self) -> usize
        ensures count { result ≡ length self.now }
        ensures within { result ≤ CAPACITY }
    {
        self.len
    }

    /// Puts bytes behind what waits, where they have room.
    fn append(&mut self, bytes: &[u8])
        requires { length self.old + length bytes.now ≤ CAPACITY }
        ensures { self.new ≡ self.old ++ bytes.now }
    {
        let end = self.len + bytes.len();
        self.bytes[self.len..end].copy_from_slice(bytes);
        self.len = end;
    }
}

//! A read of std, of which the rest of the buffer is known to stay.
ghost use Rattle.std.specs.Prelude.{◌≡◌, ◌≤◌, IfOk, length, drop};

use crate::Failed;
use crate::fault::MOST_TRIES;
use std::io::{ErrorKind, Read};

/// The most bytes that one read takes.
const CHUNK_LEN: usize = 65536;

/// Room for what a reader gives. Of the room past the bytes that it gave a reader promises nothing, so it isn't given
/// the caller's buffer.
#[derive(Drop)]
pub(crate) struct Chunk {
    bytes: [u8; CHUNK_LEN],
}

impl Chunk {
    /// Room that holds zeros.
    pub(crate) fn new() -> Self
        ensures { length result.bytes ≡ CHUNK_LEN }
    {
        Chunk {
            bytes: [0; CHUNK_LEN],
        }
    }

    /// Reads once, into the front of `buf`.
    pub(crate) fn read<R: Read>(&mut self, reader: &mut R, buf: &mut [u8]) -> Result<usize, Failed>
        ensures within { IfOk result (λ n. n ≤ length buf.new) }
        ensures rest { IfOk result (λ n. drop n buf.new ≡ drop n buf.old) }
    {
        let room = buf.len().min(CHUNK_LEN);
        let bytes = &mut self.bytes[..];
        let n = read_some(reader, &mut bytes[..room])?;
        buf[..n].copy_from_slice(&bytes[..n]);
        Ok(n)
    }
}

/// Reads once, again where a signal interrupts it, so often and no more.
fn read_some<R: Read>(reader: &mut R, room: &mut [u8]) -> Result<usize, Failed>
    ensures { IfOk result (λ n. n ≤ length room.new) }
{
    for _ in 0..MOST_TRIES {
        match reader.read(room) {
            Ok(n) => return Ok(n),
            Err(error) if error.kind() == ErrorKind::Interrupted => {}
            Err(_) => return Err(Failed),
        }
    }
    Err(Failed)
}

//! A source over any of std's readers.
ghost use Rattle.std.specs.Prelude.{◌≡◌, None};

use crate::chunk::Chunk;
use crate::fault::raise;
use crate::{Failed, Source};
use std::io::Read;
use std::marker::Model;

/// A source over a reader. It tells nothing of the bytes, and counts each error of the reader.
#[derive(Drop)]
pub struct StdSource<R> {
    reader: R,
    faults: u64,
    chunk: Chunk,
}

impl<R> Model for StdSource<R> {
    ghost use Rattle.std.specs.Prelude.{ℕ};

    ghost Value = { ℕ };

    ghost view = { λ source. source.faults };
}

impl<R: Read> StdSource<R> {
    /// A source that has not failed yet.
    pub fn new(reader: R) -> Self
        ensures { result ≡ 0 }
    {
        StdSource {
            reader,
            faults: 0,
            chunk: Chunk::new(),
        }
    }
}

impl<R: Read> Source for StdSource<R> {
    ghost left = { λ _. None };

    ghost faults = { λ source. source };

    fn read(&mut self, buf: &mut [u8]) -> Result<usize, Failed> {
        match self.chunk.read(&mut self.reader, buf) {
            Ok(n) => Ok(n),
            Err(Failed) => {
                self.faults = raise(self.faults);
                Err(Failed)
            }
        }
    }
}

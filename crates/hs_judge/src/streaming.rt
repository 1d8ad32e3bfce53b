//! Lists through the streams of a database. It is `#[cfg(test)]`.

use crate::cases::{List, Verdict};
use crate::scanning::{Log, Scanner, judge_cases};
use hs_compile::{Database, compile};
use hs_stream::{Scratch, Stream};
use std::alloc::Global;
use std::sync::ledger::Ledger;
use std::test::Fail;

/// A stream, and memory for calls on it.
#[derive(Drop)]
pub(crate) struct Streaming {
    stream: Stream,
    scratch: Scratch,
}

impl Scanner for Database {
    type Stream = Streaming;

    fn open(&self, alloc: Global) -> Result<Streaming, Fail> {
        Ok(Streaming {
            stream: Stream::open(alloc, self)?,
            scratch: Scratch::new(alloc, self)?,
        })
    }

    fn offset(&self, streaming: &Streaming) -> u64 {
        if streaming.stream.fits(self) {
            streaming.stream.offset(self)
        } else {
            u64::MAX
        }
    }

    fn kept(&self, alloc: Global, streaming: &Streaming) -> Result<Vec<u8>, Fail> {
        Ok(Vec::from_slice(alloc, streaming.stream.region())?)
    }

    fn take<L: Ledger>(
        &self,
        streaming: &mut Streaming,
        bytes: &[u8],
        log: &mut Log<L>,
    ) -> Verdict {
        let Streaming { stream, scratch } = streaming;
        if stream.fits(self) && scratch.fits(self) {
            Ok(stream.write(self, scratch, bytes, &mut log.told, &mut log.steps)?)
        } else {
            Err(Fail::new("a stream that doesn't fit"))
        }
    }

    fn reset<L: Ledger>(&self, streaming: &mut Streaming, log: &mut Log<L>) -> Verdict {
        let Streaming { stream, scratch } = streaming;
        if stream.fits(self) && scratch.fits(self) {
            stream.reset(self, scratch, &mut log.told, &mut log.steps);
            Ok(())
        } else {
            Err(Fail::new("a stream that doesn't fit"))
        }
    }

    fn close<L: Ledger>(&self, streaming: Streaming, log: &mut Log<L>) -> Verdict {
        let Streaming {
            stream,
            mut scratch,
        } = streaming;
        if stream.fits(self) && scratch.fits(self) {
            stream.close(self, &mut scratch, &mut log.told, &mut log.steps);
            Ok(())
        } else {
            Err(Fail::new("a stream that doesn't fit"))
        }
    }
}

/// Compares the reports of the list's database with those that are wanted.
pub(crate) fn judge_streams(alloc: Global, list: &List) -> Verdict {
    judge_cases(alloc, &compile(alloc, &list.entries)?, &list.cases)
}

//! Streams that are given away for saved ones, and taken up again.
ghost use Rattle.std.specs.Prelude.{IfOk};
ghost use Rattle.hs_stream.specs.Saving.{IsExpanded, IsSaved};
ghost use Rattle.hs_stream.specs.Streams.{IsStreamOf, region_of};
ghost use Rattle.hs_stream.specs.CutRuns.{IsSwapped};

use crate::stream::Stream;
use hs_compile::Database;
use std::alloc::{AllocError, Global};

/// What saves streams and expands them for a run.
pub trait Keeper {
    /// The saved bytes of a stream, which isn't kept. The error is want of memory.
    fn give_away(
        &mut self,
        alloc: Global,
        db: &Database,
        stream: Stream,
    ) -> Result<Vec<u8>, AllocError>
        requires { IsStreamOf db.now stream }
        ensures { IfOk result (λ bytes. IsSaved db.now bytes.items (region_of stream)) };

    /// The stream that was saved as these bytes. The error is want of memory.
    fn take_up(&mut self, alloc: Global, db: &Database, bytes: &[u8]) -> Result<Stream, AllocError>
        ensures { IfOk result (IsExpanded db.now bytes.now) };
}

/// Keeps saved streams in memory.
#[derive(Clone, Copy, Debug)]
pub struct InMemory;

impl Keeper for InMemory {
    fn give_away(
        &mut self,
        alloc: Global,
        db: &Database,
        stream: Stream,
    ) -> Result<Vec<u8>, AllocError> {
        stream.save(alloc, db)
    }

    fn take_up(
        &mut self,
        alloc: Global,
        db: &Database,
        bytes: &[u8],
    ) -> Result<Stream, AllocError> {
        match Stream::expand(alloc, db, bytes) {
            Ok(stream) => Ok(stream),
            Err(_) => Err(AllocError),
        }
    }
}

/// The stream that goes on behind a save. Nothing is kept of the one that was before but the saved bytes. The error is
/// want of memory.
pub(crate) fn swap<K: Keeper>(
    alloc: Global,
    db: &Database,
    stream: Stream,
    keeper: &mut K,
) -> Result<Stream, AllocError>
    requires { IsStreamOf db.now stream }
    ensures { IfOk result (IsSwapped db.now stream) }
{
    let bytes = keeper.give_away(alloc, db, stream)?;
    keeper.take_up(alloc, db, &bytes)
}

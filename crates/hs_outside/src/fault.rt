//! Why a call of the outside didn't do its work.
ghost use Rattle.std.specs.Prelude.{◌≡◌};
ghost use Rattle.hs_outside.specs.Counts.{raised};

use thiserror::Error;

/// How often an adapter makes a call of the system that a signal interrupts. One that is interrupted as often has
/// failed.
pub(crate) const MOST_TRIES: u32 = 1000;

/// A source, a sink or a store failed. Its count of faults rose.
#[derive(Clone, Copy, Debug, PartialEq, Eq, Error)]
#[error("the outside failed")]
pub struct Failed;

/// Why a store read nothing.
#[derive(Clone, Copy, Debug, PartialEq, Eq, Error)]
pub enum StoreFault {
    /// It has no file of that name.
    #[error("no such file")]
    Absent,
    /// It failed, and its count of faults rose.
    #[error("the store failed")]
    Failed,
}

/// Why a source wasn't read to its end.
#[derive(Clone, Copy, Debug, PartialEq, Eq, Error)]
pub enum SourceFault {
    /// The source failed, and its count of faults rose.
    #[error("the source failed")]
    Failed,
    /// It gave more bytes than the limit.
    #[error("the source is longer than the limit")]
    Limit,
    /// Memory ran out.
    #[error("out of memory")]
    Memory,
}

/// Why a file wasn't read whole.
#[derive(Clone, Copy, Debug, PartialEq, Eq, Error)]
pub enum FileFault {
    /// The store has no file of that name.
    #[error("no such file")]
    Absent,
    /// The store failed, and its count of faults rose.
    #[error("the store failed")]
    Failed,
    /// The file is longer than the limit.
    #[error("the file is longer than the limit")]
    Limit,
    /// Memory ran out.
    #[error("out of memory")]
    Memory,
}

/// A count of faults after one more. At 2^64 - 1 it stands still.
pub(crate) fn raise(faults: u64) -> u64
    ensures { result ≡ raised faults }
{
    faults.saturating_add(1)
}

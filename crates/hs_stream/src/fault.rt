//! Why bytes gave no stream.

use thiserror::Error;

/// Why bytes gave no stream of a database. Where several of the first three hold of them, the first one is told; `Form`
/// of a region comes behind these.
#[derive(Clone, Copy, Debug, PartialEq, Eq, Error)]
pub enum ExpandFault {
    /// The bytes haven't the form of a saved stream of the database from this byte on.
    #[error("the bytes are no saved stream from byte {0} on")]
    Form(u64),
    /// The stream was saved in this version, which is another one.
    #[error("the stream was saved in version {0}")]
    Version(u16),
    /// The stream is one of another database.
    #[error("the stream is one of another database")]
    OtherDatabase,
    /// Memory ran out.
    #[error("out of memory")]
    Memory,
}

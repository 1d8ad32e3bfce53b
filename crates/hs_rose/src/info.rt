//! What a program tells of entries and chains.

use hs_base::{ExprId, Flags};

/// What is asked of the matches of an entry.
#[derive(Clone, Copy, Debug)]
pub struct EntryInfo {
    /// The least offset in bytes at which a match may end.
    pub min_offset: u64,
    /// The greatest offset in bytes at which a match may end.
    pub max_offset: u64,
    /// The identifier that it is reported with.
    pub id: ExprId,
    /// Its flags.
    pub flags: Flags,
    /// The place of the identifier among those of the program.
    pub identifier: u32,
}

/// A chain of an entry.
#[derive(Clone, Copy, Debug)]
pub struct ChainInfo {
    /// The number of its first role.
    pub first: usize,
    /// The number behind that of its last role: that of the first where it has none.
    pub end: usize,
    /// The number of its entry in the list, from 1.
    pub entry: u32,
}

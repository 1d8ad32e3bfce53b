//! Where an expression is left around one byte, or in a block of bytes.

/// Where an expression is left around one byte.
#[derive(Clone, Copy, Debug, PartialEq, Eq)]
pub struct ByteEnds {
    /// It is left before the byte, where that byte comes next.
    pub before: bool,
    /// It is left behind the byte, where nothing is known of what comes next.
    pub behind: bool,
}

/// Where an expression is left in a block of up to 64 bytes: a bit for each byte.
#[derive(Clone, Copy, Debug, PartialEq, Eq)]
pub struct BlockEnds {
    /// It is left before the byte, where that byte comes next.
    pub before: u64,
    /// It is left behind the byte, where nothing is known of what comes next.
    pub behind: u64,
}

impl BlockEnds {
    /// It is left nowhere.
    pub const NOWHERE: BlockEnds = BlockEnds {
        before: 0,
        behind: 0,
    };
}

//! Where matches of one identifier end in a block.

/// Where matches of an identifier end about the bytes of a block.
#[derive(Clone, Copy)]
pub struct EndWords {
    /// Bit i: a match ends before the byte i.
    pub before: u64,
    /// Bit i: a match ends behind the byte i.
    pub behind: u64,
}

impl EndWords {
    /// No match ends.
    pub const NONE: EndWords = EndWords {
        before: 0,
        behind: 0,
    };
}

//! A literal that is kept.

use hs_base::LitByte;

/// A literal with its bucket and its key.
#[derive(Drop)]
pub(crate) struct Entry {
    /// What stands at each place.
    pub(crate) literal: Vec<LitByte>,
    /// The bucket, 0 to 7.
    pub(crate) bucket: u8,
    /// The key of the literal at the width of its bucket.
    pub(crate) key: u64,
    /// The key of its last eight bytes, or of all that it has.
    pub(crate) own: u64,
    /// The bits of that key that count.
    pub(crate) own_mask: u64,
}

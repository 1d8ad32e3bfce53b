//! A chunk of the bytes of a stream, block by block.

ghost use Rattle.std.specs.Prelude.{◌≡◌, ◌+◌, ◌*◌, ◌^◌, ◌<◌, ◌≤◌, ◌++◌, ℕ, List, length, slice_index, take};
ghost use Rattle.hs_base.specs.Contexts.{prev_at};
ghost use Rattle.hs_nodes.specs.Blocks.{block, block_count, front};

use hs_base::Prev;

/// How many bytes a block has, but for the last one of a chunk.
pub const BLOCK_BYTES: usize = 64;
/// How many blocks a chunk has at most.
pub const MAX_BLOCKS: usize = 8;
/// How many bytes a chunk has at most.
pub const MAX_CHUNK: usize = BLOCK_BYTES * MAX_BLOCKS;

/// How many bytes are known of those before a chunk.
pub const PAST_BYTES: usize = 64;

/// Some bytes of a stream, and where they stand.
#[derive(Clone, Copy, Debug)]
pub struct Chunk<'b, 'p> {
    /// The bytes.
    pub bytes: &'b [u8],
    /// The last 64 bytes of the stream before them; zeros where it has fewer.
    pub past: &'p [u8],
    /// What stands before the first one.
    pub prev: Prev,
    /// The offset of the first one.
    pub at: u64,
    ghost few: { length bytes.now ≤ 512 },
    ghost whole: { length past.now ≡ 64 },
    ghost room: { at + length bytes.now ≤ 2 ^ 63 },
}

impl Chunk<'_, '_> {
    /// How many blocks it has: each but the last one is whole.
    pub fn blocks(&self) -> usize
        ensures count { result ≡ block_count (length self.now.bytes.now) }
        ensures few { result ≤ 8 }
        ensures some { (j : ℕ) → j < result → 64 * j < length self.now.bytes.now }
    {
        (self.bytes.len() + (BLOCK_BYTES - 1)) / BLOCK_BYTES
    }

    /// The bytes of a block.
    pub fn block(&self, number: usize) -> &[u8]
        requires { 64 * number < length self.now.bytes.now }
        ensures bytes { result.now ≡ block self.now.bytes.now number }
        ensures few { length result.now ≤ 64 }
        ensures within { 64 * number + length result.now ≤ length self.now.bytes.now }
    {
        let from = BLOCK_BYTES * number;
        let end = (from + BLOCK_BYTES).min(self.bytes.len());
        &self.bytes[from..end]
    }

    /// What stands before a block.
    pub fn prev_before(&self, number: usize) -> Prev
        requires { 64 * number < length self.now.bytes.now }
        ensures { (u : List ℕ) → self.now.prev ≡ prev_at u (length u) →
            result ≡ prev_at (front u self.now.bytes.now number) (length (front u self.now.bytes.now number)) }
    {
        if number == 0 {
            return self.prev;
        }
        Prev::behind(self.bytes[BLOCK_BYTES * number - 1])
    }

    /// What stands before the byte at that place.
    pub(crate) fn prev_at(&self, place: usize) -> Prev
        requires { place ≤ length self.now.bytes.now }
        ensures { (u : List ℕ) → self.now.prev ≡ prev_at u (length u) →
            result ≡ prev_at (u ++ take place self.now.bytes.now) (length u + place) }
    {
        if place == 0 {
            return self.prev;
        }
        Prev::behind(self.bytes[place - 1])
    }

    /// The byte of that number among the past ones and those of the chunk.
    pub(crate) fn byte_at(&self, place: usize) -> u8
        requires { place < 64 + length self.now.bytes.now }
        ensures { result ≡ slice_index (self.now.past.now ++ self.now.bytes.now) place }
    {
        if place < PAST_BYTES {
            self.past[place]
        } else {
            self.bytes[place - PAST_BYTES]
        }
    }
}

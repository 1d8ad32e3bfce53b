//! The masks of every super-character.

ghost use Rattle.std.specs.Prelude.{◌≡◌, ◌≤◌, ◌<◌, ◌+◌, ◌*◌, ◌^◌, ℕ, length, slice_index, vec_len, IfOk};

use std::alloc::{AllocError, Global};
use std::simd::prelude::*;

/// The least width of a super-character, in bits.
pub const MIN_WIDTH: u8 = 9;
/// The greatest width of a super-character, in bits.
pub const MAX_WIDTH: u8 = 15;
/// How many masks a super-character has: for itself and for each of the seven places behind it.
pub const PLACES: usize = 8;
/// How many places a block has at most.
pub const BLOCK_LEN: usize = 64;

/// For each super-character and each of the eight places from it on, which buckets can't have a literal that ends
/// there: a bit that is 0 says that its bucket may have one.
#[derive(Debug, Drop)]
pub struct Tables {
    /// The width of a super-character, in bits.
    width: u8,
    /// A super-character's bits, all set.
    low_bits: usize,
    /// The eight masks of each super-character, side by side.
    rows: Vec<u8>,
    ghost width_fits: { (9 ≤ width) × (width ≤ 15) },
    ghost bits: { low_bits + 1 ≡ 2 ^ width },
    ghost filled: { vec_len rows ≡ 8 * 2 ^ width },
}

impl Tables {
    ghost use Rattle.hs_fdr.specs.Masks.{mask_of, width_of, IsRow};
    ghost use Rattle.hs_fdr.specs.Blocks.{super_character};

    /// The tables of masks that are given by place and then by super-character: that of place `j` and super-character
    /// `v` is at `j * 2^width + v`.
    ///
    /// # Errors
    ///
    /// There may be no memory.
    pub fn from_masks(alloc: Global, width: u8, masks: &[u8]) -> Result<Tables, AllocError>
        requires width_fits { (9 ≤ width) × (width ≤ 15) }
        requires filled { length masks.now ≡ 8 * 2 ^ width }
        ensures width { IfOk result (λ tables. width_of tables ≡ width) }
        ensures masks { IfOk result (λ tables. (j v : ℕ) → j < 8 → v < 2 ^ width →
            mask_of tables j v ≡ slice_index masks.now (j * 2 ^ width + v)) }
    {
        let count = 1usize << width;
        let mut rows = Vec::with_capacity(alloc, masks.len())?;
        for at in 0..masks.len() {
            rows.push(masks[at % PLACES * count + at / PLACES])?;
        }
        Ok(Tables {
            width,
            low_bits: count - 1,
            rows,
        })
    }

    /// The width of a super-character, in bits.
    pub fn width(&self) -> u8
        ensures { result ≡ width_of self.now }
    {
        self.width
    }

    /// The mask of a super-character for the place `j` behind it.
    pub fn mask(&self, j: usize, v: usize) -> u8
        requires place { j < 8 }
        requires character { v < 2 ^ width_of self.now }
        ensures { result ≡ mask_of self.now j v }
    {
        self.rows[PLACES * v + j]
    }

    /// The super-character of a byte and the one behind it.
    #[inline(always)]
    pub fn super_character(&self, byte: u8, after: u8) -> usize
        ensures value { result ≡ super_character (width_of self.now) byte after }
        ensures small { result < 2 ^ width_of self.now }
    {
        (byte as usize + ((after as usize) << 8)) & self.low_bits
    }

    /// The super-character of the byte at a place and the one behind it, which one load reads.
    #[inline(always)]
    fn super_character_at(&self, bytes: &[u8], at: usize) -> usize
        requires { at + 2 ≤ length bytes.now }
        ensures value { result ≡ super_character (width_of self.now) (slice_index bytes.now at)
            (slice_index bytes.now (at + 1)) }
        ensures small { result < 2 ^ width_of self.now }
    {
        let pair = u16x1::from_le_bytes(u8x2::from_slice(&bytes[at..]));
        pair.to_array()[0] as usize & self.low_bits
    }

    /// The masks of a super-character, and then zeros.
    #[inline(always)]
    fn masks_of(&self, v: usize) -> u8x16
        requires { v < 2 ^ width_of self.now }
        ensures { IsRow self.now v result }
    {
        let start = PLACES * v;
        let masks = u8x8::from_slice(&self.rows[start..]);
        masks.shuffle(
            u8x8::splat(0),
            [0, 1, 2, 3, 4, 5, 6, 7, 8, 9, 10, 11, 12, 13, 14, 15],
        )
    }

    /// The masks of the super-character of a byte and the one behind it, and then zeros.
    #[inline(always)]
    pub(crate) fn row(&self, byte: u8, after: u8) -> u8x16
        ensures { IsRow self.now (super_character (width_of self.now) byte after) result }
    {
        self.masks_of(self.super_character(byte, after))
    }

    /// The masks of the super-character of the byte at a place and the one behind it, and then zeros.
    #[inline(always)]
    pub(crate) fn row_at(&self, bytes: &[u8], at: usize) -> u8x16
        requires { at + 2 ≤ length bytes.now }
        ensures { IsRow self.now
            (super_character (width_of self.now) (slice_index bytes.now at) (slice_index bytes.now (at + 1))) result }
    {
        self.masks_of(self.super_character_at(bytes, at))
    }
}

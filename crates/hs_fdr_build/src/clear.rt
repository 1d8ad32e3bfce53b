//! Bits of masks made 0.

ghost use Rattle.std.specs.Prelude.{◌≡◌, ◌↔◌, ◌≤◌, ◌<◌, ◌+◌, ◌*◌, ◌/◌, ◌%◌, ◌^◌, ◌-◌, ◌⊎◌, ℕ, IsTrue, length, vec_len};
ghost use Rattle.hs_base.specs.Literals.{takes};
ghost use Rattle.hs_base.specs.LiteralView.{literal_byte};
ghost use Rattle.hs_fdr_build.specs.Clearing.{Clears};

use hs_base::{CASE_DISTANCE, LitByte};

/// How many low bytes a super-character may have.
const LOW_BYTES: usize = 256;

/// Makes the bit of a bucket 0 in the mask at a place.
pub(crate) fn clear(masks: &mut [u8], at: usize, bucket: u8)
    requires within { at < length masks.old }
    requires bucket { bucket < 8 }
    ensures { Clears (λ place b. (place ≡ at) × (b ≡ bucket)) masks.old masks.new }
{
    masks[at] &= !(1 << bucket);
}

/// How many super-characters have the same low byte.
fn further_count(width: u8) -> usize
    requires { (9 ≤ width) × (width ≤ 15) }
    ensures power { result ≡ 2 ^ (width - 8) }
    ensures share { LOW_BYTES * result ≡ 2 ^ width }
{
    1 << (width - 8)
}

/// Makes it 0 in the masks of all super-characters with that low byte.
fn clear_column(masks: &mut [u8], low: u8, count: usize, bucket: u8)
    requires within { 256 * count ≤ length masks.old }
    requires bucket { bucket < 8 }
    ensures { Clears (λ place b. (b ≡ bucket) × (k : ℕ) × (k < count) × (place ≡ low + 256 * k)) masks.old masks.new }
{
    for further in 0..count {
        clear(masks, low as usize + LOW_BYTES * further, bucket);
    }
}

/// The bytes that may stand at a place of a literal: the second is the first one again where there is but one.
fn bytes_of(x: &LitByte) -> (u8, u8)
    ensures { (b : ℕ) → IsTrue (takes (literal_byte x.now) b) ↔ ((b ≡ result.0) ⊎ (b ≡ result.1)) }
{
    if x.both_cases {
        (x.byte, x.byte - CASE_DISTANCE)
    } else {
        (x.byte, x.byte)
    }
}

/// Makes it 0 in the first masks, for each super-character whose low byte may stand there.
pub(crate) fn clear_last(masks: &mut [u8], width: u8, x: &LitByte, bucket: u8)
    requires width { (9 ≤ width) × (width ≤ 15) }
    requires within { 2 ^ width ≤ length masks.old }
    requires bucket { bucket < 8 }
    ensures { Clears (λ place b. (b ≡ bucket) × (place < 2 ^ width) × IsTrue (takes (literal_byte x.now) (place % 256)))
        masks.old masks.new }
{
    let (one, other) = bytes_of(x);
    let count = further_count(width);
    clear_column(masks, one, count, bucket);
    clear_column(masks, other, count, bucket);
}

/// Makes it 0 in one mask of those from a place on, that of a byte and the one behind it.
fn clear_pair(masks: &mut [u8], width: u8, first: usize, byte: u8, after: u8, bucket: u8)
    requires width { (9 ≤ width) × (width ≤ 15) }
    requires within { first + 2 ^ width ≤ length masks.old }
    requires bucket { bucket < 8 }
    ensures { Clears (λ place b. (b ≡ bucket) × (place ≡ first + (byte + 256 * (after % 2 ^ (width - 8))))) masks.old
        masks.new }
{
    let further = after as usize % further_count(width);
    clear(masks, first + (byte as usize + LOW_BYTES * further), bucket);
}

/// Makes it 0 in the masks from a place on, for each super-character of a byte that may stand at one place and one that
/// may stand behind it.
pub(crate) fn clear_inner(
    masks: &mut [u8],
    width: u8,
    first: usize,
    x: &LitByte,
    behind: &LitByte,
    bucket: u8,
)
    requires width { (9 ≤ width) × (width ≤ 15) }
    requires within { first + 2 ^ width ≤ length masks.old }
    requires bucket { bucket < 8 }
    ensures { Clears (λ place b. (b ≡ bucket) × (byte after : ℕ) × (byte < 256) ×
        IsTrue (takes (literal_byte x.now) byte) × IsTrue (takes (literal_byte behind.now) after) ×
        (place ≡ first + (byte + 256 * (after % 2 ^ (width - 8))))) masks.old masks.new }
{
    let (one, other) = bytes_of(x);
    let (next, second) = bytes_of(behind);
    clear_pair(masks, width, first, one, next, bucket);
    clear_pair(masks, width, first, one, second, bucket);
    clear_pair(masks, width, first, other, next, bucket);
    clear_pair(masks, width, first, other, second, bucket);
}

//! A literal over a chunk.

ghost use Rattle.std.specs.Prelude.{◌≡◌, ◌+◌, ◌-◌, ◌*◌, ◌<◌, ◌≤◌, ℕ, length};
ghost use Rattle.hs_base.specs.Bits.{has_bit, has_word_bit};
ghost use Rattle.hs_base.specs.RepeatRows.{IsRingAt};
ghost use Rattle.hs_block.specs.LiteralBlocks.{turned};
ghost use Rattle.hs_bits.specs.WordBits.{word_bit};
ghost use Rattle.hs_nodes.specs.Hits.{IsCarryAt, TakesLiteral, TakesLiteralPart};

use crate::chunk::{BLOCK_BYTES, Chunk};
use crate::ends::ChunkEnds;
use crate::hits::ChunkHits;
use crate::turning::turned_round;
use hs_bits::WORD_BITS;
use hs_block::{entries_from, run_literal};

/// How many bytes are kept of a literal.
const ROW_BYTES: usize = 4;

/// Takes a chunk by a literal of so many bytes, block by block, where the pieces before are left as `enters` tell, and
/// it ends where the hits tell it. The word of its entries is moved; answers where the pieces up to it are left.
pub(crate) fn run_entries(
    len: usize,
    carry: &mut u64,
    chunk: &Chunk,
    hits: &ChunkHits,
    enters: &ChunkEnds,
) -> ChunkEnds
    requires some { 1 ≤ len }
    requires short { len ≤ 32 }
    ensures takes { TakesLiteral len carry.old carry.new chunk.now.bytes.now hits.now enters.now result }
    ensures well { IsCarryAt len carry.old chunk.now.at →
        IsCarryAt len carry.new (chunk.now.at + length chunk.now.bytes.now) }
{
    let mut ends = ChunkEnds::NOWHERE;
    for j in 0..chunk.blocks() {
        let bytes = chunk.block(j);
        let run = run_literal(len, hits.of_block(j), enters.before[j], *carry, bytes.len());
        ends.before[j] = run.ends.before;
        ends.behind[j] = run.ends.behind;
        *carry = run.carry;
    }
    ends
}

/// The word for a block, from the four bytes that are kept of a literal: there the nearest entry comes first.
fn read_row(part: &[u8], len: usize) -> u64
    requires some { 1 ≤ len }
    requires short { len ≤ 32 }
    requires size { length part.now ≡ 4 }
    ensures { (i : ℕ) → word_bit result i ≡ turned len (has_bit part.now) i }
{
    let row = u64::from_le_bytes([part[0], part[1], part[2], part[3], 0, 0, 0, 0]);
    turned_round(row) >> (WORD_BITS - len)
}

/// Makes the four bytes that are kept of a literal those of the word.
fn write_row(part: &mut [u8], len: usize, carry: u64)
    requires some { 1 ≤ len }
    requires short { len ≤ 32 }
    requires size { length part.old ≡ 4 }
    ensures size { length part.new ≡ 4 }
    ensures bits { (k : ℕ) → has_bit part.new k ≡ turned len (word_bit carry) k }
{
    let row = turned_round(carry << (WORD_BITS - len));
    let bytes = row.to_le_bytes();
    part.copy_from_slice(&bytes[..ROW_BYTES]);
}

/// The word of the entries before a block of that number: a bit for each of the last bytes before it, as many as the
/// literal has, if there is a block before.
fn entries_before(len: usize, enters: &ChunkEnds, number: usize) -> u64
    requires some { 1 ≤ len }
    requires short { len ≤ 32 }
    requires number { number < 8 }
    ensures { (i : ℕ) → i < len → 1 ≤ number →
        word_bit result i ≡ has_word_bit enters.now.before (64 * number - len + i) }
{
    if number == 0 {
        return 0;
    }
    enters.before[number - 1] >> (WORD_BITS - len)
}

/// A bit for each of the last bytes of a chunk of so many, as many as the literal has: whether the pieces before are
/// left before it.
fn last_entries(len: usize, enters: &ChunkEnds, count: usize) -> u64
    requires some { 1 ≤ len }
    requires short { len ≤ 32 }
    requires room { len ≤ count }
    requires few { count ≤ 512 }
    ensures { (i : ℕ) → i < len → word_bit result i ≡ has_word_bit enters.now.before (count - len + i) }
{
    let last = (count - 1) / BLOCK_BYTES;
    let carry = entries_before(len, enters, last);
    entries_from(len, enters.before[last], carry, count - BLOCK_BYTES * last)
}

/// Takes a chunk by a literal of which the bytes tell the entries. Where it ends nowhere, it is left nowhere, and of
/// its entries those before the last bytes of the chunk alone count.
pub(crate) fn run_literal_part(
    len: usize,
    part: &mut [u8],
    chunk: &Chunk,
    hits: &ChunkHits,
    enters: &ChunkEnds,
) -> ChunkEnds
    requires some { 1 ≤ len }
    requires short { len ≤ 32 }
    requires size { length part.old ≡ 4 }
    requires well { IsRingAt len part.old chunk.now.at }
    ensures size { length part.new ≡ 4 }
    ensures well { IsRingAt len part.new (chunk.now.at + length chunk.now.bytes.now) }
    ensures takes { TakesLiteralPart len part.old part.new chunk.now.bytes.now hits.now enters.now result }
{
    let count = chunk.bytes.len();
    if len <= count && hits.is_nowhere() {
        write_row(part, len, last_entries(len, enters, count));
        return ChunkEnds::NOWHERE;
    }
    let mut carry = read_row(part, len);
    let ends = run_entries(len, &mut carry, chunk, hits, enters);
    write_row(part, len, carry);
    ends
}

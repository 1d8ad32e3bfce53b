//! The entries of a table, and the rows in which they stand.

ghost use Rattle.std.specs.Prelude.{◌≡◌, ◌<◌, ◌≤◌, ℕ, IfOk, length, map, slice_index, vec_len};
ghost use Rattle.hs_base.specs.LiteralView.{literal_byte};
ghost use Rattle.hs_confirm.specs.Entries.{AreKeyed, IsOwnKey, literal_in, rows_of_entries};
ghost use Rattle.hs_confirm.specs.Keys.{literal_key};
ghost use Rattle.hs_confirm.specs.Widths.{AreShort};

use crate::entry::Entry;
use crate::keys::{KEY_LEN, key_row, literal_key, mask_of};
use crate::widths::narrowed;
use hs_base::{BUCKETS, LitByte};
use std::alloc::{AllocError, Global};

/// How many rows a literal has at least, up to `MAX_ROWS`.
const ROWS_EACH: usize = 8;

/// How many rows there are at most.
const MAX_ROWS: usize = 1_048_576;

/// The literal with its bucket and its key.
fn entry_of(alloc: Global, literal: &[LitByte], bucket: u8, width: u8) -> Result<Entry, AllocError>
    ensures literal { IfOk result (λ entry. entry.literal.items ≡ literal.now) }
    ensures bucket { IfOk result (λ entry. entry.bucket ≡ bucket) }
    ensures key { IfOk result (λ entry. entry.key ≡ literal_key width (map literal_byte literal.now)) }
    ensures own { IfOk result (λ entry. IsOwnKey (map literal_byte literal.now) entry.own entry.own_mask) }
{
    let own_width = narrowed(KEY_LEN, literal);
    Ok(Entry {
        literal: literal.to_vec(alloc)?,
        bucket,
        key: literal_key(literal, width),
        own: literal_key(literal, own_width),
        own_mask: mask_of(own_width),
    })
}

/// The entries of all literals, in order.
pub(crate) fn entries_of(
    alloc: Global,
    literals: &[Vec<LitByte>],
    buckets: &[u8],
    widths: &[u8; BUCKETS],
) -> Result<Vec<Entry>, AllocError>
    requires each { length buckets.now ≡ length literals.now }
    requires few { (k : ℕ) → k < length buckets.now → slice_index buckets.now k < 8 }
    requires short { AreShort widths.now (map (λ literal. length literal.items) literals.now) buckets.now
        (length literals.now) }
    ensures literals { IfOk result
        (λ entries. map literal_in entries.items ≡ map (λ literal. map literal_byte literal.items) literals.now) }
    ensures buckets { IfOk result (λ entries. map (λ entry. entry.bucket) entries.items ≡ buckets.now) }
    ensures keyed { IfOk result (λ entries. AreKeyed widths.now entries.items) }
{
    let mut entries = Vec::with_capacity(alloc, literals.len())?;
    for number in 0..literals.len() {
        let bucket = buckets[number];
        let width = widths[usize::from(bucket)];
        entries.push(entry_of(alloc, literals[number].as_slice(), bucket, width)?)?;
    }
    Ok(entries)
}

/// How many rows so many literals have: a power of two, and so many more than literals that most rows are empty.
pub(crate) fn row_count(literals: usize) -> usize
    ensures { 0 < result }
{
    let mut rows = ROWS_EACH;
    while rows < MAX_ROWS && rows / ROWS_EACH < literals {
        rows *= 2;
    }
    rows
}

/// The row of each entry, of so many rows.
pub(crate) fn rows_of(
    alloc: Global,
    entries: &[Entry],
    count: usize,
) -> Result<Vec<usize>, AllocError>
    requires some { 0 < count }
    ensures rows { IfOk result (λ rows. rows.items ≡ rows_of_entries count entries.now) }
    ensures within { IfOk result (λ rows. (k : ℕ) → k < length rows.items → slice_index rows.items k < count) }
{
    let mut rows = Vec::with_capacity(alloc, entries.len())?;
    for entry in entries {
        rows.push(key_row(count, entry.bucket, entry.key))?;
    }
    Ok(rows)
}

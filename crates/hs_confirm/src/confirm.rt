//! The table of all literals: by bucket and last bytes.

ghost use Rattle.std.specs.Prelude.{◌≡◌, ◌<◌, ◌≤◌, ◌≢◌, ◌+◌, ℕ, [], ◌++◌, IfOk, MatchOption, length, map, slice_index};
ghost use Rattle.std.specs.Prelude.{List, false, vec_len};
ghost use Rattle.hs_base.specs.LiteralView.{literal_byte};
ghost use Rattle.hs_confirm.specs.Rows.{AreChains};
ghost use Rattle.hs_confirm.specs.Keys.{AreMasks, full_text_key, key_at};
ghost use Rattle.hs_confirm.specs.Entries.{AreKeyed, ends_from, rows_of_entries};

use crate::chains::Chains;
use crate::ends::Ends;
use crate::entry::Entry;
use crate::filing::{entries_of, row_count, rows_of};
use crate::keys::key_row;
use crate::place_ends::PlaceEnds;
use crate::widths::{masks_of, widths_of};
use hs_base::{BUCKETS, LitByte};
use std::alloc::{AllocError, Global};

/// Literals, each in one of eight buckets, ready to tell which of a bucket end at a place.
#[derive(Drop)]
pub struct Confirm {
    /// The literals, by number.
    pub(crate) entries: Vec<Entry>,
    /// How many of the last bytes count for the keys of each bucket.
    pub(crate) widths: [u8; BUCKETS],
    /// For each bucket the bits of keys that count.
    pub(crate) masks: [u64; BUCKETS],
    /// The numbers of the literals, in rows by bucket and key.
    pub(crate) chains: Chains,
    ghost keyed: { AreKeyed widths entries.items },
    ghost masked: { AreMasks widths masks },
    ghost numbered: { vec_len chains.nexts ≡ vec_len entries },
    ghost chained: { AreChains (rows_of_entries (vec_len chains.heads) entries.items) chains.heads.items
        chains.nexts.items },
}

impl Confirm {
    ghost use Rattle.hs_confirm.specs.BucketEnds.{AreBucketEnds};
    ghost use Rattle.hs_confirm.specs.Filed.{literals_of, buckets_of};
    ghost use Rattle.hs_confirm.specs.Left.{ends_left};
    ghost use Rattle.hs_confirm.specs.PlaceEnds.{ArePlaceEnds};
    ghost use Rattle.hs_confirm.specs.PlaceLeft.{place_left};

    /// How many literals there are.
    pub fn count(&self) -> usize
        ensures { result ≡ length (literals_of self.now) }
    {
        self.entries.len()
    }

    /// The table of these literals; `buckets` has the bucket of each, 0 to 7.
    ///
    /// # Errors
    ///
    /// There may be no memory.
    pub fn build(
        alloc: Global,
        literals: &[Vec<LitByte>],
        buckets: &[u8],
    ) -> Result<Confirm, AllocError>
        requires each { length buckets.now ≡ length literals.now }
        requires few { (k : ℕ) → k < length buckets.now → slice_index buckets.now k < 8 }
        ensures literals { IfOk result
            (λ confirm. literals_of confirm ≡ map (λ literal. map literal_byte literal.items) literals.now) }
        ensures buckets { IfOk result (λ confirm. buckets_of confirm ≡ buckets.now) }
    {
        let widths = widths_of(literals, buckets);
        let entries = entries_of(alloc, literals, buckets, &widths)?;
        let count = row_count(literals.len());
        let rows = rows_of(alloc, &entries, count)?;
        let chains = Chains::build(alloc, &rows, count)?;
        Ok(Confirm {
            entries,
            masks: masks_of(&widths),
            widths,
            chains,
        })
    }

    /// The key at the width of a bucket, given the last eight bytes.
    #[inline(always)]
    pub(crate) fn key_at(&self, bucket: u8, full: u64) -> u64
        requires { bucket < 8 }
        ensures { result ≡ key_at (slice_index self.now.widths bucket) full }
    {
        full & self.masks[usize::from(bucket)]
    }

    /// Whether a literal of a bucket may end at a place, given the last eight bytes in front of it: where it is false,
    /// none does.
    #[inline(always)]
    pub fn may_end(&self, bucket: u8, full: u64) -> bool
        requires { bucket < 8 }
        ensures passed { result ≡ false → (text : List ℕ) (offset : ℕ) → full ≡ full_text_key text offset →
            ends_from self.now.entries.items bucket text offset 0 ≡ [] }
        ensures none { result ≡ false → (text : List ℕ) (offset : ℕ) → offset ≤ length text →
            full ≡ full_text_key text offset →
            AreBucketEnds (literals_of self.now) (buckets_of self.now) bucket text offset [] }
    {
        let row = key_row(self.chains.rows(), bucket, self.key_at(bucket, full));
        self.chains.is_marked(row)
    }

    /// The numbers of the literals of a bucket that end at `at`, an offset in bytes in `bytes`, behind their last byte.
    /// A literal may begin in `history`, which stands before `bytes`.
    pub fn ends_at<'a>(
        &'a self,
        bucket: u8,
        history: &'a [u8],
        bytes: &'a [u8],
        at: usize,
    ) -> Ends<'a>
        requires bucket { bucket < 8 }
        requires within { at ≤ length bytes.now }
        ensures { AreBucketEnds (literals_of self.now) (buckets_of self.now) bucket (history.now ++ bytes.now)
            (length history.now + at) (ends_left result) }
    {
        Ends::new(self, bucket, history, bytes, at)
    }

    /// As `ends_at`, given the last eight bytes in front of `at`.
    #[inline(always)]
    pub fn keyed_ends<'a>(
        &'a self,
        bucket: u8,
        full: u64,
        history: &'a [u8],
        bytes: &'a [u8],
        at: usize,
    ) -> Ends<'a>
        requires bucket { bucket < 8 }
        requires within { at ≤ length bytes.now }
        requires full { full ≡ full_text_key (history.now ++ bytes.now) (length history.now + at) }
        ensures { AreBucketEnds (literals_of self.now) (buckets_of self.now) bucket (history.now ++ bytes.now)
            (length history.now + at) (ends_left result) }
    {
        Ends::with_key(self, bucket, full, history, bytes, at)
    }

    /// The numbers of the literals that end at `at`, of all buckets whose bit in the mask is 0; else as `ends_at`.
    pub fn place_ends<'a>(
        &'a self,
        mask: u8,
        history: &'a [u8],
        bytes: &'a [u8],
        at: usize,
    ) -> PlaceEnds<'a>
        requires within { at ≤ length bytes.now }
        ensures { ArePlaceEnds (literals_of self.now) (buckets_of self.now) mask (history.now ++ bytes.now)
            (length history.now + at) (place_left result) }
    {
        PlaceEnds::new(self, mask, history, bytes, at)
    }

    /// As `place_ends`, or None where none ends there.
    #[inline(always)]
    pub fn some_place_ends<'a>(
        &'a self,
        mask: u8,
        history: &'a [u8],
        bytes: &'a [u8],
        at: usize,
    ) -> Option<PlaceEnds<'a>>
        requires within { at ≤ length bytes.now }
        ensures { MatchOption result
            (ArePlaceEnds (literals_of self.now) (buckets_of self.now) mask (history.now ++ bytes.now)
            (length history.now + at) [])
            (λ ends. (place_left ends ≢ []) ×
            ArePlaceEnds (literals_of self.now) (buckets_of self.now) mask (history.now ++ bytes.now)
            (length history.now + at) (place_left ends)) }
    {
        PlaceEnds::some(self, mask, history, bytes, at)
    }
}

//! The literals of a bucket that end at a place, rising.

ghost use Rattle.std.specs.Prelude.{◌≡◌, ◌<◌, ◌≤◌, ◌+◌, ◌++◌, true, length, slice_index, vec_len};
ghost use Rattle.hs_confirm.specs.Keys.{key_row, full_text_key, text_key};
ghost use Rattle.hs_confirm.specs.Entries.{number_ends, ends_from, rows_of_entries};

use crate::confirm::Confirm;
use crate::keys::{full_text_key, key_row};
use crate::taking::ends_there;

/// The numbers of the literals of a bucket that end at a place, rising.
#[derive(Drop)]
pub struct Ends<'a> {
    confirm: &'a Confirm,
    /// What stands before `bytes`.
    history: &'a [u8],
    bytes: &'a [u8],
    /// The place, an offset in `bytes`.
    at: usize,
    bucket: u8,
    /// The last eight bytes in front of the place.
    full: u64,
    /// The key of what stands in front of the place, at the width of the bucket.
    key: u64,
    /// The least number that hasn't been looked at: of the row of that bucket and key, or the count of all literals.
    next: usize,
    ghost eight: { bucket < 8 },
    ghost within: { at ≤ length bytes.now },
    ghost full_is: { full ≡ full_text_key (history.now ++ bytes.now) (length history.now + at) },
    ghost keyed: { key ≡ text_key (slice_index confirm.now.widths bucket) (history.now ++ bytes.now)
        (length history.now + at) },
    ghost stands: { next < vec_len confirm.now.entries →
        slice_index (rows_of_entries (vec_len confirm.now.chains.heads) confirm.now.entries.items) next ≡ key_row
        (vec_len confirm.now.chains.heads) bucket key },
}

impl<'a> Ends<'a> {
    ghost use Rattle.hs_confirm.specs.BucketEnds.{AreBucketEnds};
    ghost use Rattle.hs_confirm.specs.Filed.{literals_of, buckets_of};
    ghost use Rattle.hs_confirm.specs.Left.{ends_left};

    /// Those that end at `at`.
    pub(crate) fn new(
        confirm: &'a Confirm,
        bucket: u8,
        history: &'a [u8],
        bytes: &'a [u8],
        at: usize,
    ) -> Ends<'a>
        requires bucket { bucket < 8 }
        requires within { at ≤ length bytes.now }
        ensures left { ends_left result ≡ ends_from confirm.now.entries.items bucket (history.now ++ bytes.now)
            (length history.now + at) 0 }
        ensures exact { AreBucketEnds (literals_of confirm.now) (buckets_of confirm.now) bucket
            (history.now ++ bytes.now) (length history.now + at) (ends_left result) }
    {
        let full = full_text_key(history, bytes, at);
        Ends::with_key(confirm, bucket, full, history, bytes, at)
    }

    /// Those that end at `at`, given the last eight bytes in front of it.
    #[inline(always)]
    pub(crate) fn with_key(
        confirm: &'a Confirm,
        bucket: u8,
        full: u64,
        history: &'a [u8],
        bytes: &'a [u8],
        at: usize,
    ) -> Ends<'a>
        requires bucket { bucket < 8 }
        requires within { at ≤ length bytes.now }
        requires full { full ≡ full_text_key (history.now ++ bytes.now) (length history.now + at) }
        ensures left { ends_left result ≡ ends_from confirm.now.entries.items bucket (history.now ++ bytes.now)
            (length history.now + at) 0 }
        ensures exact { AreBucketEnds (literals_of confirm.now) (buckets_of confirm.now) bucket
            (history.now ++ bytes.now) (length history.now + at) (ends_left result) }
    {
        let key = confirm.key_at(bucket, full);
        let row = key_row(confirm.chains.rows(), bucket, key);
        Ends {
            confirm,
            history,
            bytes,
            at,
            bucket,
            full,
            key,
            next: confirm.chains.first(row),
        }
    }

    /// Those behind a number that ends there, of its bucket, given the last eight bytes in front of the place.
    pub(crate) fn behind(
        confirm: &'a Confirm,
        number: usize,
        bucket: u8,
        full: u64,
        history: &'a [u8],
        bytes: &'a [u8],
        at: usize,
    ) -> Ends<'a>
        requires bucket { bucket < 8 }
        requires within { at ≤ length bytes.now }
        requires number { number < vec_len confirm.now.entries }
        requires full { full ≡ full_text_key (history.now ++ bytes.now) (length history.now + at) }
        requires ends { number_ends confirm.now.entries.items bucket (history.now ++ bytes.now)
            (length history.now + at) number ≡ true }
        ensures { ends_left result ≡ ends_from confirm.now.entries.items bucket (history.now ++ bytes.now)
            (length history.now + at) (number + 1) }
    {
        Ends {
            confirm,
            history,
            bytes,
            at,
            bucket,
            full,
            key: confirm.entries[number].key,
            next: confirm.chains.after(number),
        }
    }

    /// Whether the literal of that number is in the bucket and ends at the place.
    #[inline(always)]
    fn ends_there(&self, number: usize) -> bool
        requires { number < vec_len self.now.confirm.now.entries }
        ensures { result ≡ number_ends self.now.confirm.now.entries.items self.now.bucket
            (self.now.history.now ++ self.now.bytes.now) (length self.now.history.now + self.now.at) number }
    {
        let entry = &self.confirm.entries[number];
        self.full & entry.own_mask == entry.own
            && entry.bucket == self.bucket
            && ends_there(&entry.literal, self.history, self.bytes, self.at)
    }
}

impl<'a> Iterator for Ends<'a> {
    ghost use Rattle.std.specs.Iterator.{YieldsFirst, item_count};
    ghost use Rattle.hs_confirm.specs.Left.{ends_left};

    type Item = usize;

    ghost next_gives = { YieldsFirst ends_left };

    ghost remaining = { item_count ends_left };

    #[inline(always)]
    fn next(&mut self) -> Option<usize> {
        while self.next < self.confirm.entries.len() {
            let number = self.next;
            let ends = self.ends_there(number);
            self.next = self.confirm.chains.after(number);
            if ends {
                return Some(number);
            }
        }
        None
    }
}

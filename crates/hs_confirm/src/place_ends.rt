//! The literals of all buckets that end at a place, rising.

ghost use Rattle.std.specs.Prelude.{◌≡◌, ◌≢◌, ◌<◌, ◌≤◌, ◌+◌, ◌++◌, ℕ, [], true, MatchOption, length, slice_index};
ghost use Rattle.std.specs.Prelude.{vec_len};
ghost use Rattle.hs_confirm.specs.Entries.{number_ends};
ghost use Rattle.hs_confirm.specs.Heads.{AreHeads, IsHead, IsFirstHead, IsFirstPassing};
ghost use Rattle.hs_confirm.specs.Keys.{full_text_key};

use crate::confirm::Confirm;
use crate::ends::Ends;
use crate::head::{Head, first_head};
use crate::keys::full_text_key;
use hs_base::BUCKETS;
use hs_bits::{lowest_bit, without_lowest_bit};

/// The numbers of the literals that end at a place, of all buckets that were left open, rising.
#[derive(Drop)]
pub struct PlaceEnds<'a> {
    confirm: &'a Confirm,
    /// What stands before `bytes`.
    history: &'a [u8],
    bytes: &'a [u8],
    /// The place, an offset in `bytes`.
    at: usize,
    /// The last eight bytes in front of it.
    full: u64,
    /// For each bucket its least number that hasn't been told, or the count of all literals.
    heads: [usize; BUCKETS],
    ghost within: { at ≤ length bytes.now },
    ghost eight: { length heads ≡ 8 },
    ghost full_is: { full ≡ full_text_key (history.now ++ bytes.now) (length history.now + at) },
    ghost ends: { AreHeads confirm.now.entries.items (history.now ++ bytes.now) (length history.now + at) heads },
}

/// The first number of a bucket that ends at `at`, or the count of all literals, given the last eight bytes before
/// `at`.
#[inline(always)]
fn head_of(
    confirm: &Confirm,
    bucket: u8,
    full: u64,
    history: &[u8],
    bytes: &[u8],
    at: usize,
) -> usize
    requires bucket { bucket < 8 }
    requires within { at ≤ length bytes.now }
    requires full { full ≡ full_text_key (history.now ++ bytes.now) (length history.now + at) }
    ensures { IsFirstPassing
        (number_ends confirm.now.entries.items bucket (history.now ++ bytes.now) (length history.now + at)) 0
        (vec_len confirm.now.entries) result }
{
    Ends::with_key(confirm, bucket, full, history, bytes, at)
        .next()
        .unwrap_or(confirm.entries.len())
}

/// For each bucket its first number that ends at `at`, or the count of all literals, given the first one of them.
fn heads_of(
    confirm: &Confirm,
    mask: u8,
    first: Head,
    full: u64,
    history: &[u8],
    bytes: &[u8],
    at: usize,
) -> [usize; BUCKETS]
    requires within { at ≤ length bytes.now }
    requires full { full ≡ full_text_key (history.now ++ bytes.now) (length history.now + at) }
    requires first { IsFirstHead confirm.now.entries.items mask (history.now ++ bytes.now) (length history.now + at)
        first.bucket first.number first.left }
    ensures { (bucket : ℕ) → bucket < 8 →
        IsHead confirm.now.entries.items mask (history.now ++ bytes.now) (length history.now + at) bucket
        (slice_index result bucket) }
{
    let mut heads = [confirm.entries.len(); BUCKETS];
    heads[usize::from(first.bucket)] = first.number;
    let mut left = first.left;
    while left != 0 {
        let bucket = lowest_bit(left) as u8;
        left = without_lowest_bit(left);
        heads[usize::from(bucket)] = head_of(confirm, bucket, full, history, bytes, at);
    }
    heads
}

/// The next number of that number's bucket that ends at `at`, or the count of all literals, given the last eight bytes
/// before `at`.
fn head_behind(
    confirm: &Confirm,
    number: usize,
    bucket: u8,
    full: u64,
    history: &[u8],
    bytes: &[u8],
    at: usize,
) -> usize
    requires within { at ≤ length bytes.now }
    requires number { number < vec_len confirm.now.entries }
    requires bucket { bucket < 8 }
    requires full { full ≡ full_text_key (history.now ++ bytes.now) (length history.now + at) }
    requires ends { number_ends confirm.now.entries.items bucket (history.now ++ bytes.now) (length history.now + at)
        number ≡ true }
    ensures { IsFirstPassing
        (number_ends confirm.now.entries.items bucket (history.now ++ bytes.now) (length history.now + at)) (number + 1)
        (vec_len confirm.now.entries) result }
{
    Ends::behind(confirm, number, bucket, full, history, bytes, at)
        .next()
        .unwrap_or(confirm.entries.len())
}

/// The bucket with the least head.
fn least_bucket(heads: &[usize; BUCKETS]) -> usize
    ensures within { result < 8 }
    ensures least { (bucket : ℕ) → bucket < 8 → slice_index heads.now result ≤ slice_index heads.now bucket }
{
    let mut least = 0;
    let mut number = heads[0];
    for bucket in 1..BUCKETS {
        if heads[bucket] < number {
            least = bucket;
            number = heads[bucket];
        }
    }
    least
}

impl<'a> PlaceEnds<'a> {
    ghost use Rattle.hs_confirm.specs.PlaceEnds.{ArePlaceEnds};
    ghost use Rattle.hs_confirm.specs.Filed.{literals_of, buckets_of};
    ghost use Rattle.hs_confirm.specs.PlaceLeft.{place_left};

    /// Those that end at `at`, of the buckets whose bit in the mask is 0.
    pub(crate) fn new(
        confirm: &'a Confirm,
        mask: u8,
        history: &'a [u8],
        bytes: &'a [u8],
        at: usize,
    ) -> PlaceEnds<'a>
        requires within { at ≤ length bytes.now }
        ensures { ArePlaceEnds (literals_of confirm.now) (buckets_of confirm.now) mask (history.now ++ bytes.now)
            (length history.now + at) (place_left result) }
    {
        if let Some(ends) = PlaceEnds::some(confirm, mask, history, bytes, at) {
            return ends;
        }
        PlaceEnds {
            confirm,
            history,
            bytes,
            at,
            full: full_text_key(history, bytes, at),
            heads: [confirm.entries.len(); BUCKETS],
        }
    }

    /// Those that end at `at`, of the buckets whose bit in the mask is 0, or None where there is none.
    #[inline(always)]
    pub(crate) fn some(
        confirm: &'a Confirm,
        mask: u8,
        history: &'a [u8],
        bytes: &'a [u8],
        at: usize,
    ) -> Option<PlaceEnds<'a>>
        requires within { at ≤ length bytes.now }
        ensures { MatchOption result
            (ArePlaceEnds (literals_of confirm.now) (buckets_of confirm.now) mask (history.now ++ bytes.now)
            (length history.now + at) [])
            (λ ends. (place_left ends ≢ []) ×
            ArePlaceEnds (literals_of confirm.now) (buckets_of confirm.now) mask (history.now ++ bytes.now)
            (length history.now + at) (place_left ends)) }
    {
        let full = full_text_key(history, bytes, at);
        let first = match first_head(confirm, u64::from(!mask), full, history, bytes, at) {
            Some(first) => first,
            None => return None,
        };
        Some(PlaceEnds {
            confirm,
            history,
            bytes,
            at,
            full,
            heads: heads_of(confirm, mask, first, full, history, bytes, at),
        })
    }
}

impl<'a> Iterator for PlaceEnds<'a> {
    ghost use Rattle.std.specs.Iterator.{YieldsFirst, item_count};
    ghost use Rattle.hs_confirm.specs.PlaceLeft.{place_left};

    type Item = usize;

    ghost next_gives = { YieldsFirst place_left };

    ghost remaining = { item_count place_left };

    fn next(&mut self) -> Option<usize> {
        let bucket = least_bucket(&self.heads);
        let number = self.heads[bucket];
        if number >= self.confirm.entries.len() {
            return None;
        }
        self.heads[bucket] = head_behind(
            self.confirm,
            number,
            bucket as u8,
            self.full,
            self.history,
            self.bytes,
            self.at,
        );
        Some(number)
    }
}

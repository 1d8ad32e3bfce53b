//! A literal that was found at a place.

ghost use Rattle.std.specs.Prelude.{◌≡◌, ◌≤◌, ◌+◌, ◌++◌, length};
ghost use Rattle.hs_confirm.specs.Found.{AreBuckets, AreFound, AreLeft, buckets_left, from_head};
ghost use Rattle.hs_confirm.specs.Keys.{full_text_key};

use crate::confirm::Confirm;
use crate::ends::Ends;
use hs_bits::{lowest_bit, without_lowest_bit};

/// A literal that ends at a place, with the buckets that haven't been looked at.
#[derive(Clone, Copy)]
pub(crate) struct Head {
    pub(crate) bucket: u8,
    /// The number of the literal.
    pub(crate) number: usize,
    /// A bit for each open bucket that hasn't been looked at.
    pub(crate) left: u64,
}

/// The first literal that ends at `at`, of the buckets whose bit is 1, given the last eight bytes before `at`.
///
/// At most places there is none, so this small answer is what is asked for first.
#[inline(never)]
pub(crate) fn first_head(
    confirm: &Confirm,
    buckets: u64,
    full: u64,
    history: &[u8],
    bytes: &[u8],
    at: usize,
) -> Option<Head>
    requires buckets { AreBuckets buckets }
    requires within { at ≤ length bytes.now }
    requires full { full ≡ full_text_key (history.now ++ bytes.now) (length history.now + at) }
    ensures all { from_head confirm.now.entries.items (history.now ++ bytes.now) (length history.now + at) result ≡
        buckets_left confirm.now.entries.items buckets (history.now ++ bytes.now) (length history.now + at) }
    ensures found { AreFound confirm.now.entries.items (history.now ++ bytes.now) (length history.now + at) result }
    ensures left { AreLeft result buckets }
{
    let mut left = buckets;
    while left != 0 {
        let bucket = lowest_bit(left) as u8;
        left = without_lowest_bit(left);
        if !confirm.may_end(bucket, full) {
            continue;
        }
        if let Some(number) = Ends::with_key(confirm, bucket, full, history, bytes, at).next() {
            return Some(Head {
                bucket,
                number,
                left,
            });
        }
    }
    None
}
